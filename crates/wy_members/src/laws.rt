//! Laws of refusals and of constant fields. Each function does nothing: its contract is the law.

ghost use Rattle.wy_members.specs.Refusal.{NoneIsDue, OneIsDue};
ghost use Rattle.wy_members.specs.Laws.{OneConstantAField, OneListOfConstants};

/// The declarations of a program are refused by one rule at one token, and not at all where they keep the rules.
pub fn one_refusal_is_due()
    ensures one { OneIsDue }
    ensures none { NoneIsDue }
{}

/// A field that is a constant variable has one value, and a program one list of them.
pub fn one_constant_stands_for_a_field()
    ensures value { OneConstantAField }
    ensures list { OneListOfConstants }
{}
