//! Laws of subtyping and of choice. Each function does nothing: its contract is the law.

ghost use Rattle.wy_overloads.specs.Laws.{BelowIsAntisymmetric, NoneIsChosenAndRefused, OneIsChosen, OneRuleRefuses};

/// No two types are below each other.
pub fn subtyping_is_antisymmetric()
    ensures { BelowIsAntisymmetric }
{}

/// A call means one method at most.
pub fn one_method_is_chosen()
    ensures { OneIsChosen }
{}

/// Where no method is chosen, it is by one rule.
pub fn one_rule_refuses()
    ensures one { OneRuleRefuses }
    ensures exclusive { NoneIsChosenAndRefused }
{}
