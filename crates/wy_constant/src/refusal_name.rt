//! How what a source breaks is written, in the lines of every program.

ghost use Rattle.std.specs.Prelude.{◌≡◌};
ghost use Rattle.wy_constant.specs.RefusalNames.{fault_name, rule_name};

use crate::rule::Rule;
use crate::source_refusal::LexFault;

/// How it is written.
#[tactic(auto, unfolding(crate::specs::RefusalNames::fault_name))]
pub fn fault_name(fault: LexFault) -> &'static str
    ensures { result.now ≡ fault_name fault }
{
    match fault {
        LexFault::NotUtf8 => "NotUtf8",
        LexFault::BadToken => "BadToken",
        LexFault::BadLiteral => "BadLiteral",
    }
}

/// How a rule is written.
#[tactic(auto, unfolding(crate::specs::RefusalNames::rule_name))]
pub fn rule_name(rule: Rule) -> &'static str
    ensures { result.now ≡ rule_name rule }
{
    match rule {
        Rule::Duplicate => "Duplicate",
        Rule::UnknownName => "UnknownName",
        Rule::Cycle => "Cycle",
        Rule::BadOverride => "BadOverride",
        Rule::NotImplemented => "NotImplemented",
        Rule::NoMethod => "NoMethod",
        Rule::Ambiguous => "Ambiguous",
        Rule::BadOperand => "BadOperand",
        Rule::BadAssign => "BadAssign",
        Rule::BadCast => "BadCast",
        Rule::Private => "Private",
        Rule::NotInStatic => "NotInStatic",
        Rule::NotOffered => "NotOffered",
        Rule::BadJump => "BadJump",
        Rule::BadReturn => "BadReturn",
        Rule::NoMain => "NoMain",
    }
}
