//! The rules that a program of well-formed trees can break, and the refusal that names one.

use std::alloc::{AllocError, AllocFailed};

/// A rule of types. A refused program breaks at least one.
#[derive(Clone, Copy, Debug, PartialEq, Eq)]
pub enum Rule {
    /// Something is declared again in its scope.
    Duplicate,
    /// A name denotes nothing.
    UnknownName,
    /// A class or an interface is above itself.
    Cycle,
    /// A method can't override another, or a class can't extend another.
    BadOverride,
    /// A body is missing or too much, or an object of an abstract class is made.
    NotImplemented,
    /// No method or constructor is applicable.
    NoMethod,
    /// No applicable method is most specific.
    Ambiguous,
    /// An operand has a wrong type.
    BadOperand,
    /// A value can't be assigned, or a variable can't be assigned to.
    BadAssign,
    /// A cast or an `instanceof` isn't allowed.
    BadCast,
    /// A private member stands outside its class.
    Private,
    /// Something of an instance stands where there is none.
    NotInStatic,
    /// The library doesn't have a member, or a static member has a receiver.
    NotOffered,
    /// A jump has no target.
    BadJump,
    /// A `return` doesn't fit its method.
    BadReturn,
    /// There is no main.
    NoMain,
}

/// Why a program is refused: the rule that it breaks at a token, or want of memory.
#[derive(Clone, Copy, Debug, PartialEq, Eq)]
pub enum TypeError {
    Broken { rule: Rule, token: u32 },
    NoMemory,
}

impl From<AllocError> for TypeError {
    ghost use Rattle.std.specs.Prelude.{◌≡◌};
    ghost use Rattle.wy_constant.specs.declared.rule.TypeError.TheVariants.{NoMemory};

    ghost from_gives = { λ _ e. e ≡ NoMemory };

    fn from(_error: AllocError) -> TypeError {
        TypeError::NoMemory
    }
}

impl<T: Drop> From<AllocFailed<T>> for TypeError {
    ghost use Rattle.std.specs.Prelude.{◌≡◌};
    ghost use Rattle.wy_constant.specs.declared.rule.TypeError.TheVariants.{NoMemory};

    ghost from_gives = { λ _ e. e ≡ NoMemory };

    fn from(_error: AllocFailed<T>) -> TypeError {
        TypeError::NoMemory
    }
}
