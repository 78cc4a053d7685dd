//! The methods of java.lang that a program may call and that have no body (JLS 15.12).

ghost use Rattle.std.specs.Prelude.{◌≡◌, map};
ghost use Rattle.wy_elab_expr.specs.Members as library;
ghost use Rattle.wy_elab_expr.specs.Views.{library_method};

use crate::bring::{OBJECT, TEXT};
use wy_kernel::form::LibOp;
use wy_kernel::operator::Primitive;
use wy_kernel::types::{Base, Ty};

/// A method of the library, by its name, the types of its parameters and of its result.
#[derive(Clone, Copy)]
pub struct LibraryMethod {
    pub name: &'static str,
    pub params: &'static [Ty],
    pub op: LibOp,
    pub outcome: Ty,
}

const INT: Ty = Ty::Of {
    base: Base::Primitive(Primitive::Int),
    brackets: 0,
};

const LONG: Ty = Ty::Of {
    base: Base::Primitive(Primitive::Long),
    brackets: 0,
};

const CHAR: Ty = Ty::Of {
    base: Base::Primitive(Primitive::Char),
    brackets: 0,
};

const BOOLEAN: Ty = Ty::Of {
    base: Base::Primitive(Primitive::Bool),
    brackets: 0,
};

static TEXT_METHODS: [LibraryMethod; 8] = [
    LibraryMethod {
        name: "length",
        params: &[],
        op: LibOp::Length,
        outcome: INT,
    },
    LibraryMethod {
        name: "isEmpty",
        params: &[],
        op: LibOp::IsEmpty,
        outcome: BOOLEAN,
    },
    LibraryMethod {
        name: "charAt",
        params: &[INT],
        op: LibOp::CharAt,
        outcome: CHAR,
    },
    LibraryMethod {
        name: "substring",
        params: &[INT],
        op: LibOp::PartFrom,
        outcome: TEXT,
    },
    LibraryMethod {
        name: "substring",
        params: &[INT, INT],
        op: LibOp::Part,
        outcome: TEXT,
    },
    LibraryMethod {
        name: "equals",
        params: &[OBJECT],
        op: LibOp::Same,
        outcome: BOOLEAN,
    },
    LibraryMethod {
        name: "compareTo",
        params: &[TEXT],
        op: LibOp::Compare,
        outcome: INT,
    },
    LibraryMethod {
        name: "toString",
        params: &[],
        op: LibOp::Itself,
        outcome: TEXT,
    },
];

static VALUE_OF_METHODS: [LibraryMethod; 4] = [
    LibraryMethod {
        name: "valueOf",
        params: &[CHAR],
        op: LibOp::ValueOf,
        outcome: TEXT,
    },
    LibraryMethod {
        name: "valueOf",
        params: &[INT],
        op: LibOp::ValueOf,
        outcome: TEXT,
    },
    LibraryMethod {
        name: "valueOf",
        params: &[LONG],
        op: LibOp::ValueOf,
        outcome: TEXT,
    },
    LibraryMethod {
        name: "valueOf",
        params: &[BOOLEAN],
        op: LibOp::ValueOf,
        outcome: TEXT,
    },
];

static INTEGER_METHODS: [LibraryMethod; 2] = [
    LibraryMethod {
        name: "parseInt",
        params: &[TEXT],
        op: LibOp::ParseInt,
        outcome: INT,
    },
    LibraryMethod {
        name: "toString",
        params: &[INT],
        op: LibOp::IntText,
        outcome: TEXT,
    },
];

static MATH_METHODS: [LibraryMethod; 6] = [
    LibraryMethod {
        name: "abs",
        params: &[INT],
        op: LibOp::Abs,
        outcome: INT,
    },
    LibraryMethod {
        name: "abs",
        params: &[LONG],
        op: LibOp::Abs,
        outcome: LONG,
    },
    LibraryMethod {
        name: "max",
        params: &[INT, INT],
        op: LibOp::Max,
        outcome: INT,
    },
    LibraryMethod {
        name: "max",
        params: &[LONG, LONG],
        op: LibOp::Max,
        outcome: LONG,
    },
    LibraryMethod {
        name: "min",
        params: &[INT, INT],
        op: LibOp::Min,
        outcome: INT,
    },
    LibraryMethod {
        name: "min",
        params: &[LONG, LONG],
        op: LibOp::Min,
        outcome: LONG,
    },
];

/// The methods of a text.
#[tactic(auto, unfolding(crate::specs::Members::text_methods))]
pub fn text_methods() -> &'static [LibraryMethod]
    ensures { map library_method result.now ≡ library.text_methods }
{
    &TEXT_METHODS
}

/// The methods of String that have no receiver.
#[tactic(auto, unfolding(crate::specs::Members::value_of_methods))]
pub fn value_of_methods() -> &'static [LibraryMethod]
    ensures { map library_method result.now ≡ library.value_of_methods }
{
    &VALUE_OF_METHODS
}

/// The methods of Integer.
#[tactic(auto, unfolding(crate::specs::Members::integer_methods))]
pub fn integer_methods() -> &'static [LibraryMethod]
    ensures { map library_method result.now ≡ library.integer_methods }
{
    &INTEGER_METHODS
}

/// The methods of Math.
#[tactic(auto, unfolding(crate::specs::Members::math_methods))]
pub fn math_methods() -> &'static [LibraryMethod]
    ensures { map library_method result.now ≡ library.math_methods }
{
    &MATH_METHODS
}
