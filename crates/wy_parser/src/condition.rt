//! What a tree of the grammar meets besides its productions.

ghost use Rattle.std.specs.Prelude.{◌≡◌};
ghost use Rattle.wy_tree.specs.Ast.{view, views};
ghost use Rattle.wy_parser.specs.Looks.{refuses_sign as sign_refused, refuses_element as element_refused};
ghost use Rattle.wy_tree.specs.Conditions.{leaf_kind as kind_of_leaf, first_kind as kind_of_first, is_args as args, ends_in_args as args_last, is_access as access, tail as behind_first, is_none as nothing, begins_open as open_first, is_variable as variable, is_effect as effect, is_array_creation as array_creation, is_reference as reference, is_sign as sign, is_signed as signed, lacks_else as else_lacking, is_open as still_open, ends_open as open_end, binds_else as else_bound, pairs as pairs_of, type_pairs as pairs_of_type, declarator_pairs as pairs_of_declarator, most_declarators as most_of_declarators, declared_pairs as pairs_declared, most_types as most_of_types, most_declared as most_of_declared, condition as conditions, fine as all_fine, joins as joining};

use crate::look::is_name;
use wy_tree::grammar::Sort;
use wy_tree::kind::{Kind, is_kind, kind_at};
use wy_tree::tree::{Form, Tree};

#[tactic(auto, using(wy_tree::proofs::Views::view_leaf, wy_tree::proofs::Views::view_node))]
fn leaf_kind(tree: &Tree) -> Kind
    ensures { result ≡ kind_of_leaf (view tree.now) }
{
    match tree {
        Tree::Leaf(token) => kind_at(token),
        Tree::Node { .. } => Kind::Nothing,
    }
}

fn first_kind(parts: &[Tree]) -> Kind
    ensures { result ≡ kind_of_first (views parts.now) }
{
    match parts {
        [] => Kind::Nothing,
        [first, ..] => leaf_kind(first),
    }
}

#[tactic(auto, using(wy_tree::proofs::Views::view_leaf, wy_tree::proofs::Views::view_node))]
fn is_args(tree: &Tree) -> bool
    ensures { result ≡ args (view tree.now) }
{
    match tree {
        Tree::Leaf(_) => false,
        Tree::Node { form, .. } => matches!(*form, Form::Args),
    }
}

fn ends_in_args(parts: &[Tree]) -> bool
    ensures { result ≡ args_last (views parts.now) }
{
    let mut left = parts;
    while let [first, behind @ ..] = left {
        if behind.is_empty() {
            return is_args(first);
        }
        left = behind;
    }
    false
}

fn tail(parts: &[Tree]) -> &[Tree]
    ensures { views result.now ≡ behind_first (views parts.now) }
{
    match parts {
        [] => parts,
        [_, behind @ ..] => behind,
    }
}

fn is_none(parts: &[Tree]) -> bool
    ensures { result ≡ nothing (views parts.now) }
{
    parts.split_first().is_none()
}

fn is_access(parts: &[Tree]) -> bool
    ensures { result ≡ access (views parts.now) }
{
    let second = first_kind(tail(parts));
    (is_kind(second, Kind::Dot) && is_none(tail(tail(tail(parts)))))
        || is_kind(second, Kind::OpenBracket)
}

#[tactic(auto, using(wy_tree::proofs::Views::view_leaf, wy_tree::proofs::Views::view_node))]
fn is_variable(tree: &Tree) -> bool
    ensures { result ≡ variable (view tree.now) }
{
    match tree {
        Tree::Leaf(token) => is_name(kind_at(token)),
        Tree::Node { form, parts } => match *form {
            Form::Primary => is_access(parts),
            _ => false,
        },
    }
}

#[tactic(auto, using(wy_tree::proofs::Views::view_leaf, wy_tree::proofs::Views::view_node))]
fn is_effect(tree: &Tree) -> bool
    ensures { result ≡ effect (view tree.now) }
{
    match tree {
        Tree::Leaf(_) => false,
        Tree::Node { form, parts } => match *form {
            Form::Expr | Form::Postfix => true,
            Form::Unary => is_kind(first_kind(parts), Kind::Step),
            Form::Primary | Form::New => ends_in_args(parts),
            _ => false,
        },
    }
}

#[tactic(auto, using(wy_tree::proofs::Views::view_leaf, wy_tree::proofs::Views::view_node))]
fn is_array_creation(tree: &Tree) -> bool
    ensures { result ≡ array_creation (view tree.now) }
{
    match tree {
        Tree::Leaf(_) => false,
        Tree::Node { form, parts } => match *form {
            Form::New => !ends_in_args(parts),
            _ => false,
        },
    }
}

#[tactic(auto, using(wy_tree::proofs::Views::view_leaf, wy_tree::proofs::Views::view_node))]
fn is_reference(tree: &Tree) -> bool
    ensures { result ≡ reference (view tree.now) }
{
    match tree {
        Tree::Leaf(token) => is_name(kind_at(token)),
        Tree::Node { .. } => true,
    }
}

fn is_sign(kind: Kind) -> bool
    ensures { result ≡ sign kind }
{
    is_kind(kind, Kind::Plus) || is_kind(kind, Kind::Minus) || is_kind(kind, Kind::Step)
}

#[tactic(auto, using(wy_tree::proofs::Views::view_leaf, wy_tree::proofs::Views::view_node))]
fn is_signed(tree: &Tree) -> bool
    ensures { result ≡ signed (view tree.now) }
{
    match tree {
        Tree::Leaf(_) => false,
        Tree::Node { form, parts } => match *form {
            Form::Unary => is_sign(first_kind(parts)),
            _ => false,
        },
    }
}

fn lacks_else(parts: &[Tree]) -> bool
    ensures { result ≡ else_lacking (views parts.now) }
{
    is_kind(first_kind(parts), Kind::If) && is_none(tail(tail(tail(tail(tail(parts))))))
}

#[tactic(auto, using(wy_tree::proofs::Views::view_leaf, wy_tree::proofs::Views::view_node))]
#[cycle(open)]
fn is_open(tree: &Tree) -> bool
    ensures { result ≡ still_open (view tree.now) }
{
    match tree {
        Tree::Leaf(_) => false,
        Tree::Node { form, parts } => match *form {
            Form::Stmt => lacks_else(parts) || ends_open(parts),
            _ => false,
        },
    }
}

#[cycle(open)]
fn ends_open(parts: &[Tree]) -> bool
    ensures { result ≡ open_end (views parts.now) }
{
    let mut left = parts;
    while let [first, behind @ ..] = left {
        if behind.is_empty() {
            return is_open(first);
        }
        left = behind;
    }
    false
}

fn begins_open(parts: &[Tree]) -> bool
    ensures { result ≡ open_first (views parts.now) }
{
    match parts {
        [] => false,
        [first, ..] => is_open(first),
    }
}

fn binds_else(parts: &[Tree]) -> bool
    ensures { result ≡ else_bound (views parts.now) }
{
    lacks_else(parts)
        || !(is_kind(first_kind(parts), Kind::If) && begins_open(tail(tail(tail(tail(parts))))))
}

fn pairs(parts: &[Tree]) -> usize
    ensures value { result ≡ pairs_of (views parts.now) }
{
    let mut count = 0;
    let mut left = parts;
    while let [first, behind @ ..] = left {
        if is_kind(leaf_kind(first), Kind::OpenBracket) {
            count += 1;
        }
        left = behind;
    }
    count
}

#[tactic(auto, using(wy_tree::proofs::Views::view_leaf, wy_tree::proofs::Views::view_node))]
fn type_pairs(tree: &Tree) -> usize
    ensures { result ≡ pairs_of_type (view tree.now) }
{
    match tree {
        Tree::Leaf(_) => 0,
        Tree::Node { form, parts } => match *form {
            Form::TypeNode => pairs(parts),
            _ => 0,
        },
    }
}

#[tactic(auto, using(wy_tree::proofs::Views::view_leaf, wy_tree::proofs::Views::view_node))]
fn declarator_pairs(tree: &Tree) -> usize
    ensures { result ≡ pairs_of_declarator (view tree.now) }
{
    match tree {
        Tree::Leaf(_) => 0,
        Tree::Node { form, parts } => match *form {
            Form::Decl => pairs(parts),
            _ => 0,
        },
    }
}

fn most_declarators(parts: &[Tree]) -> usize
    ensures { result ≡ most_of_declarators (views parts.now) }
{
    let mut most: usize = 0;
    let mut left = parts;
    while let [first, behind @ ..] = left {
        most = most.max(declarator_pairs(first));
        left = behind;
    }
    most
}

#[tactic(auto, using(wy_tree::proofs::Views::view_leaf, wy_tree::proofs::Views::view_node))]
fn declared_pairs(tree: &Tree) -> usize
    ensures { result ≡ pairs_declared (view tree.now) }
{
    match tree {
        Tree::Leaf(_) => declarator_pairs(tree),
        Tree::Node { form, parts } => match *form {
            Form::Decls => most_declarators(parts),
            _ => declarator_pairs(tree),
        },
    }
}

fn most_types(parts: &[Tree]) -> usize
    ensures { result ≡ most_of_types (views parts.now) }
{
    let mut most: usize = 0;
    let mut left = parts;
    while let [first, behind @ ..] = left {
        most = most.max(type_pairs(first));
        left = behind;
    }
    most
}

fn most_declared(parts: &[Tree]) -> usize
    ensures { result ≡ most_of_declared (views parts.now) }
{
    let mut most: usize = 0;
    let mut left = parts;
    while let [first, behind @ ..] = left {
        most = most.max(declared_pairs(first));
        left = behind;
    }
    most
}

fn condition(sort: Sort, parts: &[Tree]) -> bool
    ensures { result ≡ conditions sort (views parts.now) }
{
    let [first, behind @ ..] = parts else {
        return true;
    };
    match sort {
        Sort::RefType => is_reference(first),
        Sort::Effect => is_effect(first),
        Sort::Operand => !is_signed(first),
        Sort::Expr => is_none(behind) || is_variable(first),
        Sort::Stmt => binds_else(parts),
        _ => true,
    }
}

/// Whether these parts make a tree of this sort, if they fit its rule.
pub fn fine(sort: Sort, parts: &[Tree]) -> bool
    ensures { result ≡ all_fine sort (views parts.now) }
{
    condition(sort, parts)
        && pairs(parts).min(256) + (most_types(parts).min(256) + most_declared(parts).min(256))
            <= 255
}

/// Whether no tree of this sort begins with a token of this kind: the operand of a cast to a reference begins with no sign.
pub fn refuses_sign(sort: Sort, kind: Kind) -> bool
    ensures { result ≡ sign_refused sort kind }
{
    match sort {
        Sort::Operand => is_sign(kind),
        _ => false,
    }
}

/// Whether nothing that begins with a token of this kind may stand behind a tree.
pub fn refuses_element(left: &Tree, kind: Kind) -> bool
    ensures { result ≡ element_refused (view left.now) kind }
{
    is_array_creation(left) && is_kind(kind, Kind::OpenBracket)
}

/// Whether these parts may stand behind a tree.
pub fn joins(left: &Tree, parts: &[Tree]) -> bool
    ensures { result ≡ joining (view left.now) (views parts.now) }
{
    !(is_array_creation(left) && is_kind(first_kind(parts), Kind::OpenBracket))
}
