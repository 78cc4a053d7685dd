//! Expressions as text: a form stands in parentheses, with its name, its token behind `@` where tokens are asked for, its types, and
//! its parts. A local is its number behind `l`, a static field behind `s`, another one behind `f`, a method behind `m`, a class
//! behind `#`, a constant text behind `$`. A part that isn't there is `-`.

use std::alloc::{AllocError, Global};
use wy_kernel::form::{CallForm, CondForm, Const, Expr, LibOp, Place};
use wy_kernel::operator::{BinOp, Primitive, UnOp};
use wy_kernel::types::{Base, NONE, Ty};

/// The text so far, and whether it has the tokens of expressions.
#[derive(Drop)]
pub struct Page {
    pub text: String,
    has_sites: bool,
}

impl Page {
    pub fn new(alloc: Global, has_sites: bool) -> Page {
        Page {
            text: String::new(alloc),
            has_sites,
        }
    }

    pub fn word(&mut self, word: &str) -> Result<(), AllocError> {
        self.text.push_str(word)
    }

    pub fn number(&mut self, number: u32) -> Result<(), AllocError> {
        if number == NONE {
            return self.word("-");
        }
        write!(self.text, "{number}")
    }

    /// A word and a number.
    pub fn named(&mut self, word: &str, number: u32) -> Result<(), AllocError> {
        self.word(word)?;
        self.number(number)
    }

    /// The token of an expression.
    pub fn site(&mut self, site: u32) -> Result<(), AllocError> {
        if self.has_sites {
            return self.named("@", site);
        }
        Ok(())
    }

    // What a form begins with: its name and its token.
    fn open(&mut self, name: &str, site: u32) -> Result<(), AllocError> {
        self.word("(")?;
        self.word(name)?;
        self.site(site)
    }

    // A type behind a space.
    fn spaced(&mut self, ty: Ty) -> Result<(), AllocError> {
        self.word(" ")?;
        show_type(self, ty)
    }
}

fn primitive_name(primitive: Primitive) -> &'static str {
    match primitive {
        Primitive::Bool => "boolean",
        Primitive::Byte => "byte",
        Primitive::Short => "short",
        Primitive::Char => "char",
        Primitive::Int => "int",
        Primitive::Long => "long",
    }
}

pub fn show_type(page: &mut Page, ty: Ty) -> Result<(), AllocError> {
    match ty {
        Ty::Void => page.word("void"),
        Ty::Null => page.word("null"),
        Ty::Of { base, brackets } => {
            match base {
                Base::Primitive(primitive) => page.word(primitive_name(primitive))?,
                Base::Class(class) => page.named("#", class)?,
            }
            for _ in 0..brackets {
                page.word("[]")?;
            }
            Ok(())
        }
    }
}

fn show_constant(page: &mut Page, value: &Const) -> Result<(), AllocError> {
    match value {
        Const::Null => page.word("null"),
        Const::Bool(b) => write!(page.text, "{b}"),
        Const::Byte(n) => write!(page.text, "{n}b"),
        Const::Short(n) => write!(page.text, "{n}s"),
        Const::Char(n) => write!(page.text, "{n}c"),
        Const::Int(n) => write!(page.text, "{n}"),
        Const::Long(n) => write!(page.text, "{n}L"),
        Const::Text(_) => page.word("text"),
    }
}

fn unary_name(op: UnOp) -> &'static str {
    match op {
        UnOp::Plus => "(+",
        UnOp::Minus => "(-",
        UnOp::Flip => "(~",
        UnOp::Not => "(!",
    }
}

fn binary_name(op: BinOp) -> &'static str {
    match op {
        BinOp::Add => "+",
        BinOp::Sub => "-",
        BinOp::Mul => "*",
        BinOp::Div => "/",
        BinOp::Rem => "%",
        BinOp::Shl => "<<",
        BinOp::Shr => ">>",
        BinOp::Ushr => ">>>",
        BinOp::Lt => "<",
        BinOp::Gt => ">",
        BinOp::Le => "<=",
        BinOp::Ge => ">=",
        BinOp::Eq => "==",
        BinOp::Ne => "!=",
        BinOp::And => "&",
        BinOp::Or => "|",
        BinOp::Xor => "^",
    }
}

fn condition_name(form: CondForm) -> &'static str {
    match form {
        CondForm::Choice => "?",
        CondForm::And => "&&",
        CondForm::Or => "||",
    }
}

fn library_name(op: LibOp) -> &'static str {
    match op {
        LibOp::ArrayLength => "ArrayLength",
        LibOp::Length => "Length",
        LibOp::IsEmpty => "IsEmpty",
        LibOp::CharAt => "CharAt",
        LibOp::PartFrom => "PartFrom",
        LibOp::Part => "Part",
        LibOp::Same => "Same",
        LibOp::Compare => "Compare",
        LibOp::Itself => "Itself",
        LibOp::ValueOf => "ValueOf",
        LibOp::ParseInt => "ParseInt",
        LibOp::IntText => "IntText",
        LibOp::Abs => "Abs",
        LibOp::Max => "Max",
        LibOp::Min => "Min",
        LibOp::ReadByte => "ReadByte",
        LibOp::ClassText => "ClassText",
        LibOp::ObjectText => "ObjectText",
    }
}

// The name of a call. The type of the receiver stands where it is one that the class gives.
fn open_call(page: &mut Page, form: CallForm, ty: Ty, site: u32) -> Result<(), AllocError> {
    match form {
        CallForm::Static => page.open("static", site),
        CallForm::Direct => page.open("direct", site),
        CallForm::Chosen => {
            page.open("chosen", site)?;
            page.spaced(ty)
        }
    }
}

// What stands before the parts of an update: the types of the place, of the value, and of the operation.
fn open_update(page: &mut Page, expr: &Expr) -> Result<(), AllocError> {
    if let Expr::Upd {
        op,
        value_ty,
        ty,
        wide,
        gives_old,
        site,
        ..
    } = expr
    {
        page.word(if *gives_old { "(old " } else { "(" })?;
        page.word(binary_name(*op))?;
        page.word("=")?;
        page.site(*site)?;
        page.spaced(*ty)?;
        page.spaced(*value_ty)?;
        page.word(" ")?;
        page.word(match wide {
            Some(wide) => primitive_name(*wide),
            None => "text",
        })?;
    }
    Ok(())
}

// What stands before the parts of the creation of an array: their tokens too, where they are elements.
fn open_array(
    page: &mut Page,
    ty: Ty,
    dims: &[Expr],
    sites: &[u32],
    site: u32,
) -> Result<(), AllocError> {
    page.open("new", site)?;
    page.spaced(ty)?;
    page.word(if dims.is_empty() { " of" } else { " by" })?;
    for at in sites {
        page.site(*at)?;
    }
    Ok(())
}

// What stands before the parts of an expression.
fn open_form(page: &mut Page, expr: &Expr) -> Result<(), AllocError> {
    match expr {
        Expr::Const { value } => show_constant(page, value),
        Expr::Str { text } => page.named("$", *text),
        Expr::Read { .. } => Ok(()),
        Expr::Set { site, .. } => page.open("=", *site),
        Expr::Upd { .. } => open_update(page, expr),
        Expr::Un { op, .. } => page.word(unary_name(*op)),
        Expr::Bin { op, site, .. } => page.open(binary_name(*op), *site),
        Expr::Conv { to, .. } => {
            page.word("(to ")?;
            page.word(primitive_name(*to))
        }
        Expr::Cast { ty, site, .. } => {
            page.open("cast", *site)?;
            page.spaced(*ty)
        }
        Expr::InstanceOf { ty, .. } => {
            page.word("(is")?;
            page.spaced(*ty)
        }
        Expr::Cond { form, site, .. } => page.open(condition_name(*form), *site),
        Expr::New { .. } | Expr::NewArray { .. } => open_new(page, expr),
        Expr::Call { .. } | Expr::Cat { .. } => open_joint(page, expr),
        Expr::Lib { op, site, .. } => page.open(library_name(*op), *site),
    }
}

fn open_new(page: &mut Page, expr: &Expr) -> Result<(), AllocError> {
    match expr {
        Expr::New {
            class,
            constructor,
            site,
            ..
        } => {
            page.open("new", *site)?;
            page.named(" #", *class)?;
            page.named(" m", *constructor)
        }
        Expr::NewArray {
            ty,
            dims,
            element_sites,
            site,
            ..
        } => open_array(page, *ty, dims, element_sites, *site),
        _ => Ok(()),
    }
}

fn open_joint(page: &mut Page, expr: &Expr) -> Result<(), AllocError> {
    match expr {
        Expr::Call {
            form,
            method,
            ty,
            site,
            ..
        } => {
            open_call(page, *form, *ty, *site)?;
            page.named(" m", *method)
        }
        Expr::Cat {
            left_ty,
            right_ty,
            site,
            ..
        } => {
            page.open("++", *site)?;
            page.spaced(*left_ty)?;
            page.spaced(*right_ty)
        }
        _ => Ok(()),
    }
}

// What stands behind the parts.
fn close_form(page: &mut Page, expr: &Expr) -> Result<(), AllocError> {
    match expr {
        Expr::Const { .. } | Expr::Str { .. } | Expr::Read { .. } => Ok(()),
        _ => page.word(")"),
    }
}

#[cycle(shown)]
fn show_place(page: &mut Page, place: &Place) -> Result<(), AllocError> {
    match place {
        Place::Local { index } => page.named("l", *index),
        Place::Static { field, site } => {
            page.named("s", *field)?;
            page.site(*site)
        }
        Place::Field {
            object,
            field,
            site,
        } => {
            page.named("(f", *field)?;
            page.site(*site)?;
            show(page, object)?;
            page.word(")")
        }
        Place::Elem { array, index, site } => {
            page.open("at", *site)?;
            show(page, array)?;
            show(page, index)?;
            page.word(")")
        }
    }
}

#[cycle(shown)]
fn show_all(page: &mut Page, all: &[Expr]) -> Result<(), AllocError> {
    for one in all {
        show(page, one)?;
    }
    Ok(())
}

#[cycle(shown)]
fn show_some(page: &mut Page, value: &Option<Box<Expr>>) -> Result<(), AllocError> {
    match value {
        Some(value) => show(page, value),
        None => page.word(" -"),
    }
}

// The place of an assignment, and its value.
#[cycle(shown)]
fn show_target(page: &mut Page, place: &Place) -> Result<(), AllocError> {
    page.word(" ")?;
    show_place(page, place)
}

/// An expression behind a space.
#[cycle(shown)]
pub fn show(page: &mut Page, expr: &Expr) -> Result<(), AllocError> {
    page.word(" ")?;
    open_form(page, expr)?;
    match expr {
        Expr::Const { .. } | Expr::Str { .. } => {}
        Expr::Read { place } => show_place(page, place)?,
        Expr::Set { place, value, .. } => {
            show_target(page, place)?;
            show(page, value)?;
        }
        Expr::Upd { place, value, .. } => {
            show_target(page, place)?;
            show_some(page, value)?;
        }
        Expr::Un { operand, .. } => show(page, operand)?,
        Expr::Conv { operand, .. } => show(page, operand)?,
        Expr::Cast { operand, .. } => show(page, operand)?,
        Expr::InstanceOf { operand, .. } => show(page, operand)?,
        Expr::Bin { left, right, .. } | Expr::Cat { left, right, .. } => {
            show(page, left)?;
            show(page, right)?;
        }
        Expr::Cond { test, yes, no, .. } => {
            show(page, test)?;
            show_some(page, yes)?;
            show_some(page, no)?;
        }
        Expr::New { args, .. } | Expr::Lib { args, .. } => show_all(page, args)?,
        Expr::NewArray { dims, elements, .. } => {
            show_all(page, dims)?;
            show_all(page, elements)?;
        }
        Expr::Call { receiver, args, .. } => {
            show_some(page, receiver)?;
            show_all(page, args)?;
        }
    }
    close_form(page, expr)
}
