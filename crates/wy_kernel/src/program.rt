//! The parts of a program: classes, methods and fields by their numbers, bodies, constant texts, and the lines of its tokens.

ghost use Rattle.std.specs.Prelude.{◌≡◌, ◌<◌, ◌^◌, ℕ, Any, Contains, length, slice_get, option_map, map, Some, None};
ghost use Rattle.wy_kernel.specs.Program.{body, class, field, fixed_text, init_body, method};
ghost use Rattle.wy_kernel.specs.Parts.{program_of};
ghost use Rattle.wy_kernel.specs.Statements.{number_of, statements_of};
ghost use Rattle.wy_kernel.specs.View.{body_of, class_of, field_of, method_of, statement};

use crate::form::{Body, Stmt};
use crate::search::find_in_bodies;
use crate::types::{Class, Field, Method};

/// A program. Its main is the method that a run calls; statements are counted over all bodies.
#[derive(Drop)]
pub struct Program {
    pub classes: Vec<Class>,
    pub methods: Vec<Method>,
    pub fields: Vec<Field>,
    /// The body of each method, where it has one.
    pub bodies: Vec<Option<Body>>,
    /// The initializer of each class, where it has one.
    pub init_bodies: Vec<Option<Body>>,
    pub fixed_texts: Vec<Vec<u16>>,
    /// The line of each token.
    pub lines: Vec<u32>,
    pub statements: u32,
    pub main: u32,
}

impl Program {
    pub fn class(&self, n: u32) -> &Class
        requires { n < length self.now.classes.items }
        ensures { class_of result.now ≡ class (program_of self.now) n }
    {
        &self.classes[n as usize]
    }

    pub fn method(&self, n: u32) -> &Method
        requires { n < length self.now.methods.items }
        ensures { method_of result.now ≡ method (program_of self.now) n }
    {
        &self.methods[n as usize]
    }

    pub fn field(&self, n: u32) -> &Field
        requires { n < length self.now.fields.items }
        ensures { field_of result.now ≡ field (program_of self.now) n }
    {
        &self.fields[n as usize]
    }

    /// The statement with a number, of all bodies.
    pub fn statement(&self, n: u32) -> &Stmt
        requires { Any (λ s. number_of s ≡ n) (statements_of (program_of self.now)) }
        ensures numbered { number_of (statement result.now) ≡ n }
        ensures listed { Contains (statements_of (program_of self.now)) (statement result.now) }
    {
        match find_in_bodies(&self.bodies, n) {
            Some(found) => found,
            None => find_in_bodies(&self.init_bodies, n).unwrap(),
        }
    }

    pub fn fixed_text(&self, n: u32) -> &[u16]
        requires { n < length self.now.fixed_texts.items }
        ensures { result.now ≡ fixed_text (program_of self.now) n }
    {
        &self.fixed_texts[n as usize]
    }

    /// The body of a method, and None exactly where it has none.
    pub fn body(&self, n: u32) -> Option<&Body>
        requires { n < length self.now.bodies.items }
        ensures { option_map (λ b. body_of b.now) result ≡ body (program_of self.now) n }
    {
        self.bodies[n as usize].as_ref()
    }

    /// The body of the initializer of a class, and None exactly where it has none.
    pub fn init_body(&self, n: u32) -> Option<&Body>
        requires { n < length self.now.init_bodies.items }
        ensures { option_map (λ b. body_of b.now) result ≡ init_body (program_of self.now) n }
    {
        self.init_bodies[n as usize].as_ref()
    }

    /// The line of a token.
    pub fn line(&self, n: u32) -> u32
        requires { n < length self.now.lines.items }
        ensures { slice_get self.now.lines.items n ≡ Some result }
    {
        self.lines[n as usize]
    }

    pub fn main(&self) -> u32
        ensures { result ≡ (program_of self.now).main }
    {
        self.main
    }

    pub fn statements(&self) -> u32
        ensures { result ≡ (program_of self.now).statements }
    {
        self.statements
    }

    pub fn classes(&self) -> u32
        requires { length self.now.classes.items < 2 ^ 32 }
        ensures { result ≡ length self.now.classes.items }
    {
        self.classes.len() as u32
    }

    pub fn methods(&self) -> u32
        requires { length self.now.methods.items < 2 ^ 32 }
        ensures { result ≡ length self.now.methods.items }
    {
        self.methods.len() as u32
    }

    pub fn fields(&self) -> u32
        requires { length self.now.fields.items < 2 ^ 32 }
        ensures { result ≡ length self.now.fields.items }
    {
        self.fields.len() as u32
    }

    pub fn fixed_texts(&self) -> u32
        requires { length self.now.fixed_texts.items < 2 ^ 32 }
        ensures { result ≡ length self.now.fixed_texts.items }
    {
        self.fixed_texts.len() as u32
    }

    /// The number of tokens: each has a line.
    pub fn tokens(&self) -> u32
        requires { length self.now.lines.items < 2 ^ 32 }
        ensures { result ≡ length self.now.lines.items }
    {
        self.lines.len() as u32
    }
}
