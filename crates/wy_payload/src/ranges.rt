//! What the ranges of a trace read of a program.

ghost use Rattle.std.specs.Prelude.{◌≡◌, length, map, IfOk};
ghost use Rattle.wy_kernel.specs.Parts.{program_of};
ghost use Rattle.wy_kernel.specs.Statements.{statements_of};
ghost use Rattle.wy_value.specs.Encoding.{utf8_of};
ghost use Rattle.wy_payload.specs.Bodies.{locals_of, newlines_of};

use crate::newline::put_all;
use std::alloc::{AllocError, Global};
use wy_event::record::Version;
use wy_event::sequence::Sequence;
use wy_kernel::form::Body;
use wy_kernel::program::Program;
use wy_kernel::statements::statements_of;
use wy_kernel::types::Field;
use wy_value::to_utf8;

/// The version of a trace; the counts of its program, and what its fields, bodies, constant texts and prints are.
#[derive(Drop)]
pub struct Ranges {
    pub version: Version,
    pub tokens: usize,
    pub classes: usize,
    pub methods: usize,
    pub statements: u32,
    /// Of each field, that it is static.
    pub statics: Sequence<bool>,
    /// The locals of the body of each method, and of the initializer of each class.
    pub method_locals: Sequence<usize>,
    pub class_locals: Sequence<usize>,
    /// The bytes that each constant text prints.
    pub fixed: Sequence<usize>,
    /// The sites of prints that end a line.
    pub newlines: Sequence<u32>,
}

pub fn statics_of(alloc: Global, fields: &[Field]) -> Result<Vec<bool>, AllocError>
    ensures { IfOk result (λ v. v.items ≡ map (λ f. f.is_static) fields.now) }
{
    fields.iter().map(|f| f.is_static).collect(alloc)
}

fn count_of(body: &Option<Body>) -> usize
    ensures { result ≡ locals_of body.now }
{
    match body {
        Some(body) => body.locals.len(),
        None => 0,
    }
}

pub fn counts_of(alloc: Global, bodies: &[Option<Body>]) -> Result<Vec<usize>, AllocError>
    ensures { IfOk result (λ v. v.items ≡ map locals_of bodies.now) }
{
    let mut counts = Vec::new(alloc);
    for body in bodies {
        counts.push(count_of(body))?;
    }
    Ok(counts)
}

pub fn lengths_of(alloc: Global, texts: &[Vec<u16>]) -> Result<Vec<usize>, AllocError>
    ensures { IfOk result (λ v. v.items ≡ map (λ t. length (utf8_of t.items)) texts.now) }
{
    let mut lengths = Vec::new(alloc);
    for text in texts {
        let bytes = to_utf8(alloc, text)?;
        lengths.push(bytes.len())?;
    }
    Ok(lengths)
}

pub fn newlines(alloc: Global, program: &Program) -> Result<Vec<u32>, AllocError>
    ensures { IfOk result (λ v. v.items ≡ newlines_of (statements_of (program_of program.now))) }
{
    let all = statements_of(alloc, program)?;
    let mut sites = Vec::new(alloc);
    put_all(&mut sites, &all)?;
    Ok(sites)
}
