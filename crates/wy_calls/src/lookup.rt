//! The method that runs for a class (JLS 8.4.2, 15.12.4.4), found without a search through all methods.

ghost use Rattle.std.specs.Prelude.{◌≡◌, ◌<◌, IfOk, length};
ghost use Rattle.wy_kernel.specs.Parts.{program_of};
ghost use Rattle.wy_kernel.specs.Program.{dispatch};
ghost use Rattle.wy_kernel.specs.View.{present};
ghost use Rattle.wy_calls.specs.Dispatch.{above, found_in, AreOf, HasFirsts, HasNexts};

use crate::signature::runs_as;
use std::alloc::{AllocError, Global};
use wy_kernel::program::Program;
use wy_kernel::types::{Method, NONE};

/// A program with its methods class by class.
#[derive(Drop)]
pub struct Dispatcher<'a> {
    pub program: &'a Program,
    /// The first method of each class, or NONE.
    first: Vec<u32>,
    /// After each method the next one of its class, or NONE.
    next: Vec<u32>,
    ghost few: { length program.now.methods.items < 4294967295 },
    ghost owned: { AreOf program.now.methods.items (length first.items) 0 },
    ghost all_next: { length next.items ≡ length program.now.methods.items },
    ghost firsts: { HasFirsts program.now.methods.items first.items 0 },
    ghost nexts: { HasNexts program.now.methods.items next.items 0 },
}

impl<'a> Dispatcher<'a> {
    /// Goes through the methods of a program once. A method whose class the program hasn't is refused.
    pub fn new(alloc: Global, program: &'a Program) -> Result<Dispatcher<'a>, AllocError>
        ensures { IfOk result (λ d. d.program.now ≡ program.now) }
    {
        if program.methods.len() >= NONE as usize {
            return Err(AllocError);
        }
        let mut first = vec![in alloc; NONE; program.classes.len()]?;
        let mut next = vec![in alloc; NONE; program.methods.len()]?;
        let mut number = program.methods.len();
        while number > 0 {
            number -= 1;
            let class = program.methods[number].class as usize;
            if class >= first.len() {
                return Err(AllocError);
            }
            next[number] = first[class];
            first[class] = number as u32;
        }
        Ok(Dispatcher {
            program,
            first,
            next,
        })
    }

    /// The method that a call of a method runs on an object of a class: that of the nearest class, from this one upward, that
    /// declares it.
    pub fn dispatch(&self, class: u32, method: u32) -> u32
        requires { method < length self.now.program.now.methods.items }
        ensures { result ≡ dispatch (program_of self.now.program.now) method class }
    {
        let called = self.program.method(method);
        let mut class = class;
        let mut longest = self.program.classes.len() + 1;
        while longest > 0 {
            if let Some(found) = self.declared_in(class, called) {
                return found;
            }
            class = superclass(self.program, class);
            if class == NONE {
                return method;
            }
            longest -= 1;
        }
        method
    }

    /// The first method of a class that a call of a method runs, by its number.
    fn declared_in(&self, class: u32, called: &Method) -> Option<u32>
        ensures { result ≡ found_in self.now.program.now class called.now }
    {
        if class as usize >= self.first.len() {
            return None;
        }
        let mut number = self.first[class as usize];
        while number != NONE {
            let at = number as usize;
            if runs_as(class, called, &self.program.methods[at]) {
                return Some(number);
            }
            number = self.next[at];
        }
        None
    }
}

/// The superclass of a class, or NONE.
fn superclass(program: &Program, class: u32) -> u32
    ensures { present result ≡ above (program_of program.now) class }
{
    if class as usize >= program.classes.len() {
        return NONE;
    }
    program.class(class).above
}
