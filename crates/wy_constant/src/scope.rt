//! The variables of a body that are in scope (JLS 6.3, 6.4). Nothing here reads a tree.

ghost use Rattle.std.specs.Prelude.{◌≡◌, ◌<◌, ◌≤◌, ◌^◌, length, map, option_map, OnOk, OnErr, IfOk, Ok};
ghost use Rattle.wy_kernel.specs.Limits.{unit_limit};
ghost use Rattle.wy_kernel.specs.Table.{constant_value};
ghost use Rattle.wy_constant.specs.Refusal.{Gives};
ghost use Rattle.wy_constant.specs.Scopes.{text_of, variable_of};
ghost use Rattle.wy_tree.specs.Tokens.{token_limit};

use crate::rule::{Rule, TypeError};
use crate::simple::units_in;
use crate::variable::{FixedText, Variable};
use crate::variables::Variables;
use std::alloc::{AllocError, Global};
use std::marker::Model;
use wy_kernel::form::Const;
use wy_kernel::limit::UNIT_LIMIT;
use wy_kernel::types::Ty;

/// What is in scope in a body, and the texts that forms given in it hold.
#[derive(Drop)]
pub struct Scope {
    alloc: Global,
    class: u32,
    has_this: bool,
    variables: Variables,
    blocks: Vec<usize>,
    next: u32,
    texts: Vec<FixedText>,
    /// The units of the texts of all its constant variables so far.
    units: usize,
    ghost few_texts: { length texts.items < 2 ^ 32 },
}

impl Model for Scope {
    ghost use Rattle.std.specs.Prelude.{map};
    ghost use Rattle.wy_constant.specs.Scope.{Scope as Plain};
    ghost use Rattle.wy_constant.specs.Scopes.{text_of, variables_of};

    ghost Value = { Plain };

    ghost view = { λ s. record {
      class = s.class;
      has_this = s.has_this;
      variables = variables_of s.variables;
      blocks = s.blocks.items;
      next = s.next;
      texts = map text_of s.texts.items;
    } };
}

impl Scope {
    ghost use Rattle.std.specs.Prelude.{slice_get, MatchOption};
    ghost use Rattle.wy_constant.specs.Scope.{body_of, denoted, opened, closed, declared, with_last_value, with_texts};
    ghost use Rattle.wy_constant.specs.Scopes.{variable_of};

    /// A body of a class, with `this` as local 0 or without it.
    pub fn new(alloc: Global, class: u32, has_this: bool) -> Result<Scope, AllocError>
        ensures { result ≡ Ok (body_of class has_this) }
    {
        Ok(Scope {
            alloc,
            class,
            has_this,
            variables: Variables::new(alloc),
            blocks: Vec::new(alloc),
            next: if has_this { 1 } else { 0 },
            texts: Vec::new(alloc),
            units: 0,
        })
    }

    /// Opens a block. An `Err` changes nothing.
    pub fn open(&mut self) -> Result<(), AllocError>
        ensures ok { OnOk result (self.new ≡ opened self.old) }
        ensures err { OnErr result (self.new ≡ self.old) }
    {
        let outside = self.variables.len();
        match self.blocks.push(outside) {
            Ok(()) => Ok(()),
            Err(_) => Err(AllocError),
        }
    }

    /// Closes the innermost block. Without one it changes nothing.
    pub fn close(&mut self)
        ensures { self.new ≡ closed self.old }
    {
        if let Some(outside) = self.blocks.pop() {
            self.variables.truncate(outside);
        }
    }

    /// The class of the body.
    pub fn class(&self) -> u32
        ensures { result ≡ self.now.class }
    {
        self.class
    }

    /// Whether the body has `this`.
    pub fn has_this(&self) -> bool
        ensures { result ≡ self.now.has_this }
    {
        self.has_this
    }

    /// The variable that a name denotes.
    pub fn variable(&self, name: &str) -> Option<&Variable>
        ensures { option_map (λ v. variable_of v.now) result ≡ denoted self.now name.now }
    {
        self.variables.named(name)
    }

    /// Declares a variable and gives its number. An `Err` changes nothing.
    pub fn declare(
        &mut self,
        name: &str,
        ty: &Ty,
        is_fixed: bool,
        constant: Option<Const>,
        token: u32,
    ) -> Result<u32, TypeError>
        requires { self.old.next ≤ token_limit }
        ensures declared { Gives (λ n. self.new) result (declared self.old name.now ty.now is_fixed
            (option_map constant_value constant) token) }
        ensures number { IfOk result (λ n. n ≡ self.old.next) }
        ensures err { OnErr result (self.new ≡ self.old) }
    {
        if self.variable(name).is_some() {
            return Err(TypeError::Broken {
                rule: Rule::Duplicate,
                token,
            });
        }
        let number = self.next;
        let units = units_in(&constant);
        let variable = match String::from_str(self.alloc, name) {
            Ok(name) => Variable {
                name,
                number,
                ty: *ty,
                is_fixed,
                constant,
            },
            Err(_) => return Err(TypeError::NoMemory),
        };
        match self.variables.push(self.alloc, variable) {
            Ok(()) => {
                self.next += 1;
                self.units = self.units.saturating_add(units);
                Ok(number)
            }
            Err(_) => Err(TypeError::NoMemory),
        }
    }

    /// Says which value the variable has that was declared last. Without one it changes nothing.
    #[tactic(auto, unfolding(crate::specs::Scope::with_last_value))]
    pub fn give_value(&mut self, constant: Option<Const>)
        ensures { self.new ≡ with_last_value (option_map constant_value constant) self.old }
    {
        self.units = self.units.saturating_add(units_in(&constant));
        self.variables.give_last(constant);
    }

    /// The units that texts of further constant variables may have.
    pub fn units_left(&self) -> usize
        ensures { result ≤ unit_limit }
    {
        (UNIT_LIMIT as usize).saturating_sub(self.units)
    }

    /// How many locals the body has so far, `this` among them.
    pub fn locals(&self) -> u32
        ensures { result ≡ self.now.next }
    {
        self.next
    }

    /// How many texts forms hold.
    pub fn texts(&self) -> u32
        ensures { result ≡ length self.now.texts }
    {
        self.texts.len() as u32
    }

    /// A text that forms hold, by its place.
    pub fn text(&self, n: u32) -> &[u16]
        requires { n < length self.now.texts }
        ensures { MatchOption (slice_get self.now.texts n) ⊥ (λ t. result.now ≡ t.units) }
    {
        &self.texts[n as usize].units
    }

    /// The texts that forms hold, once more.
    pub fn copied_texts(&self) -> Result<Vec<FixedText>, AllocError>
        ensures texts { IfOk result (λ v. map text_of v.items ≡ self.now.texts) }
        ensures few { IfOk result (λ v. length v.items < 2 ^ 32) }
    {
        copied(self.alloc, self.texts.as_slice())
    }

    /// Puts these in the place of the texts that forms hold.
    pub fn keep_texts(&mut self, texts: Vec<FixedText>)
        requires { length texts.items < 2 ^ 32 }
        ensures { self.new ≡ with_texts self.old (map text_of texts.items) }
    {
        self.texts = texts;
    }
}

fn copied_text(text: &FixedText) -> Result<FixedText, AllocError>
    ensures { IfOk result (λ t. text_of t ≡ text_of text.now) }
{
    Ok(FixedText {
        units: text.units.clone()?,
        token: text.token,
    })
}

fn copied(alloc: Global, list: &[FixedText]) -> Result<Vec<FixedText>, AllocError>
    ensures texts { IfOk result (λ v. map text_of v.items ≡ map text_of list.now) }
    ensures len { IfOk result (λ v. length v.items ≡ length list.now) }
{
    let mut all = Vec::new(alloc);
    for text in list {
        let copy = copied_text(text)?;
        all.push(copy)?;
    }
    Ok(all)
}
