//! What stands around a statement in its body, and where jumps from it go (JLS 14.7, 14.15 to 14.18).

ghost use Rattle.std.specs.Prelude.{◌≡◌, IfOk, map, find, option_map};
ghost use Rattle.wy_elab_body.specs.Jumps.{alone, break_target, continue_target, in_loop, in_try, inside, is_labelled, label_named, under_label};
ghost use Rattle.wy_elab_body.specs.Views.{around_of, label_of, outcome_of};
ghost use Rattle.wy_syntax.specs.View.{named_of};

use std::alloc::{AllocError, Global};
use wy_kernel::types::Ty;
use wy_syntax::name::Named;

/// What a body may give back: nothing, a value of a type, or it has no `return`.
#[derive(Clone, Copy, Debug, PartialEq, Eq)]
pub enum Outcome {
    NoValue,
    ValueOf(Ty),
    NoReturn,
}

/// A loop, by its number and that of its body.
#[derive(Clone, Copy, Debug, PartialEq, Eq)]
pub struct Loop {
    pub number: u32,
    pub body: u32,
}

/// A label, by the number of its statement and, where that is a loop, that of the loop's body.
#[derive(Drop)]
pub struct Label {
    pub name: String,
    pub number: u32,
    pub loop_body: Option<u32>,
}

/// What stands around a statement.
#[derive(Drop)]
pub struct Around {
    alloc: Global,
    /// The number of the body's block.
    pub body: u32,
    pub outcome: Outcome,
    /// The numbers of the statements that contain it, the outermost first.
    pub enclosing: Vec<u32>,
    /// The number of the innermost `try` with a catch whose first block holds it, or of the body.
    pub catcher: u32,
    pub innermost_loop: Option<Loop>,
    pub labels: Vec<Label>,
}

impl Around {
    /// In a body whose block has this number.
    pub fn alone(alloc: Global, body: u32, outcome: Outcome) -> Around
        ensures { around_of result ≡ alone body (outcome_of outcome) }
    {
        Around {
            alloc,
            body,
            outcome,
            enclosing: Vec::new(alloc),
            catcher: body,
            innermost_loop: None,
            labels: Vec::new(alloc),
        }
    }

    /// The same in the statement with this number.
    pub fn inside(&self, number: u32) -> Result<Around, AllocError>
        ensures { IfOk result (λ a. around_of a ≡ inside (around_of self.now) number) }
    {
        let mut enclosing = self.enclosing.clone()?;
        enclosing.push(number)?;
        Ok(Around {
            alloc: self.alloc,
            body: self.body,
            outcome: self.outcome,
            enclosing,
            catcher: self.catcher,
            innermost_loop: self.innermost_loop,
            labels: copied(self.alloc, self.labels.as_slice())?,
        })
    }

    /// The same in the loop with this number, whose body has that one.
    pub fn in_loop(&self, number: u32, body: u32) -> Result<Around, AllocError>
        ensures { IfOk result (λ a. around_of a ≡ in_loop (around_of self.now) number body) }
    {
        let mut around = self.inside(number)?;
        around.innermost_loop = Some(Loop { number, body });
        Ok(around)
    }

    /// The same in the first block of the `try` with this number, which has a catch.
    pub fn in_try(&self, number: u32) -> Result<Around, AllocError>
        ensures { IfOk result (λ a. around_of a ≡ in_try (around_of self.now) number) }
    {
        let mut around = self.inside(number)?;
        around.catcher = number;
        Ok(around)
    }

    /// The same under a label, where the labelled statement has this number.
    pub fn under_label(
        &self,
        name: &str,
        number: u32,
        loop_body: Option<u32>,
    ) -> Result<Around, AllocError>
        ensures { IfOk result (λ a.
            around_of a ≡ under_label (around_of self.now) name.now number loop_body) }
    {
        let mut around = self.inside(number)?;
        around.labels.push(Label {
            name: name.to_string(self.alloc)?,
            number,
            loop_body,
        })?;
        Ok(around)
    }

    /// The label of this name.
    #[tactic(auto, unfolding(crate::specs::Jumps::label_named))]
    pub fn label(&self, name: &str) -> Option<&Label>
        ensures { option_map (λ l.
            label_of l.now) result ≡ label_named (around_of self.now) name.now }
    {
        find_label(self.labels.as_slice(), name)
    }

    /// The number of the statement whose end a `break` goes to.
    #[tactic(auto, unfolding(crate::specs::Jumps::break_target))]
    pub fn break_target(&self, label: &Option<Named>) -> Option<u32>
        ensures { result ≡ break_target (around_of self.now) (option_map named_of label.now) }
    {
        match label {
            Some(label) => match self.label(label.name.as_str()) {
                Some(found) => Some(found.number),
                None => None,
            },
            None => match self.innermost_loop {
                Some(innermost) => Some(innermost.number),
                None => None,
            },
        }
    }

    /// The number of the statement whose end a `continue` goes to.
    #[tactic(auto, unfolding(crate::specs::Jumps::continue_target))]
    pub fn continue_target(&self, label: &Option<Named>) -> Option<u32>
        ensures { result ≡ continue_target (around_of self.now) (option_map named_of label.now) }
    {
        match label {
            Some(label) => match self.label(label.name.as_str()) {
                Some(found) => found.loop_body,
                None => None,
            },
            None => match self.innermost_loop {
                Some(innermost) => Some(innermost.body),
                None => None,
            },
        }
    }
}

fn find_label<'a>(labels: &'a [Label], name: &str) -> Option<&'a Label>
    ensures { option_map (λ l.
        label_of l.now) result ≡ find (is_labelled name.now) (map label_of labels.now) }
{
    for label in labels {
        if label.name.as_str() == name {
            return Some(label);
        }
    }
    None
}

fn copied(alloc: Global, labels: &[Label]) -> Result<Vec<Label>, AllocError>
    ensures { IfOk result (λ all. map label_of all.items ≡ map label_of labels.now) }
{
    let mut all = Vec::new(alloc);
    for label in labels {
        all.push(Label {
            name: label.name.clone()?,
            number: label.number,
            loop_body: label.loop_body,
        })?;
    }
    Ok(all)
}
