//! The classes of which a receiver can be, and the methods that they run for a call (JLS 4.10, 15.12.4.4).

ghost use Rattle.std.specs.Prelude.{◌≡◌, ◌<◌, ◌↔◌, ◌++◌, ℕ, true, IfOk, OnOk, Some, length, map, nat_eq};
ghost use Rattle.std.specs.List.{Contains, flat_map};
ghost use Rattle.wy_kernel.specs.Parts.{program_of};
ghost use Rattle.wy_kernel.specs.Table.{NamesAmong};
ghost use Rattle.wy_kernel.specs.View.{class_of};
ghost use Rattle.wy_kernel.specs.Program as kernel;
ghost use Rattle.wy_kernel.specs.Program.{dispatch};
ghost use Rattle.wy_kernel.specs.Subtyping.{named_above};
ghost use Rattle.wy_static.specs.Links.{IsAtOrBelow, IsTarget, MayReceive};
ghost use Rattle.wy_static.specs.Receivers.{AreReceivers, AreTargets, AreTargetsOf, WasFound};
ghost use Rattle.wy_static.specs.Rows.{kept_under, one_if};
ghost use Rattle.wy_static.specs.Seen.{seen_by};

use crate::rows::{keep, numbers_under};
use std::alloc::{AllocError, Global};
use std::collections::BTreeMap;
use wy_calls::Dispatcher;
use wy_kernel::builtin::{OBJECT, STRING};
use wy_kernel::closure::supertypes;
use wy_kernel::program::Program;
use wy_kernel::types::{Class, NONE};

fn all_below(numbers: &[u32], many: usize) -> bool
    ensures { result ≡ true → (d : ℕ) → Contains numbers.now d → d < many }
{
    for n in numbers {
        if *n as usize >= many {
            return false;
        }
    }
    true
}

#[tactic(auto, unfolding(wy_kernel::specs::View::present))]
fn is_among(class: &Class, many: usize) -> bool
    ensures { result ≡ true → (d : ℕ) → Contains (named_above (Some (class_of class.now))) d
        → d < many }
{
    if class.above != NONE && class.above as usize >= many {
        return false;
    }
    all_below(&class.interfaces, many)
}

fn names_among(classes: &[Class]) -> bool
    ensures { result ≡ true → NamesAmong (map class_of classes.now) }
{
    for class in classes {
        if !is_among(class, classes.len()) {
            return false;
        }
    }
    true
}

/// Whether an object can be of a class that isn't String.
fn may_receive(program: &Program, class: u32) -> bool
    requires { class < length program.now.classes.items }
    ensures { (result ≡ true) ↔ MayReceive (program_of program.now) class }
{
    !program.class(class).is_abstract && class != STRING
}

/// The classes of which objects can be, for each class or interface those at or below it.
#[derive(Drop)]
pub struct Receivers {
    all: Vec<u32>,
    below: BTreeMap<u32, Vec<u32>>,
}

impl Receivers {
    pub fn new(alloc: Global, program: &Program) -> Result<Receivers, AllocError>
        ensures { IfOk result (λ r. AreReceivers r (program_of program.now)) }
    {
        if program.classes.len() >= NONE as usize || !names_among(&program.classes) {
            return Err(AllocError);
        }
        let rows = supertypes(alloc, &program.classes)?;
        let mut all = Vec::new(alloc);
        let mut below = BTreeMap::new(alloc);
        for class in 0..program.classes.len() as u32 {
            if may_receive(program, class) {
                all.push(class)?;
                keep_each(alloc, &mut below, &rows[class as usize], class)?;
            }
        }
        Ok(Receivers { all, below })
    }

    /// Those at or below a class or an interface.
    pub fn of(&self, class: u32) -> &[u32]
        ensures { (p : kernel.Program) → AreReceivers self.now p → (c : ℕ)
            → Contains result.now c ↔ (MayReceive p c × IsAtOrBelow p c class) }
    {
        if class == OBJECT {
            &self.all
        } else {
            numbers_under(&self.below, class)
        }
    }
}

fn keep_each(
    alloc: Global,
    below: &mut BTreeMap<u32, Vec<u32>>,
    row: &[u32],
    class: u32,
) -> Result<(), AllocError>
    ensures { OnOk result ((q : ℕ) → kept_under below.new q
        ≡ kept_under below.old q ++ flat_map (λ d. one_if (nat_eq d q) class) row.now) }
{
    for above in row {
        keep(alloc, below, *above, class)?;
    }
    Ok(())
}

/// The methods that receivers run for a call, each once.
fn runs(
    alloc: Global,
    dispatcher: &Dispatcher,
    receivers: &[u32],
    method: u32,
) -> Result<Vec<u32>, AllocError>
    ensures { IfOk result (λ ns. (n : ℕ) → Contains ns.items n
        ↔ Contains (map (dispatch (seen_by dispatcher.now) method) receivers.now) n) }
{
    if method as usize >= dispatcher.program.methods.len() {
        return Err(AllocError);
    }
    let mut methods = Vec::new(alloc);
    for receiver in receivers {
        methods.push(dispatcher.dispatch(*receiver, method))?;
    }
    methods.sort_unstable();
    methods.dedup();
    Ok(methods)
}

/// The targets of calls, found once for each method and class.
#[derive(Drop)]
pub struct Targets {
    receivers: Receivers,
    found: BTreeMap<(u32, u32), Vec<u32>>,
}

impl Targets {
    pub fn new(alloc: Global, program: &Program) -> Result<Targets, AllocError>
        ensures { IfOk result (λ t. AreTargets t (program_of program.now)) }
    {
        Ok(Targets {
            receivers: Receivers::new(alloc, program)?,
            found: BTreeMap::new(alloc),
        })
    }

    /// Finds the targets of a call of a method on a receiver of a class, unless they were found.
    pub fn find(
        &mut self,
        alloc: Global,
        dispatcher: &Dispatcher,
        method: u32,
        class: u32,
    ) -> Result<(), AllocError>
        requires { AreTargets self.old (seen_by dispatcher.now) }
        ensures targets { OnOk result (AreTargets self.new (seen_by dispatcher.now)) }
        ensures found { OnOk result (WasFound self.new method class) }
    {
        if !self.found.contains_key(&(method, class)) {
            let methods = runs(alloc, dispatcher, self.receivers.of(class), method)?;
            self.found.insert((method, class), methods)?;
        }
        Ok(())
    }

    /// The targets of a call of a method on a receiver of a class, each once.
    pub fn of(&self, method: u32, class: u32) -> &[u32]
        requires { WasFound self.now method class }
        ensures { (p : kernel.Program) → AreTargets self.now p
            → AreTargetsOf p method class result.now }
    {
        self.found.get(&(method, class)).unwrap().as_slice()
    }
}
