//! The places of the statements in a body.

ghost use Rattle.std.specs.Prelude.{◌≡◌, [], ◌∷◌, ◌++◌, OnOk, map};
ghost use Rattle.wy_elab_body.specs.Places.{all_places, at, block_places, catch_places, declarator_places, effect_places, init_places, last_places, other_places, places};
ghost use Rattle.wy_elab_body.specs.Views.{last_seen};
ghost use Rattle.wy_syntax.specs.View.{block_of, clause_of, clauses_of, declarator_of, effect_of, for_init_of, other_body_of, statement_of, statements_of};

use crate::place::{Place, Role};
use std::alloc::AllocError;
use wy_syntax::statement::{Block, Catch, Declarator, Effect, ForInit, Statement};

pub fn put(all: &mut Vec<Place>, site: u32, role: Role) -> Result<(), AllocError>
    ensures { OnOk result (all.new.items ≡ all.old.items ++ at site role ∷ []) }
{
    all.push(Place { site, role })?;
    Ok(())
}

pub fn put_written(all: &mut Vec<Place>, site: u32) -> Result<(), AllocError>
    ensures { OnOk result (all.new.items ≡ all.old.items ++ at site Role.Written ∷ []) }
{
    put(all, site, Role::Written)
}

pub fn put_declarators(all: &mut Vec<Place>, declarators: &[Declarator]) -> Result<(), AllocError>
    ensures { OnOk result
        (all.new.items ≡ all.old.items ++ declarator_places (map declarator_of declarators.now)) }
{
    for declarator in declarators {
        put_written(all, declarator.name.token)?;
    }
    Ok(())
}

fn put_effects(all: &mut Vec<Place>, effects: &[Effect]) -> Result<(), AllocError>
    ensures { OnOk result
        (all.new.items ≡ all.old.items ++ effect_places (map effect_of effects.now)) }
{
    for effect in effects {
        put_written(all, effect.token)?;
    }
    Ok(())
}

fn put_init(all: &mut Vec<Place>, init: &ForInit) -> Result<(), AllocError>
    ensures { OnOk result (all.new.items ≡ all.old.items ++ init_places (for_init_of init.now)) }
{
    match init {
        ForInit::Nothing => Ok(()),
        ForInit::Declared {
            ty: _,
            is_final: _,
            declarators,
        } => put_declarators(all, declarators.as_slice()),
        ForInit::Effects { effects } => put_effects(all, effects.as_slice()),
    }
}

/// Puts the places of a statement and of those within it.
#[cycle(places)]
#[tactic(auto, using(crate::proofs::PlaceArms::of_block, crate::proofs::PlaceArms::of_empty, crate::proofs::PlaceArms::of_declare, crate::proofs::PlaceArms::of_effect, crate::proofs::PlaceArms::of_if, crate::proofs::PlaceArms::of_while, crate::proofs::PlaceArms::of_do, crate::proofs::PlaceArms::of_for, crate::proofs::PlaceArms::of_labelled, crate::proofs::PlaceArms::of_break, crate::proofs::PlaceArms::of_continue, crate::proofs::PlaceArms::of_return, crate::proofs::PlaceArms::of_throw, crate::proofs::PlaceArms::of_try, crate::proofs::PlaceArms::of_wrong, crate::proofs::PlaceArms::behind_nothing, std::proofs::Common::append_assoc))]
pub fn put_statement(all: &mut Vec<Place>, s: &Statement) -> Result<(), AllocError>
    ensures { OnOk result (all.new.items ≡ all.old.items ++ places (statement_of s.now)) }
{
    match s {
        Statement::Block { block } => put_block(all, block),
        Statement::Empty { token } => put_written(all, *token),
        Statement::Declare {
            is_final: _,
            ty: _,
            declarators,
        } => put_declarators(all, declarators.as_slice()),
        Statement::Effect { effect } => put_written(all, effect.token),
        Statement::If {
            test: _,
            main,
            other,
            token,
        } => {
            put_written(all, *token)?;
            put_statement(all, main)?;
            put_other(all, other)
        }
        Statement::While {
            test: _,
            body,
            token,
        } => {
            put_written(all, *token)?;
            put_statement(all, body)
        }
        Statement::Do {
            body,
            test: _,
            token,
        } => {
            put_written(all, *token)?;
            put_statement(all, body)
        }
        Statement::For {
            init,
            test: _,
            updates,
            body,
            token,
        } => {
            put_written(all, *token)?;
            put_init(all, init)?;
            put_effects(all, updates.as_slice())?;
            put_statement(all, body)
        }
        Statement::Labelled { name, body } => {
            put_written(all, name.token)?;
            put_statement(all, body)
        }
        Statement::Break { label: _, token } => put_written(all, *token),
        Statement::Continue { label: _, token } => put_written(all, *token),
        Statement::Return { value: _, token } => put_written(all, *token),
        Statement::Throw { value: _, token } => put_written(all, *token),
        Statement::Try {
            main,
            catches,
            last,
            token,
        } => {
            put_written(all, *token)?;
            put_block(all, main)?;
            put_catches(all, catches.as_slice())?;
            put_last(all, last)
        }
        Statement::Wrong => Ok(()),
    }
}

#[cycle(places)]
#[tactic(auto, using(crate::proofs::PlaceArms::of_no_other, crate::proofs::PlaceArms::behind_nothing, crate::proofs::PlaceArms::of_other))]
fn put_other(all: &mut Vec<Place>, s: &Option<Box<Statement>>) -> Result<(), AllocError>
    ensures { OnOk result (all.new.items ≡ all.old.items ++ other_places (other_body_of s.now)) }
{
    match s {
        Some(s) => put_statement(all, s),
        None => Ok(()),
    }
}

#[cycle(places)]
#[tactic(auto, using(crate::proofs::PlaceArms::of_no_last, crate::proofs::PlaceArms::behind_nothing, crate::proofs::PlaceArms::of_last))]
fn put_last(all: &mut Vec<Place>, block: &Option<Block>) -> Result<(), AllocError>
    ensures { OnOk result (all.new.items ≡ all.old.items ++ last_places (last_seen block.now)) }
{
    match block {
        Some(block) => put_block(all, block),
        None => Ok(()),
    }
}

/// Puts the places of a block and of the statements in it.
#[cycle(places)]
#[tactic(auto, using(crate::proofs::PlaceArms::of_braces, std::proofs::Common::append_assoc))]
pub fn put_block(all: &mut Vec<Place>, block: &Block) -> Result<(), AllocError>
    ensures { OnOk result (all.new.items ≡ all.old.items ++ block_places (block_of block.now)) }
{
    put_written(all, block.brace)?;
    put_statements(all, block.parts.as_slice())
}

/// Puts the places of statements one after another.
#[cycle(places)]
#[tactic(auto, using(crate::proofs::PlaceArms::all_taken, crate::proofs::PlaceArms::all_begun, crate::proofs::PlaceArms::all_done, std::proofs::Common::append_assoc, crate::proofs::PlaceArms::behind_nothing))]
pub fn put_statements(all: &mut Vec<Place>, parts: &[Statement]) -> Result<(), AllocError>
    ensures { OnOk result
        (all.new.items ≡ all.old.items ++ all_places (statements_of (map statement_of parts.now))) }
{
    for part in parts {
        put_statement(all, part)?;
    }
    Ok(())
}

#[cycle(places)]
#[tactic(auto, using(crate::proofs::PlaceArms::catches_taken, crate::proofs::PlaceArms::catches_begun, crate::proofs::PlaceArms::no_catches, std::proofs::Common::append_assoc, crate::proofs::PlaceArms::behind_nothing))]
fn put_catches(all: &mut Vec<Place>, catches: &[Catch]) -> Result<(), AllocError>
    ensures { OnOk result
        (all.new.items ≡ all.old.items ++ catch_places (clauses_of (map clause_of catches.now))) }
{
    for catch in catches {
        put_block(all, &catch.block)?;
    }
    Ok(())
}
