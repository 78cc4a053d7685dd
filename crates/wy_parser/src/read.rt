//! Reading trees off the front of tokens, by the rules of the grammar.
//! A part that begins a tree may be as deep as the tree, every other one is less deep by one.
//! `seen` is how many tokens stand at and behind the last one that was looked at.

ghost use Rattle.std.specs.Prelude.{◌≡◌, ◌<◌, ◌≤◌, ◌+◌, ◌*◌, max, length, reverse, IfOk, IfErr, Some, None, suc};
ghost use Rattle.wy_tree.specs.Ast.{view, views, one};
ghost use Rattle.wy_parser.specs.Symbols.{symbols_seen};
ghost use Rattle.wy_parser.specs.Reading.{run, reader, parts as read_parts, steps, closed as read_closed, closed_by as read_closed_by, base as read_base, grow as read_grow, around as read_around, onto, growing};
ghost use Rattle.wy_parser.specs.Looks.{looked, looked_parts, looked_base, looked_grow, looked_growing};
ghost use Rattle.wy_parser.specs.Prediction.{first_kind};
ghost use Rattle.wy_parser.specs.declared.stop.Stop.TheVariants.{Memory};
ghost use Rattle.wy_parser.specs.Parsed.{Gives, GivesGrown, Looks, Deepens, Shortens, read_of, parts_of};
ghost use Rattle.wy_tree.specs.Tokens.{token_limit};

use crate::condition::{fine, joins, refuses_element, refuses_sign};
use crate::look::{first_kind, take};
use crate::part::{PartList, Sub, no_parts, node_around, node_of, push, tip};
use crate::reach::{look, look_ahead};
use crate::row::predict;
use crate::rule::{continue_with, form_of, put_rule};
use crate::stop::{Growth, Stop};
use crate::symbol::Symbol;
use std::alloc::Global;
use wy_tree::grammar::{Item, Sort};

/// A tree of this sort, and the tokens behind it.
#[cycle(tree)]
#[tactic(auto, using(crate::proofs::Runs::reader_step, crate::proofs::Runs::reader_shallow, crate::proofs::Runs::reader_rankless, crate::proofs::Runs::looked_stepped, crate::proofs::Runs::looked_shallow, crate::proofs::Runs::looked_rankless))]
pub fn tree<'a>(
    alloc: Global,
    sort: Sort,
    symbols: &'a [Symbol],
    depth: u32,
    rank: u32,
    seen: &mut usize,
) -> Result<(Sub, &'a [Symbol]), Stop>
    requires depth_bound { depth ≤ 300 }
    requires rank_bound { rank ≤ 24 }
    requires tokens_bound { length symbols.now ≤ token_limit }
    ensures read { Gives (λ x.
        read_of x.0 x.1.now) result (reader depth rank sort (symbols_seen symbols.now)) }
    ensures looks { Looks result seen.new
        (looked depth rank sort (symbols_seen symbols.now) seen.old) }
    ensures short { IfOk result (λ x. x.0.depth ≤ depth) }
    ensures fewer { IfOk result (λ x. length x.1.now ≤ length symbols.now) }
{
    if depth == 0 || rank == 0 {
        return Err(Stop::NoTree);
    }
    let (first, rest) = base(alloc, sort, symbols, depth - 1, rank - 1, seen)?;
    grown(alloc, sort, first, rest, depth - 1, seen)
}

// What the rule of a sort says, without what may stand around it.
#[cycle(tree)]
#[tactic(auto, unfolding(crate::specs::Reading::base, crate::specs::Looks::looked_base))]
fn base<'a>(
    alloc: Global,
    sort: Sort,
    symbols: &'a [Symbol],
    below: u32,
    rank: u32,
    seen: &mut usize,
) -> Result<(Sub, &'a [Symbol]), Stop>
    requires below_bound { below < 300 }
    requires rank_bound { rank < 24 }
    requires tokens_bound { length symbols.now ≤ token_limit }
    ensures read { Gives (λ x. read_of x.0 x.1.now) result
        (read_base (reader (below + 1) rank) (run below) below sort (symbols_seen symbols.now)) }
    ensures looks { Looks result seen.new (looked_base (reader (below + 1) rank) (run below)
        (looked (below + 1) rank) (looked below 24) sort (symbols_seen symbols.now) seen.old) }
    ensures short { IfOk result (λ x. x.0.depth ≤ below + 1) }
    ensures fewer { IfOk result (λ x. length x.1.now ≤ length symbols.now) }
{
    if refuses_sign(sort, first_kind(symbols)) {
        look(seen, symbols);
        return Err(Stop::NoTree);
    }
    let mut pending = Vec::new(alloc);
    put_rule(&mut pending, sort)?;
    let (found, rest) = parts(alloc, pending, symbols, below + 1, rank, below, seen)?;
    Ok((closed(sort, found, rest, below)?, rest))
}

// The tree that the parts of a rule make.
#[tactic(auto, unfolding(crate::specs::Reading::closed))]
fn closed(sort: Sort, found: PartList, rest: &[Symbol], below: u32) -> Result<Sub, Stop>
    requires below_bound { below < 300 }
    requires short { found.depth ≤ below + 1 }
    ensures read { Gives (λ x. (view x.tree, symbols_seen rest.now)) result
        (read_closed below sort (views found.items.items) (symbols_seen rest.now)) }
    ensures short { IfOk result (λ x. x.depth ≤ below + 1) }
{
    if !fine(sort, &found.items) {
        return Err(Stop::NoTree);
    }
    closed_by(sort, found, rest, below)
}

fn closed_by(sort: Sort, found: PartList, rest: &[Symbol], below: u32) -> Result<Sub, Stop>
    requires below_bound { below < 300 }
    requires short { found.depth ≤ below + 1 }
    ensures read { Gives (λ x. (view x.tree, symbols_seen rest.now)) result
        (read_closed_by below sort (views found.items.items) (symbols_seen rest.now)) }
    ensures short { IfOk result (λ x. x.depth ≤ below + 1) }
{
    if found.items.len() == 1 {
        return only(found);
    }
    if found.depth > below {
        return Err(Stop::NoTree);
    }
    Ok(node_of(form_of(sort), found))
}

// The only part.
fn only(found: PartList) -> Result<Sub, Stop>
    requires { length found.items.items ≡ 1 }
    ensures tree { IfOk result (λ x. views found.items.items ≡ one (view x.tree)) }
    ensures depth { IfOk result (λ x. x.depth ≡ found.depth) }
    ensures there { IfErr result (λ e. e ≡ Memory) }
{
    let PartList { mut items, depth } = found;
    match items.pop() {
        Some(tree) => Ok(Sub { tree, depth }),
        None => Err(Stop::NoTree),
    }
}

// Parts for what is pending, and the tokens behind them. The first tree may have this depth
// and rank, the others the depth below.
#[cycle(tree)]
fn parts<'a>(
    alloc: Global,
    items: Vec<Item>,
    symbols: &'a [Symbol],
    first_depth: u32,
    first_rank: u32,
    below: u32,
    seen: &mut usize,
) -> Result<(PartList, &'a [Symbol]), Stop>
    requires depth_bound { first_depth ≤ 300 }
    requires below_bound { below < 300 }
    requires rank_bound { first_rank ≤ 24 }
    requires falls { 128 * below + 96 ≤ 128 * first_depth + 4 * first_rank }
    requires tokens_bound { length symbols.now ≤ token_limit }
    ensures read { Gives (λ x.
        parts_of x.0 x.1.now) result (read_parts (reader first_depth first_rank) (run below)
        (steps (symbols_seen symbols.now)) (reverse items.items) (symbols_seen symbols.now)) }
    ensures looks { Looks result seen.new (looked_parts (reader first_depth first_rank) (run below)
        (looked first_depth first_rank) (looked below 24) (steps (symbols_seen symbols.now))
        (reverse items.items) (symbols_seen symbols.now) seen.old) }
    ensures short { IfOk result (λ x. x.0.depth ≤ max first_depth (below + 1)) }
    ensures fewer { IfOk result (λ x. length x.1.now ≤ length symbols.now) }
{
    let mut pending = items;
    let mut found = no_parts(alloc);
    let mut rest = symbols;
    let mut depth = first_depth;
    let mut rank = first_rank;
    let mut left = 4 * symbols.len() + 8;
    while left > 0 {
        left -= 1;
        let Some(item) = pending.pop() else {
            return Ok((found, rest));
        };
        match item {
            Item::One(class) => {
                look(seen, rest);
                let Some((symbol, after)) = take(rest, class) else {
                    return Err(Stop::NoTree);
                };
                push(&mut found, tip(&symbol.token)?)?;
                rest = after;
                depth = below;
                rank = 24;
            }
            Item::Part(sort) => {
                let (part, after) = tree(alloc, sort, rest, depth, rank, seen)?;
                push(&mut found, part)?;
                rest = after;
                depth = below;
                rank = 24;
            }
            Item::Parts(row) => {
                look_ahead(seen, row, rest);
                predict(&mut pending, row, rest)?;
            }
        }
    }
    *seen = 0;
    Err(Stop::NoTree)
}

// A tree with what stands around it.
#[cycle(tree)]
fn grown<'a>(
    alloc: Global,
    sort: Sort,
    first: Sub,
    symbols: &'a [Symbol],
    below: u32,
    seen: &mut usize,
) -> Result<(Sub, &'a [Symbol]), Stop>
    requires short { first.depth ≤ below + 1 }
    requires bound { below < 300 }
    requires tokens_bound { length symbols.now ≤ token_limit }
    ensures read { Gives (λ x. read_of x.0 x.1.now) result (growing (read_grow
        (run below) below sort) (suc (suc below)) (view first.tree) (symbols_seen symbols.now)) }
    ensures looks { Looks result seen.new (looked_growing (read_grow (run below) below sort)
        (looked_grow (run below) (looked below 24) sort) (suc (suc below)) (view first.tree)
        (symbols_seen symbols.now) seen.old) }
    ensures short { IfOk result (λ x. x.0.depth ≤ below + 1) }
    ensures fewer { IfOk result (λ x. length x.1.now ≤ length symbols.now) }
{
    let mut left = first;
    let mut rest = symbols;
    loop {
        match grow(alloc, sort, left, rest, below, seen)? {
            Growth::Stayed(tree) => return Ok((tree, rest)),
            Growth::Grew(tree, after) => {
                left = tree;
                rest = after;
            }
        }
    }
}

#[cycle(tree)]
#[tactic(auto, unfolding(crate::specs::Reading::grow, crate::specs::Looks::looked_grow))]
fn grow<'a>(
    alloc: Global,
    sort: Sort,
    left: Sub,
    symbols: &'a [Symbol],
    below: u32,
    seen: &mut usize,
) -> Result<Growth<'a>, Stop>
    requires short { left.depth ≤ below + 1 }
    requires bound { below < 300 }
    requires tokens_bound { length symbols.now ≤ token_limit }
    ensures grown { GivesGrown result (view left.tree)
        (read_grow (run below) below sort (view left.tree) (symbols_seen symbols.now)) }
    ensures looks { Looks result seen.new (looked_grow (run below) (looked below 24) sort
        (view left.tree) (symbols_seen symbols.now) seen.old) }
    ensures deeper { IfOk result (λ g. Deepens g left.depth below) }
    ensures fewer { IfOk result (λ g. Shortens g (length symbols.now)) }
{
    let first = first_kind(symbols);
    look(seen, symbols);
    let mut pending = Vec::new(alloc);
    if !continue_with(&mut pending, sort, first)? {
        return Ok(Growth::Stayed(left));
    }
    if refuses_element(&left.tree, first) {
        return Err(Stop::NoTree);
    }
    let (found, rest) = parts(alloc, pending, symbols, below, 24, below, seen)?;
    around(sort, left, found, rest, below)
}

// The tree of a tree and of parts behind it.
#[tactic(auto, unfolding(crate::specs::Reading::around))]
fn around<'a>(
    sort: Sort,
    left: Sub,
    found: PartList,
    rest: &'a [Symbol],
    below: u32,
) -> Result<Growth<'a>, Stop>
    requires left_short { left.depth ≤ below + 1 }
    requires parts_short { found.depth ≤ below + 1 }
    requires bound { below < 300 }
    ensures grown { GivesGrown result (view left.tree) (onto (read_around below sort
        (view left.tree) (views found.items.items) (symbols_seen rest.now))) }
    ensures deeper { IfOk result (λ g. Deepens g left.depth below) }
    ensures fewer { IfOk result (λ g. Shortens g (length rest.now)) }
{
    if !joins(&left.tree, &found.items) || left.depth.max(found.depth) > below {
        return Err(Stop::NoTree);
    }
    Ok(Growth::Grew(node_around(form_of(sort), left, found)?, rest))
}
