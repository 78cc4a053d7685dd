//! From a tree and its tokens to a program.

ghost use Rattle.std.specs.Prelude.{◌≡◌, ◌<◌, ◌≤◌, ◌^◌, IfOk, length, map};
ghost use Rattle.wy_elab_stmt.specs.Elaborates.{ElaboratesTo};
ghost use Rattle.wy_syntax.specs.Declarations.{unit};
ghost use Rattle.wy_tree.specs.Ast.{tokens as leaves_of, view};
ghost use Rattle.wy_tree.specs.Seen.{seen};
ghost use Rattle.wy_tree.specs.Tokens.{token_limit};

use crate::assembly::elaborate_unit;
use law_judgement::a_table_is_judged;
use std::alloc::{AllocError, Global};
use wy_constant::TypeError;
use wy_declaration::unit;
use wy_kernel::program::Program;
use wy_members::class_table_of;
use wy_tree::token::Spanned;
use wy_tree::tree::Tree;

/// The program of a tree with these tokens, or the first rule that it breaks (JLS 7.3). Rules on declarations come first, at the
/// least token; then bodies are gone through in the order of the text, operands before their operator; that there is no main comes
/// last, at the number of tokens.
pub fn elaborate(alloc: Global, tree: &Tree, tokens: &[Spanned]) -> Result<Program, TypeError>
    requires few { length tokens.now ≤ token_limit }
    requires leaves { leaves_of (view tree.now) ≡ map (λ t. seen t.token) tokens.now }
    ensures program { ElaboratesTo (unit 0 (view tree.now)) (length tokens.now) result }
    ensures lines { IfOk result (λ p. p.lines.items ≡ map (λ t. t.line) tokens.now) }
    ensures texts { IfOk result (λ p. length p.fixed_texts.items < 2 ^ 32) }
{
    let lines = lines_of(alloc, tokens)?;
    let declarations = unit(alloc, tree, 0)?;
    let table = class_table_of(alloc, declarations.as_slice())?;
    a_table_is_judged(&table);
    elaborate_unit(table, declarations.as_slice(), lines, alloc)
}

// The line of each token.
fn lines_of(alloc: Global, tokens: &[Spanned]) -> Result<Vec<u32>, AllocError>
    ensures { IfOk result (λ all. all.items ≡ map (λ t. t.line) tokens.now) }
{
    let mut all = Vec::new(alloc);
    for token in tokens {
        all.push(token.line)?;
    }
    Ok(all)
}
