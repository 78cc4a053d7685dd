//! What is written of a source that is no program.
ghost use Rattle.std.specs.Prelude.{◌≡◌, ◌≤◌, IfOk, length, map};
ghost use Rattle.wy_kernel.specs.Limits.{source_limit};
ghost use Rattle.wy_lens.specs.Refusals.{HasTokens, IsExplained, IsExplainedAt};
ghost use Rattle.wy_program.specs.Sources.{IsRefusedFor};
ghost use Rattle.wy_tree.specs.Tokens.{Tokens, spanned_token};

use std::alloc::{AllocError, Global};
use wy_constant::{SourceRefusal, fault_name, rule_name};
use wy_explain::{Place, Refusal, explain};
use wy_lexer::{LexError, lex};
use wy_tree::token::Spanned;

/// The text of a refusal of this source.
pub fn explained(
    alloc: Global,
    name: &str,
    source: &[u8],
    refusal: SourceRefusal,
) -> Result<Vec<u8>, AllocError>
    requires small { length source.now ≤ source_limit }
    requires refused { IsRefusedFor source.now refusal }
    ensures { IfOk result (λ text. IsExplained name.now source.now refusal text.items) }
{
    match refusal {
        SourceRefusal::NoTokens { fault, byte } => {
            let told = Refusal {
                rule: fault_name(fault),
                place: Place::Byte(byte),
            };
            explain(alloc, name, source, &[], told)
        }
        SourceRefusal::NoTree { token, .. } => {
            explained_at(alloc, name, source, "Syntax", token)
        }
        SourceRefusal::Broken { rule, token, .. } => {
            explained_at(alloc, name, source, rule_name(rule), token)
        }
    }
}

/// The text of a refusal at a token. The tokens are read again.
fn explained_at(
    alloc: Global,
    name: &str,
    source: &[u8],
    rule: &str,
    token: u32,
) -> Result<Vec<u8>, AllocError>
    requires small { length source.now ≤ source_limit }
    requires read { HasTokens source.now }
    ensures { IfOk result (λ text.
        IsExplainedAt name.now source.now rule.now token text.items) }
{
    let tokens = tokens_of(alloc, source)?;
    let told = Refusal {
        rule,
        place: Place::Token(token),
    };
    explain(alloc, name, source, tokens.as_slice(), told)
}

/// The tokens of a source that has some, so that want of memory alone keeps them from being read.
fn tokens_of(alloc: Global, source: &[u8]) -> Result<Vec<Spanned>, AllocError>
    requires small { length source.now ≤ source_limit }
    requires read { HasTokens source.now }
    ensures { IfOk result (λ tokens. Tokens source.now (map spanned_token tokens.items)) }
{
    match lex(alloc, source) {
        Ok(tokens) => Ok(tokens),
        Err(error) => match error {
            LexError::NoMemory => Err(AllocError),
            _ => unreachable!(),
        },
    }
}
