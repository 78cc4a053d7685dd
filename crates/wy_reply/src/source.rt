//! The line of a source that is no program.
ghost use Rattle.std.specs.Prelude.{◌≡◌, ◌++◌, IfOk};
ghost use Rattle.wy_reply.specs.Lines.{at_byte, at_token};
ghost use Rattle.wy_reply.specs.Sources.{source_refusal_text};

use std::alloc::{AllocError, Global};
use wy_constant::{SourceRefusal, fault_name, rule_name};

/// The line, behind what says whose source it is.
pub fn source_refusal_line(
    alloc: Global,
    of: &str,
    refusal: SourceRefusal,
) -> Result<Vec<u8>, AllocError>
    ensures { IfOk result (λ line. line.items ≡ of.now ++ source_refusal_text refusal) }
{
    match refusal {
        SourceRefusal::NoTokens { fault, byte } => at_byte(alloc, of, fault_name(fault), byte),
        SourceRefusal::NoTree { line, token } => at_token(alloc, of, "Syntax", line, token),
        SourceRefusal::Broken { rule, line, token } => {
            at_token(alloc, of, rule_name(rule), line, token)
        }
    }
}

fn at_byte(alloc: Global, of: &str, rule: &str, byte: u32) -> Result<Vec<u8>, AllocError>
    ensures { IfOk result (λ line. line.items ≡ of.now ++ at_byte rule.now byte) }
{
    let line = format!(in alloc; "{of}program: {rule} at byte {byte}\n")?;
    Ok(line.into_bytes())
}

fn at_token(
    alloc: Global,
    of: &str,
    rule: &str,
    line: u32,
    token: u32,
) -> Result<Vec<u8>, AllocError>
    ensures { IfOk result (λ text. text.items ≡ of.now ++ at_token rule.now line token) }
{
    let line = format!(in alloc; "{of}program: {rule} at line {line} token {token}\n")?;
    Ok(line.into_bytes())
}
