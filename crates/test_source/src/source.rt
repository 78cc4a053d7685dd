//! From a text to its program, through the crates that do it.

use std::alloc::{AllocError, Global};
use wy_elab_stmt::elaborate;
use wy_kernel::program::Program;
use wy_lexer::lex;
use wy_parser::parse::parse;

/// The program of a text: None where it has no tokens or no tree, or breaks a rule, and where memory ran out.
pub fn read(alloc: Global, text: &str) -> Option<Program> {
    if text.len() > 1_048_576 {
        return None;
    }
    let Ok(tokens) = lex(alloc, text.as_bytes()) else {
        return None;
    };
    if tokens.len() > 1_048_576 {
        return None;
    }
    let Ok(tree) = parse(alloc, tokens.as_slice()) else {
        return None;
    };
    match elaborate(alloc, &tree, tokens.as_slice()) {
        Ok(program) => Some(program),
        Err(_) => None,
    }
}

/// The texts one behind another.
pub fn joined(alloc: Global, parts: &[&str]) -> Result<String, AllocError> {
    let mut all = String::new(alloc);
    for part in parts {
        all.push_str(part)?;
    }
    Ok(all)
}
