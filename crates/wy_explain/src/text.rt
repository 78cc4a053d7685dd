//! The text of a refusal.
ghost use Rattle.std.specs.Prelude.{◌≡◌, ◌++◌, ◌<◌, ◌^◌, IfOk, OnOk, drop, length, map, option_map, take};
ghost use Rattle.wy_explain.specs.Explained.{explanation, feature_text, judgement, line_of, place_text, program_line, shown_rest, told};
ghost use Rattle.wy_explain.specs.Views.{feature_of, window_of};
ghost use Rattle.wy_explain.specs.Windows.{front_of, window_at};
ghost use Rattle.wy_tree.specs.Tokens.{spanned_token};

use crate::feature::{feature_at_byte, feature_at_token, says};
use crate::line::{caret_line, first_line, last_line, line_number};
use crate::table::Feature;
use crate::window::{Window, around};
use std::alloc::{AllocError, Global};
use wy_tree::token::Spanned;

/// Where a text is refused. A token as great as their number stands behind them.
#[derive(Clone, Copy, Debug, PartialEq, Eq)]
pub enum Place {
    Byte(u32),
    Token(u32),
}

/// The rule that a text breaks, and where.
#[derive(Clone, Copy)]
pub struct Refusal<'a> {
    pub rule: &'a str,
    pub place: Place,
}

/// What is written of a source that is refused. Where a token is named, these are its tokens.
pub fn explain(
    alloc: Global,
    name: &str,
    source: &[u8],
    tokens: &[Spanned],
    refusal: Refusal<'_>,
) -> Result<Vec<u8>, AllocError>
    requires { length source.now < 2 ^ 32 }
    ensures { IfOk result (λ text. text.items ≡ explanation name.now source.now
        (map spanned_token tokens.now) refusal.entry.rule.now refusal.entry.place) }
{
    let rule = refusal.rule;
    match refusal.place {
        Place::Byte(byte) => {
            let (before, rest) = split(source, byte);
            told(
                alloc,
                name,
                rule,
                before,
                rest,
                feature_at_byte(rule, before, rest),
            )
        }
        Place::Token(token) => {
            let window = window_at(alloc, source, tokens, token)?;
            let (before, rest) = split(source, window.place);
            told(
                alloc,
                name,
                rule,
                before,
                rest,
                feature_at_token(rule, &window),
            )
        }
    }
}

/// What is written of a program.
#[tactic(auto, unfolding(crate::specs::Explained::program_line))]
pub fn program_line(alloc: Global, name: &str) -> Result<Vec<u8>, AllocError>
    ensures { IfOk result (λ text. text.items ≡ program_line name.now) }
{
    let line = format!(in alloc; "{name}: a program that whyline runs\n")?;
    Ok(line.into_bytes())
}

/// What stands at a token.
fn window_at<'a>(
    alloc: Global,
    source: &'a [u8],
    tokens: &[Spanned],
    token: u32,
) -> Result<Window<'a>, AllocError>
    ensures { IfOk result (λ w. window_of w ≡ window_at source.entry.now (front_of source.entry.now
        (take token (map spanned_token tokens.now))) (drop token (map spanned_token tokens.now))) }
{
    let (front, back) = split(tokens, token);
    around(alloc, source, front, back)
}

/// The items before a place, and those from there on.
fn split<T>(items: &[T], place: u32) -> (&[T], &[T])
    ensures { (result.0.now ≡ take place items.entry.now) × (result.1.now ≡ drop place items.entry.now) }
{
    items.split_at((place as usize).min(items.len()))
}

#[tactic(auto, unfolding(crate::specs::Explained::told))]
fn told(
    alloc: Global,
    name: &str,
    rule: &str,
    before: &[u8],
    rest: &[u8],
    feature: Option<Feature>,
) -> Result<Vec<u8>, AllocError>
    requires { length before.now < 2 ^ 32 }
    ensures { IfOk result (λ text. text.items
        ≡ told name.now rule.now before.now rest.now (option_map feature_of feature)) }
{
    let mut out = place_text(alloc, name, rule, before, rest)?;
    put_line(&mut out, says(rule).as_bytes())?;
    put_feature(&mut out, feature)?;
    Ok(out)
}

#[tactic(auto, unfolding(crate::specs::Explained::place_text))]
fn place_text(
    alloc: Global,
    name: &str,
    rule: &str,
    before: &[u8],
    rest: &[u8],
) -> Result<Vec<u8>, AllocError>
    requires { length before.now < 2 ^ 32 }
    ensures { IfOk result (λ text.
        text.items ≡ place_text name.now rule.now before.now rest.now) }
{
    let number = line_number(before);
    let caret = caret_line(alloc, before)?;
    let column = caret.len();
    let head = format!(in alloc; "{name}:{number}:{column}: {rule}\n")?;
    let mut out = head.into_bytes();
    let line = last_line(alloc, before)?;
    out.extend_from_slice(line.as_slice())?;
    put_line(&mut out, shown_rest(rule, rest))?;
    put_line(&mut out, caret.as_slice())?;
    Ok(out)
}

/// The rest of the line; of one that is no UTF-8 nothing is shown.
#[tactic(auto, unfolding(crate::specs::Explained::shown_rest))]
fn shown_rest<'a>(rule: &str, rest: &'a [u8]) -> &'a [u8]
    ensures { result.now ≡ shown_rest rule.now rest.entry.now }
{
    if rule == "NotUtf8" {
        b"?"
    } else {
        first_line(rest)
    }
}

#[tactic(auto, unfolding(crate::specs::Explained::feature_text))]
fn put_feature(out: &mut Vec<u8>, feature: Option<Feature>) -> Result<(), AllocError>
    ensures { OnOk result (out.new.items
        ≡ out.old.items ++ feature_text (option_map feature_of feature)) }
{
    let Some(feature) = feature else {
        return Ok(());
    };
    put(out, feature.name)?;
    put_line(out, judgement(feature.is_java).as_bytes())?;
    put(out, "Instead: ")?;
    put_line(out, feature.instead.as_bytes())
}

fn judgement(is_java: bool) -> &'static str
    ensures { result.now ≡ judgement is_java }
{
    if is_java {
        " is not in the subset of Java that whyline runs."
    } else {
        " is no Java."
    }
}

fn put(out: &mut Vec<u8>, text: &str) -> Result<(), AllocError>
    ensures { OnOk result (out.new.items ≡ out.old.items ++ text.now) }
{
    out.extend_from_slice(text.as_bytes())
}

fn put_line(out: &mut Vec<u8>, line: &[u8]) -> Result<(), AllocError>
    ensures { OnOk result (out.new.items ≡ out.old.items ++ line_of line.now) }
{
    out.extend_from_slice(line)?;
    out.push(b'\n')?;
    Ok(())
}
