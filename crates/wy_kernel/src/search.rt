//! The statement of a number: a search through bodies, from the outside in. It takes no memory, and its recursion is
//! as deep as the statements stand in one another, which the front end limits with the depth of its trees (JLS 14).

ghost use Rattle.std.specs.Prelude.{◌≡◌, find, map, option_map};
ghost use Rattle.wy_kernel.specs.Statements.{has_number, statements, statements_of_bodies, statements_of_body};
ghost use Rattle.wy_kernel.specs.View.{body_of, statement};

use crate::form::{Body, Stmt};

// The first statement with this number, of a statement and those within it.
fn find_in(s: &Stmt, n: u32) -> Option<&Stmt>
    ensures { option_map (λ found.
        statement found.now) result ≡ find (has_number n) (statements (statement s.now)) }
{
    if s.number == n {
        return Some(s);
    }
    for inner in s.form.substatements() {
        if let Some(found) = find_in(inner, n) {
            return Some(found);
        }
    }
    None
}

fn find_in_body(body: &Option<Body>, n: u32) -> Option<&Stmt>
    ensures { option_map (λ found. statement found.now) result
        ≡ find (has_number n) (statements_of_body (option_map body_of body.now)) }
{
    match body {
        Some(body) => find_in(&body.block, n),
        None => None,
    }
}

/// The first statement with this number, of bodies in their order.
pub fn find_in_bodies(bodies: &[Option<Body>], n: u32) -> Option<&Stmt>
    ensures { option_map (λ found. statement found.now) result
        ≡ find (has_number n) (statements_of_bodies (map (option_map body_of) bodies.now)) }
{
    for body in bodies {
        if let Some(found) = find_in_body(body, n) {
            return Some(found);
        }
    }
    None
}
