//! What is declared again: an item that is the same as one before it. Which items are the same, each kind of them says.

ghost use Rattle.std.specs.Prelude.{◌≡◌, ◌↔◌, ℕ, IfOk, Some, None, [], string_bytes};
ghost use Rattle.std.proofs.Common.{rules};
ghost use Rattle.wy_members.specs.Keys.{Key as PlainKey, key_of};
ghost use Rattle.wy_members.specs.Least.{IsAgain, IsLeast};
ghost use Rattle.wy_members.specs.Words.{key_of_word, same_by_word, word_of};

use crate::broken::key::Key;
use crate::broken::least::{lesser, token_where};
use std::alloc::{AllocError, Global};
use std::collections::HashSet;
use wy_kernel::types::{Class, Field, Method};
use wy_syntax::declaration::{Modifier, Parameter, Placed};

/// What may be declared again, at a token.
pub trait Repeats {
    ghost same: { Self → Self → Type 0 };

    ghost place: { Self → ℕ };

    ghost shared: { Self → PlainKey };

    /// What it shares with those that are the same.
    fn key(&self) -> Key<'_>
        ensures { key_of result ≡ shared self.now };

    fn token(&self) -> u32
        ensures { result ≡ place self.now };

    ghost same_by_key: { (a b : Self) → same a b ↔ (shared a ≡ shared b) };
}

/// The least token of an item that is the same as one before it, in time and memory in proportion to them.
pub fn least_again<T: Repeats>(alloc: Global, items: &[T]) -> Result<Option<u32>, AllocError>
    ensures { IfOk result (IsLeast (IsAgain T.same T.place items.now)) }
{
    let mut least = None;
    let mut seen = HashSet::new(alloc);
    for item in items {
        let is_new = seen.insert(item.key())?;
        least = lesser(least, token_where(!is_new, item.token()));
    }
    Ok(least)
}

/// A class has the name of an earlier one (JLS 7.6).
impl Repeats for Class {
    ghost same = { λ a b. string_bytes a.name ≡ string_bytes b.name };

    ghost place = { λ b. b.site };

    ghost shared = { λ a. record { class = None; name = string_bytes a.name; params = [] } };

    ghost same_by_key = { Prim.search rules };

    fn key(&self) -> Key<'_> {
        Key {
            class: None,
            name: self.name.as_str(),
            params: &[],
        }
    }

    fn token(&self) -> u32 {
        self.site
    }
}

/// A field has the name of an earlier one of its class (JLS 8.3).
impl Repeats for Field {
    ghost same = { λ a b. (a.class ≡ b.class) × (string_bytes a.name ≡ string_bytes b.name) };

    ghost place = { λ b. b.site };

    ghost shared = { λ a. record { class = Some a.class; name = string_bytes a.name; params = [] } };

    ghost same_by_key = { Prim.search rules };

    fn key(&self) -> Key<'_> {
        Key {
            class: Some(self.class),
            name: self.name.as_str(),
            params: &[],
        }
    }

    fn token(&self) -> u32 {
        self.site
    }
}

/// A method has the name and the parameter types of an earlier one of its class (JLS 8.4.2, 8.8.2).
impl Repeats for Method {
    ghost same = { λ a b. (a.class ≡ b.class) × (string_bytes a.name ≡ string_bytes b.name)
        × (a.params.items ≡ b.params.items) };

    ghost place = { λ b. b.site };

    ghost shared = { λ a. record {
      class = Some a.class;
      name = string_bytes a.name;
      params = a.params.items;
    } };

    ghost same_by_key = { Prim.search rules };

    fn key(&self) -> Key<'_> {
        Key {
            class: Some(self.class),
            name: self.name.as_str(),
            params: self.params.as_slice(),
        }
    }

    fn token(&self) -> u32 {
        self.site
    }
}

/// A parameter has the name of an earlier one (JLS 8.4.1, 8.8.1).
impl Repeats for Parameter {
    ghost same = { λ a b. string_bytes a.name.name ≡ string_bytes b.name.name };

    ghost place = { λ b. b.name.token };

    ghost shared = { λ a. record { class = None; name = string_bytes a.name.name; params = [] } };

    ghost same_by_key = { Prim.search rules };

    fn key(&self) -> Key<'_> {
        Key {
            class: None,
            name: self.name.name.as_str(),
            params: &[],
        }
    }

    fn token(&self) -> u32 {
        self.name.token
    }
}

/// A modifier stands twice (JLS 8.1.1, 8.3.1, 8.4.3, 8.8.3, 9.1.1, 9.7.5).
impl Repeats for Placed {
    ghost same = { λ a b. a.modifier ≡ b.modifier };

    ghost place = { λ b. b.token };

    ghost shared = { λ a. key_of_word a.modifier };

    ghost same_by_key = { λ a b. same_by_word a.modifier b.modifier };

    fn key(&self) -> Key<'_> {
        Key {
            class: None,
            name: word(self.modifier),
            params: &[],
        }
    }

    fn token(&self) -> u32 {
        self.token
    }
}

fn word(modifier: Modifier) -> &'static str
    ensures { result.now ≡ word_of modifier }
{
    match modifier {
        Modifier::Public => "public",
        Modifier::Private => "private",
        Modifier::Protected => "protected",
        Modifier::Static => "static",
        Modifier::Final => "final",
        Modifier::Abstract => "abstract",
        Modifier::Override => "@Override",
    }
}
