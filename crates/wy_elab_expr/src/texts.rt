//! The distinct texts that the forms of a body hold, by place (JLS 3.10.5).

ghost use Rattle.std.specs.Prelude.{◌≡◌, ◌<◌, ◌^◌, ℕ, Vec, length, map, OnOk, IfOk};
ghost use Rattle.std.specs.Global.{Global};
ghost use Rattle.std.specs.Str.{bytes_eq};
ghost use Rattle.wy_constant.specs.Scopes.{text_of};
ghost use Rattle.wy_elab_expr.specs.Meaning.{listed, text_number};
ghost use Rattle.wy_elab_expr.specs.TextPlaces.{KeepsTextPlaces, place_in};
ghost use Rattle.wy_table.specs.Names.{numbered_also};

use indexmap::IndexMap;
use std::alloc::{AllocError, Global};
use std::marker::Model;
use wy_constant::FixedText;

/// Distinct texts, in the order in which they were found, and the place of each by what it holds.
#[derive(Drop)]
pub struct Texts {
    list: Vec<FixedText>,
    places: IndexMap<Vec<u16>, u32>,
    ghost few_texts: { length list.items < 2 ^ 32 },
    ghost keeps_places: { KeepsTextPlaces (map text_of list.items) places },
}

impl Model for Texts {
    ghost use Rattle.std.specs.Prelude.{List, map};
    ghost use Rattle.wy_constant.specs.Scope.{FixedText as Plain};
    ghost use Rattle.wy_constant.specs.Scopes.{text_of};

    ghost Value = { List Plain };

    ghost view = { λ t. map text_of t.list.items };
}

impl Texts {
    /// These texts, in this order.
    pub fn of(alloc: Global, list: Vec<FixedText>) -> Result<Texts, AllocError>
        requires { length list.items < 2 ^ 32 }
        ensures { IfOk result (λ t. t ≡ map text_of list.items) }
    {
        let places = places_of(alloc, &list)?;
        Ok(Texts { list, places })
    }

    /// The texts, in order.
    pub fn into_list(self) -> Vec<FixedText>
        ensures texts { map text_of result.items ≡ self }
        ensures few { length result.items < 2 ^ 32 }
    {
        self.list
    }

    /// Takes the place of a text, which a form with this first token holds.
    pub fn place(&mut self, units: Vec<u16>, token: u32) -> Result<u32, AllocError>
        ensures listed { OnOk result (self.new ≡ listed self.old units.items token) }
        ensures place { IfOk result (λ n. n ≡ text_number self.new units.items) }
    {
        match self.places.get(&units).copied() {
            Some(at) => {
                let text = &mut self.list[at as usize];
                text.token = text.token.min(token);
                Ok(at)
            }
            None => self.add(units, token),
        }
    }

    // Puts a text that is not there yet behind the others.
    fn add(&mut self, units: Vec<u16>, token: u32) -> Result<u32, AllocError>
        requires { text_number self.old units.items ≡ length self.old }
        ensures listed { OnOk result (self.new ≡ listed self.old units.items token) }
        ensures place { IfOk result (λ n. n ≡ text_number self.new units.items) }
    {
        let at = self.list.len();
        if at >= 4294967295 {
            return Err(AllocError);
        }
        self.list.reserve(1)?;
        self.places.insert(copied(&units)?, at as u32)?;
        self.list.push_reserved(FixedText { units, token });
        Ok(at as u32)
    }
}

// The place of each of these texts by what it holds; of texts that hold the same, that of the first.
fn places_of(alloc: Global, list: &[FixedText]) -> Result<IndexMap<Vec<u16>, u32>, AllocError>
    requires { length list.now < 2 ^ 32 }
    ensures { IfOk result (KeepsTextPlaces (map text_of list.now)) }
{
    let mut places = IndexMap::new(alloc);
    for (i, text) in list.iter().enumerate() {
        put_place(&mut places, &text.units, i as u32)?;
    }
    Ok(places)
}

// Takes the place of a text where none that holds the same has one.
fn put_place(
    places: &mut IndexMap<Vec<u16>, u32>,
    units: &Vec<u16>,
    at: u32,
) -> Result<(), AllocError>
    ensures { OnOk result ((other : Vec ℕ Global) → place_in places.new other
        ≡ numbered_also (place_in places.old other) (bytes_eq units.now.items other.items) at) }
{
    if !places.contains_key(units) {
        places.insert(copied(units)?, at)?;
    }
    Ok(())
}

fn copied(units: &Vec<u16>) -> Result<Vec<u16>, AllocError>
    ensures { IfOk result (λ copy. copy.items ≡ units.now.items) }
{
    Ok(units.clone()?)
}
