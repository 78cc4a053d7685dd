//! Variables in the order of their declarations, found by their names (JLS 6.3, 6.4). Nothing here opens or closes a block.

ghost use Rattle.wy_constant.specs.Places.{KeepsPlaces, name_of};

use crate::variable::Variable;
use std::alloc::{AllocError, Global};
use std::collections::HashMap;
use wy_kernel::form::Const;

/// Variables, no two of one name.
#[derive(Drop)]
pub struct Variables {
    list: Vec<Variable>,
    places: HashMap<String, usize>,
    ghost keeps_places: { KeepsPlaces list.items places },
}

impl Variables {
    ghost use Rattle.std.specs.Prelude.{◌≡◌, ◌++◌, ◌∷◌, ◌-◌, [], None, OnErr, OnOk, find, length, option_map, string_bytes, take};
    ghost use Rattle.wy_kernel.specs.Table.{constant_value};
    ghost use Rattle.wy_constant.specs.Scope.{is_named, with_last, with_value};
    ghost use Rattle.wy_constant.specs.Scopes.{variable_of, variables_of};

    pub fn new(alloc: Global) -> Variables
        ensures { variables_of result ≡ [] }
    {
        Variables {
            list: Vec::new(alloc),
            places: HashMap::new(alloc),
        }
    }

    pub fn len(&self) -> usize
        ensures { result ≡ length (variables_of self.now) }
    {
        self.list.len()
    }

    /// The variable of this name.
    pub fn named(&self, name: &str) -> Option<&Variable>
        ensures { option_map (λ v.
            variable_of v.now) result ≡ find (is_named name.now) (variables_of self.now) }
    {
        match self.places.get(name) {
            Some(place) => Some(&self.list[*place]),
            None => None,
        }
    }

    /// Takes one more variable, of a name that none has. An `Err` changes nothing.
    pub fn push(&mut self, alloc: Global, variable: Variable) -> Result<(), AllocError>
        requires { find (is_named (string_bytes variable.name)) (variables_of self.old) ≡ None }
        ensures ok { OnOk result
            (variables_of self.new ≡ variables_of self.old ++ variable_of variable ∷ []) }
        ensures err { OnErr result (variables_of self.new ≡ variables_of self.old) }
    {
        let name = variable.name.as_str().to_string(alloc)?;
        let place = self.list.len();
        self.list.push(variable)?;
        match self.places.insert(name, place) {
            Ok(_) => Ok(()),
            Err(_) => {
                self.list.pop();
                Err(AllocError)
            }
        }
    }

    fn drop_last(&mut self)
        ensures { variables_of self.new
            ≡ take (length (variables_of self.old) - 1) (variables_of self.old) }
    {
        if let Some(variable) = self.list.pop() {
            self.places.remove(variable.name.as_str());
        }
    }

    /// Keeps this many of them, in time in proportion to those that it drops.
    pub fn truncate(&mut self, many: usize)
        ensures { variables_of self.new ≡ take many (variables_of self.old) }
    {
        while self.len() > many {
            self.drop_last();
        }
    }

    /// Says which value the last one has. Without one it changes nothing.
    #[tactic(auto, using(crate::proofs::Last::changed_last, crate::proofs::Last::unchanged))]
    pub fn give_last(&mut self, constant: Option<Const>)
        ensures { variables_of self.new
            ≡ with_last (with_value (option_map constant_value constant)) (variables_of self.old) }
    {
        let many = self.list.len();
        if many > 0 {
            Variables::give(&mut self.list[many - 1], constant);
        }
    }

    fn give(variable: &mut Variable, constant: Option<Const>)
        ensures given { variable_of variable.new ≡ with_value (option_map constant_value constant)
            (variable_of variable.old) }
        ensures named { name_of variable.new ≡ name_of variable.old }
    {
        variable.constant = constant;
    }
}
