//! What a program declares, before its bodies: classes, methods and fields by number, those of java.lang first (JLS 8, 9).
//! Nothing here reads a tree or chooses a method.

ghost use Rattle.std.specs.Prelude.{map};
ghost use Rattle.wy_kernel.specs.Table.{IsTable, KeepsSupertypes, table_with};
ghost use Rattle.wy_kernel.specs.View.{class_of, field_of, method_of};
ghost use Rattle.wy_table.specs.Hierarchy.{rows_of};
ghost use Rattle.wy_table.specs.MethodIndex.{IsIndexOf};
ghost use Rattle.wy_table.specs.Names.{KeepsNames};

use crate::hierarchy::Hierarchy;
use crate::methods::MethodIndex;
use crate::names::DeclaredNames;
use wy_kernel::form::Const;
use wy_kernel::types::{Class, Field, Method};

/// The declarations of a program.
#[derive(Drop)]
pub struct ClassTable {
    pub classes: Vec<Class>,
    pub methods: Vec<Method>,
    pub fields: Vec<Field>,
    /// The value of each field that is a constant variable.
    pub constants: Vec<Option<Const>>,
    /// What is at or above each class.
    pub hierarchy: Hierarchy,
    pub names: DeclaredNames,
    /// The methods by what they are looked for by.
    pub index: MethodIndex,
    pub ghost is_table: { ∥ IsTable
        (table_with classes.items methods.items fields.items constants.items) ∥₁ },
    pub ghost keeps_supertypes: { ∥ KeepsSupertypes (map class_of classes.items)
        (rows_of hierarchy) ∥₁ },
    pub ghost keeps_names: { ∥ KeepsNames (map class_of classes.items)
        (map field_of fields.items) names ∥₁ },
    pub ghost is_index: { ∥ IsIndexOf index (map method_of methods.items) ∥₁ },
}

#[tactic(auto, unfolding(crate::specs::ClassTable::table_of))]
impl ClassTable {
    ghost use Rattle.std.specs.Prelude.{◌≡◌, ◌<◌, length, slice_get, option_map, map, Some};
    ghost use Rattle.std.specs.List.{position_from};
    ghost use Rattle.std.specs.Str.{bytes_eq};
    ghost use Rattle.wy_table.specs.ClassTable.{table_of};
    ghost use Rattle.wy_table.specs.Names.{is_field_named};
    ghost use Rattle.wy_kernel.specs.Table.{constant_value};
    ghost use Rattle.wy_kernel.specs.View.{class_of, field_of, method_of};

    pub fn class(&self, n: u32) -> &Class
        requires { n < length (table_of self.now).classes }
        ensures { slice_get (table_of self.now).classes n ≡ Some (class_of result.now) }
    {
        &self.classes[n as usize]
    }

    pub fn method(&self, n: u32) -> &Method
        requires { n < length (table_of self.now).methods }
        ensures { slice_get (table_of self.now).methods n ≡ Some (method_of result.now) }
    {
        &self.methods[n as usize]
    }

    pub fn field(&self, n: u32) -> &Field
        requires { n < length (table_of self.now).fields }
        ensures { slice_get (table_of self.now).fields n ≡ Some (field_of result.now) }
    {
        &self.fields[n as usize]
    }

    /// The value of a field that is a constant variable, and None exactly where it isn't one.
    pub fn field_constant(&self, n: u32) -> Option<&Const>
        requires { n < length (table_of self.now).fields }
        ensures { slice_get (table_of self.now).constants n
            ≡ Some (option_map (λ c. constant_value c.now) result) }
    {
        self.constants[n as usize].as_ref()
    }

    /// The number of the class or interface of this name.
    pub fn class_number(&self, name: &str) -> Option<u32>
        ensures { result ≡ position_from (λ c. bytes_eq c.name name.now) 0
            (table_of self.now).classes }
    {
        self.names.class(name)
    }

    /// The number of the field that a class declares by this name.
    pub fn field_number(&self, class: u32, name: &str) -> Option<u32>
        ensures { result ≡ position_from (is_field_named class name.now) 0
            (table_of self.now).fields }
    {
        self.names.field(class, name)
    }

    pub fn classes(&self) -> u32
        ensures { result ≡ length (table_of self.now).classes }
    {
        self.classes.len() as u32
    }

    pub fn methods(&self) -> u32
        ensures { result ≡ length (table_of self.now).methods }
    {
        self.methods.len() as u32
    }

    pub fn fields(&self) -> u32
        ensures { result ≡ length (table_of self.now).fields }
    {
        self.fields.len() as u32
    }
}
