//! Classes with all that is above each, and methods: what subtyping and the comparison of methods read of a program.
//! A class may be above itself here, unlike in a class table.

ghost use Rattle.std.specs.Prelude.{◌<◌, length, map};
ghost use Rattle.wy_kernel.specs.Table.{KeepsSupertypes};
ghost use Rattle.wy_kernel.specs.View.{class_of, method_of};
ghost use Rattle.wy_overloads.specs.Lineage.{HasTop};
ghost use Rattle.wy_table.specs.Hierarchy.{rows_of};
ghost use Rattle.wy_table.specs.MethodIndex.{IsIndexOf};

use crate::candidates::Candidates;
use crate::member::class_of_type;
use wy_kernel::types::{Class, Method, Ty};
use wy_table::hierarchy::Hierarchy;
use wy_table::methods::MethodIndex;
use wy_table::table::ClassTable;

/// Declarations, borrowed. Classes and methods go by their places.
#[derive(Clone, Copy)]
pub struct Lineage<'a> {
    pub classes: &'a [Class],
    pub methods: &'a [Method],
    /// What is at or above each class.
    pub hierarchy: &'a Hierarchy,
    /// The methods by what they are looked for by.
    pub index: &'a MethodIndex,
    pub ghost has_top: { ∥ HasTop (map class_of classes.now) ∥₁ },
    pub ghost keeps_supertypes: { ∥ KeepsSupertypes (map class_of classes.now)
        (rows_of hierarchy.now) ∥₁ },
    pub ghost is_index: { ∥ IsIndexOf index.now (map method_of methods.now) ∥₁ },
    pub ghost few_classes: { length classes.now < 4294967295 },
    pub ghost few_methods: { length methods.now < 4294967295 },
}

#[tactic(auto, unfolding(crate::specs::LineageView::lineage_of))]
impl<'a> Lineage<'a> {
    ghost use Rattle.std.specs.Prelude.{◌≡◌, ◌<◌, ◌↔◌, IsTrue, [], length, slice_get, map, Some};
    ghost use Rattle.wy_kernel.specs.Subtyping.{Supertype};
    ghost use Rattle.wy_kernel.specs.View.{class_of, method_of};
    ghost use Rattle.wy_kernel.specs.Builtin.{no_site};
    ghost use Rattle.wy_table.specs.ClassTable.{table_of};
    ghost use Rattle.wy_kernel.specs.Table.{KeepsSupertypes};
    ghost use Rattle.wy_overloads.specs.Lineage.{HasTop, classes_and_methods};
    ghost use Rattle.wy_overloads.specs.LineageView.{lineage_of};
    ghost use Rattle.wy_kernel.specs.Subtyping.{class_type};
    ghost use Rattle.wy_kernel.specs.declared.types.MethodForm.{MethodForm};
    ghost use Rattle.wy_overloads.specs.Candidates.{numbers_of};
    ghost use Rattle.wy_overloads.specs.Choice.{IsEquivalent, IsMember, IsMethod};
    ghost use Rattle.wy_table.specs.Hierarchy.{rows_of};
    ghost use Rattle.wy_table.specs.MethodIndex.{IsIndexOf};
    ghost use Rattle.wy_table.specs.Methods.{IsAlike, IsByName, Lists};

    /// The classes and the methods of a table.
    pub fn of_table(table: &'a ClassTable) -> Self
        ensures { lineage_of result ≡ classes_and_methods (table_of table.now) }
    {
        Lineage {
            classes: &table.classes,
            methods: &table.methods,
            hierarchy: &table.hierarchy,
            index: &table.index,
        }
    }

    /// These classes and methods, what is at or above each class, and the index of the methods.
    pub fn of_rows(
        classes: &'a [Class],
        methods: &'a [Method],
        hierarchy: &'a Hierarchy,
        index: &'a MethodIndex,
    ) -> Self
        requires has_top { HasTop (map class_of classes.now) }
        requires keeps_supertypes { KeepsSupertypes (map class_of classes.now)
            (rows_of hierarchy.now) }
        requires is_index { IsIndexOf index.now (map method_of methods.now) }
        requires few_classes { length classes.now < no_site }
        requires few_methods { length methods.now < no_site }
        ensures { lineage_of result ≡ record {
          classes = map class_of classes.now;
          methods = map method_of methods.now;
          fields = [];
          constants = [];
        } }
    {
        Lineage {
            classes,
            methods,
            hierarchy,
            index,
        }
    }

    pub fn class(&self, n: u32) -> &Class
        requires { n < length (lineage_of self.now).classes }
        ensures { slice_get (lineage_of self.now).classes n ≡ Some (class_of result.now) }
    {
        &self.classes[n as usize]
    }

    pub fn method(&self, n: u32) -> &Method
        requires { n < length (lineage_of self.now).methods }
        ensures { slice_get (lineage_of self.now).methods n ≡ Some (method_of result.now) }
    {
        &self.methods[n as usize]
    }

    /// Whether class `d` is class `c` or above it.
    pub fn is_above(&self, c: u32, d: u32) -> bool
        requires { c < length (lineage_of self.now).classes }
        ensures { IsTrue result ↔ Supertype (lineage_of self.now).classes c d }
    {
        self.hierarchy.is_above(c, d)
    }

    pub fn classes(&self) -> u32
        ensures { result ≡ length (lineage_of self.now).classes }
    {
        self.classes.len() as u32
    }

    pub fn methods(&self) -> u32
        ensures { result ≡ length (lineage_of self.now).methods }
    {
        self.methods.len() as u32
    }

    /// The methods to look at for those that a type has by a name.
    pub fn named(&self, ty: &Ty, name: &str) -> Candidates<'a>
        ensures { Lists (lineage_of self.now).methods
            (λ k m. IsMember (lineage_of self.now).classes ty.now name.now m) (numbers_of result) }
    {
        Candidates {
            by_name: self.index.named(name),
            constructors: self.constructors_of(ty),
        }
    }

    /// The methods to look at for those of a type that have the name and the parameter types of method `k`.
    pub fn alike(&self, ty: &Ty, k: u32, m: &Method) -> Candidates<'a>
        requires { IsMethod (lineage_of self.now) k (method_of m.now) }
        ensures { Lists (lineage_of self.now).methods
            (λ j other. IsEquivalent (lineage_of self.now).classes ty.now (method_of m.now) other)
            (numbers_of result) }
    {
        Candidates {
            by_name: self.alike_by_name(k, m),
            constructors: self.constructors_of(ty),
        }
    }

    /// The methods to look at for those that are called by the name of method `k` and have its parameter types.
    pub fn alike_by_name(&self, k: u32, m: &Method) -> &'a [u32]
        requires { IsMethod (lineage_of self.now) k (method_of m.now) }
        ensures { Lists (lineage_of self.now).methods
            (λ j other. IsByName other.form × IsAlike (method_of m.now) other) result.now }
    {
        self.index.alike(k)
    }

    /// The methods to look at for the constructors of the class that a type is.
    pub fn constructors_of(&self, ty: &Ty) -> &'a [u32]
        ensures { Lists (lineage_of self.now).methods
            (λ k m. (m.form ≡ MethodForm.Constructor) × (ty.now ≡ class_type m.class)) result.now }
    {
        match class_of_type(ty) {
            Some(class) => self.index.constructors(class),
            None => &[],
        }
    }
}
