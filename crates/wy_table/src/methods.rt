//! Methods by name, by class, and by name and parameter types: the candidates of a search, which tests each of them.
//! Constructors are apart, since all have one name.

ghost use Rattle.std.specs.Prelude.{◌≡◌, ◌++◌, ◌<◌, ◌↔◌, [], ◌∷◌, ℕ, List, IfOk, OnOk, IsTrue, Some, length, map, nat_eq, if◌then◌else◌, string_bytes};
ghost use Rattle.std.specs.Str.{bytes_eq};
ghost use Rattle.wy_kernel.specs.View.{method_of};
ghost use Rattle.wy_table.specs.Listed.{AlikeTogether, AreNamedGroups, ListsByKey, ListsNames, group_key, listed, listed_by_text, constructor_key};
ghost use Rattle.wy_table.specs.MethodIndex.{IsIndexOf};
ghost use Rattle.wy_table.specs.Methods.{IsByName};

use indexmap::IndexSet;
use std::alloc::{AllocError, Global};
use std::collections::HashMap;
use wy_kernel::types::{Method, MethodForm, Ty};

/// What makes methods equal, wherever they are declared (JLS 8.4.2).
#[derive(PartialEq, Eq, Hash, Drop)]
struct Signature {
    name: String,
    params: Vec<Ty>,
}

/// Lists of methods by their numbers. Looking one up takes no memory, and no time that grows with the program.
#[derive(Drop)]
pub struct MethodIndex {
    by_name: HashMap<String, Vec<u32>>,
    constructors: HashMap<usize, Vec<u32>>,
    /// The number of the signature of each method.
    groups: Vec<usize>,
    /// The methods of each signature that are called by their name.
    alike: HashMap<usize, Vec<u32>>,
}

impl MethodIndex {
    ghost use Rattle.std.specs.Prelude.{◌≡◌, IfOk, Some, map};
    ghost use Rattle.wy_kernel.specs.View.{method_of};
    ghost use Rattle.wy_table.specs.Listed.{listed};
    ghost use Rattle.wy_table.specs.MethodIndex.{IsIndexOf, alike_in, constructors_in, named_in};

    /// The index of these methods. More than a `u32` counts are refused for want of memory.
    pub fn of(alloc: Global, methods: &[Method]) -> Result<MethodIndex, AllocError>
        ensures { IfOk result (λ index. IsIndexOf index (map method_of methods.now)) }
    {
        if methods.len() >= 4294967295 {
            return Err(AllocError);
        }
        let groups = groups(alloc, methods)?;
        let named_groups = named_groups(alloc, methods, groups.as_slice())?;
        let classes = constructor_classes(alloc, methods)?;
        Ok(MethodIndex {
            by_name: by_name(alloc, methods)?,
            constructors: by_key(alloc, classes.as_slice())?,
            alike: by_key(alloc, named_groups.as_slice())?,
            groups,
        })
    }

    /// Among them is each method of this name that is called by it.
    pub fn named(&self, name: &str) -> &[u32]
        ensures { result.now ≡ named_in self.now name.now }
    {
        match self.by_name.get(name) {
            Some(list) => list.as_slice(),
            None => &[],
        }
    }

    /// Among them is each constructor of this class.
    pub fn constructors(&self, class: u32) -> &[u32]
        ensures { result.now ≡ constructors_in self.now class }
    {
        list_of(&self.constructors, class as usize)
    }

    /// Among them is each method with the name and the parameter types of method `k` that is called by its name.
    pub fn alike(&self, k: u32) -> &[u32]
        ensures { result.now ≡ alike_in self.now k }
    {
        match self.groups.get(k as usize) {
            Some(group) => list_of(&self.alike, *group),
            None => &[],
        }
    }
}

fn list_of(lists: &HashMap<usize, Vec<u32>>, key: usize) -> &[u32]
    ensures { result.now ≡ listed lists.now key }
{
    match lists.get(&key) {
        Some(list) => list.as_slice(),
        None => &[],
    }
}

/// Whether methods of a form are called by a name.
pub fn is_by_name(form: MethodForm) -> bool
    ensures { IsTrue result ↔ IsByName form }
{
    match form {
        MethodForm::Static => true,
        MethodForm::Instance => true,
        MethodForm::Constructor => false,
        MethodForm::Fields => false,
    }
}

// ---- lists by names

fn put_named(
    lists: &mut HashMap<String, Vec<u32>>,
    alloc: Global,
    name: &str,
    k: u32,
) -> Result<(), AllocError>
    ensures { OnOk result ((q : List ℕ) → listed_by_text lists.new q
        ≡ listed_by_text lists.old q ++ (if bytes_eq q name.now then k ∷ [] else [])) }
{
    lists.entry(name.to_string(alloc)?)?.or_default().push(k)?;
    Ok(())
}

// For each name, the methods that are called by it.
fn by_name(alloc: Global, methods: &[Method]) -> Result<HashMap<String, Vec<u32>>, AllocError>
    requires { length methods.now < 4294967295 }
    ensures { IfOk result (λ lists. ListsNames (map method_of methods.now) lists) }
{
    let mut lists = HashMap::new(alloc);
    for k in 0..methods.len() {
        let m = &methods[k];
        if is_by_name(m.form) {
            put_named(&mut lists, alloc, m.name.as_str(), k as u32)?;
        }
    }
    Ok(lists)
}

// ---- lists by numbers

fn put(lists: &mut HashMap<usize, Vec<u32>>, key: usize, k: u32) -> Result<(), AllocError>
    ensures { OnOk result ((q : ℕ) → listed lists.new q
        ≡ listed lists.old q ++ (if nat_eq key q then k ∷ [] else [])) }
{
    lists.entry(key)?.or_default().push(k)?;
    Ok(())
}

// For each key, the places in a list that have it.
fn by_key(alloc: Global, keys: &[Option<usize>]) -> Result<HashMap<usize, Vec<u32>>, AllocError>
    requires { length keys.now < 4294967295 }
    ensures { IfOk result (λ lists. ListsByKey keys.now lists) }
{
    let mut lists = HashMap::new(alloc);
    for k in 0..keys.len() {
        if let Some(key) = keys[k] {
            put(&mut lists, key, k as u32)?;
        }
    }
    Ok(lists)
}

fn constructor_class(m: &Method) -> Option<usize>
    ensures { result ≡ constructor_key (method_of m.now) }
{
    match m.form {
        MethodForm::Constructor => Some(m.class as usize),
        MethodForm::Static => None,
        MethodForm::Instance => None,
        MethodForm::Fields => None,
    }
}

// For each method its class, if it is a constructor.
fn constructor_classes(alloc: Global, methods: &[Method]) -> Result<Vec<Option<usize>>, AllocError>
    ensures { IfOk result (λ keys.
        keys.items ≡ map (λ m. constructor_key (method_of m)) methods.now) }
{
    methods.iter().map(|m| constructor_class(m)).collect(alloc)
}

// ---- lists by signatures

fn signature_of(m: &Method) -> Result<Signature, AllocError>
    ensures { IfOk result (λ s. (string_bytes s.name ≡ (method_of m.now).name)
        × (s.params.items ≡ (method_of m.now).params)) }
{
    Ok(Signature {
        name: m.name.clone()?,
        params: m.params.clone()?,
    })
}

// The number of the signature of each method.
fn groups(alloc: Global, methods: &[Method]) -> Result<Vec<usize>, AllocError>
    ensures { IfOk result (λ groups. AlikeTogether (map method_of methods.now) groups.items) }
{
    let mut signatures = IndexSet::new(alloc);
    let mut groups = Vec::new(alloc);
    for m in methods {
        let (group, _is_new) = signatures.insert_full(signature_of(m)?)?;
        groups.push(group)?;
    }
    Ok(groups)
}

fn group_if_named(m: &Method, group: usize) -> Option<usize>
    ensures { result ≡ group_key (method_of m.now) group }
{
    if is_by_name(m.form) {
        Some(group)
    } else {
        None
    }
}

// For each method that is called by its name, the number of its signature.
fn named_groups(
    alloc: Global,
    methods: &[Method],
    groups: &[usize],
) -> Result<Vec<Option<usize>>, AllocError>
    requires { length groups.now ≡ length methods.now }
    ensures { IfOk result (λ keys.
        AreNamedGroups (map method_of methods.now) groups.now keys.items) }
{
    let mut keys = Vec::new(alloc);
    for k in 0..methods.len() {
        keys.push(group_if_named(&methods[k], groups[k]))?;
    }
    Ok(keys)
}
