//! The names of a contract, to be looked up by their bytes.

ghost use Rattle.std.specs.Prelude.{◌≡◌, map, [], IfOk, OnOk};
ghost use Rattle.ecf_stream.specs.Lookup.{number_in, AddsName, FindsNames, Finds};

use ecf_lang::name::Name;
use ecf_lang::typed::{Typed, TypedObject};
use indexmap::IndexMap;
use std::alloc::{AllocError, Global};

/// Names that are found by their bytes, each with a number.
#[derive(Drop)]
pub struct NameTable {
    numbers: IndexMap<Vec<u8>, usize>,
}

impl NameTable {
    fn new(alloc: Global) -> NameTable
        ensures { FindsNames [] result }
    {
        NameTable {
            numbers: IndexMap::new(alloc),
        }
    }

    /// The number of the name that a word is, if it is one of them.
    pub fn number(&self, word: &[u8]) -> Option<usize>
        ensures { result ≡ number_in self.now word.now }
    {
        self.numbers.get(word).copied()
    }

    // A name that is there already keeps its number.
    fn add(&mut self, alloc: Global, name: &[u8], number: usize) -> Result<(), AllocError>
        ensures { OnOk result (AddsName self.old self.new name.now number) }
    {
        if !self.numbers.contains_key(name) {
            self.numbers.insert(Vec::from_slice(alloc, name)?, number)?;
        }
        Ok(())
    }
}

/// The names of a contract's objects and methods, each with the first number that it has there.
#[derive(Drop)]
pub struct Lookup {
    objects: NameTable,
    methods: NameTable,
}

impl Lookup {
    /// The names of this contract. It takes memory for a copy of each.
    pub fn new(alloc: Global, typed: &Typed) -> Result<Lookup, AllocError>
        ensures { IfOk result (Finds typed.now) }
    {
        Ok(Lookup {
            objects: table_of_objects(alloc, typed.objects.as_slice())?,
            methods: table_of_names(alloc, typed.names.as_slice())?,
        })
    }

    pub(crate) fn object(&self, word: &[u8]) -> Option<usize>
        ensures { result ≡ number_in self.now.objects word.now }
    {
        self.objects.number(word)
    }

    pub(crate) fn method(&self, word: &[u8]) -> Option<usize>
        ensures { result ≡ number_in self.now.methods word.now }
    {
        self.methods.number(word)
    }
}

fn table_of_objects(alloc: Global, objects: &[TypedObject]) -> Result<NameTable, AllocError>
    ensures { IfOk result (FindsNames (map (λ o. o.name) objects.now)) }
{
    let mut table = NameTable::new(alloc);
    for (number, object) in objects.iter().enumerate() {
        table.add(alloc, object.name.as_bytes(), number)?;
    }
    Ok(table)
}

fn table_of_names(alloc: Global, names: &[Name]) -> Result<NameTable, AllocError>
    ensures { IfOk result (FindsNames names.now) }
{
    let mut table = NameTable::new(alloc);
    for (number, name) in names.iter().enumerate() {
        table.add(alloc, name.as_bytes(), number)?;
    }
    Ok(table)
}
