//! Declarations by name.

ghost use Rattle.std.specs.Prelude.{◌≡◌, ◌<◌, [], ◌∷◌, Some, length, take, slice_get, OnOk};
ghost use Rattle.std.specs.Cmp.{partial_equiv_from_equiv, on_per, on_equiv};
ghost use Rattle.std.specs.Cmp.Lexicographic.{bytes_decides, nat_list_eq_equiv};
ghost use Rattle.std.specs.Str.{bytes_eq};
ghost use Rattle.std.proofs.Common.{ap};
ghost use Rattle.ecf_faults.specs.Tables.{declaration_of, with_declaration, with_next};
ghost use Rattle.ecf_typing.specs.Views.{contents_of};

use indexmap::IndexMap;
use std::alloc::{AllocError, Global};
use std::hash::{Hash, Hasher};

/// A name as a key. It is hashed in one piece, where a slice is hashed byte by byte.
#[derive(Clone, Copy)]
pub(crate) struct Key<'a> {
    bytes: &'a [u8],
}

impl<'a> PartialEq for Key<'a> {
    ghost eq = { λ a b. bytes_eq a.bytes.now b.bytes.now };

    ghost laws = { on_per (λ key. key.bytes.now) (partial_equiv_from_equiv nat_list_eq_equiv) };

    fn eq(&self, other: &Key<'a>) -> bool {
        self.bytes == other.bytes
    }
}

impl<'a> Eq for Key<'a> {
    ghost laws = { on_equiv (λ key. key.bytes.now) nat_list_eq_equiv };
}

impl<'a> Hash for Key<'a> {
    ghost hash_input = { λ key. key.bytes.now ∷ [] };

    ghost respects_eq = { λ a b same. ap (λ bytes. bytes ∷ []) ((bytes_decides a.bytes.now b.bytes.now).0 same) };

    fn hash<H: Hasher>(&self, state: &mut H) {
        state.write(self.bytes);
    }
}

/// Names in the order in which they were declared, each with what its first declaration says.
#[derive(Drop)]
pub(crate) struct NameMap<'a, A> {
    entries: IndexMap<Key<'a>, A>,
}

impl<'a, A: Copy> NameMap<'a, A> {
    pub(crate) fn new(alloc: Global) -> NameMap<'a, A>
        ensures { contents_of result ≡ [] }
    {
        NameMap {
            entries: IndexMap::new(alloc),
        }
    }

    /// What the declaration of a name says, if there is one.
    pub(crate) fn get(&self, name: &[u8]) -> Option<A>
        ensures { result ≡ declaration_of (contents_of self.now) name.now }
    {
        let key = Key { bytes: name };
        self.entries.get(&key).copied()
    }

    pub(crate) fn len(&self) -> usize
        ensures { result ≡ length (contents_of self.now) }
    {
        self.entries.len()
    }

    /// The name of a number, with what its declaration says.
    pub(crate) fn at(&self, number: usize) -> (&'a [u8], A)
        requires { number < length (contents_of self.now) }
        ensures { slice_get (contents_of self.now) number ≡ Some (result.0.now, result.1) }
    {
        let (key, a) = self.entries.get_index(number).unwrap();
        (key.bytes, *a)
    }

    /// Adds a declaration; one of a name that is there already doesn't count.
    pub(crate) fn declare(&mut self, name: &'a [u8], a: A) -> Result<(), AllocError>
        ensures { OnOk result (contents_of self.new ≡ with_declaration (contents_of self.old) name.now a) }
    {
        let key = Key { bytes: name };
        if !self.entries.contains_key(&key) {
            self.entries.insert(key, a)?;
        }
        Ok(())
    }

    /// Forgets all names but the first ones.
    pub(crate) fn truncate(&mut self, len: usize)
        ensures { contents_of self.new ≡ take len (contents_of self.old) }
    {
        self.entries.truncate(len);
    }
}

impl<'a, A: Copy> NameMap<'a, (usize, A)> {
    /// Adds a declaration under the next number.
    pub(crate) fn declare_next(&mut self, name: &'a [u8], a: A) -> Result<(), AllocError>
        ensures { OnOk result (contents_of self.new ≡ with_next (contents_of self.old) (name.now, a)) }
    {
        let number = self.len();
        self.declare(name, (number, a))
    }
}
