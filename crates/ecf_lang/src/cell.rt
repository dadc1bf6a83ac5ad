//! Cells, the places of a store, and whatever can be read like a store.

ghost use Rattle.std.specs.Prelude.{◌≡◌};
ghost use Rattle.ecf_lang.specs.Store.{Store, IsStore, read};
ghost use Rattle.ecf_lang.specs.declared.cell.Cell.{Cell};

/// A place of the store: a plain field has the key 0, a map has a cell for each key.
/// Cells are ordered by object, then field, then key.
#[derive(Clone, Copy, Debug, PartialEq, Eq, PartialOrd, Ord, Hash)]
pub struct Cell {
    /// The object's number in the file.
    pub object: u8,
    /// The field's or map's number in its object.
    pub field: u8,
    /// The key of a map's cell; 0 for a plain field.
    pub key: u128,
}

/// Whatever cells can be read from.
pub trait CellRead {
    /// The store that it stands for.
    ghost store: { Self → Store };

    /// What the cell reads in that store; 0 where it is absent.
    fn get(&self, cell: Cell) -> u128
        ensures { result ≡ read (store self.now) cell };

    /// Makes known that it is a store: rising, and without zeros.
    fn know_store(&self)
        ensures { IsStore (store self.now) };
}
