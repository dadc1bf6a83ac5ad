//! Laws of stores: the order of cells, pairs by cell, and stores after writes. Each function is a law and does
//! nothing. `specs/Laws.antt` states the laws, and the files of `specs/` named for them prove them: a lemma of another
//! crate cites them there, code calls the function.
#![tactic(auto)]

ghost use Rattle.ecf_stores.specs.Laws.{CellOrderIsExact, CellOrderIsTotal, EmptyIsStore, FindAfterRemoval, FindAfterSet, FindBeforeBack, FindBehindFront, FindInParts, GenesisIsStore, OneMoreWriteIsPut, PutBackUndoesSet, PutBeforeBack, PutBehindFront, PutKeepsStore, ReadAfterPut, ReadAfterWrites, RemovalKeepsRising, SameFindsSamePairs, SameReadsSameStore, SetKeepsRising, WritesGoOn, WritesKeepStore};

/// The order of cells, by object, then field, then key, is total.
pub fn cell_order_is_total()
    ensures { CellOrderIsTotal }
{}

/// Cells that compare equal are one.
pub fn cell_order_is_exact()
    ensures { CellOrderIsExact }
{}

/// Rising pairs still rise once a cell is set.
pub fn set_keeps_rising()
    ensures { SetKeepsRising }
{}

/// Rising pairs still rise without a cell.
pub fn removal_keeps_rising()
    ensures { RemovalKeepsRising }
{}

/// A cell that was set is found with its number, and each other cell as before.
pub fn find_after_set()
    ensures { FindAfterSet }
{}

/// Among rising pairs without a cell that cell isn't found, and each other as before.
pub fn find_after_removal()
    ensures { FindAfterRemoval }
{}

/// Rising pairs with a cell set, and then put back as it was found before, are the pairs before.
pub fn put_back_undoes_set()
    ensures { PutBackUndoesSet }
{}

/// Rising pairs in which each cell is found alike are one list.
pub fn same_finds_same_pairs()
    ensures { SameFindsSamePairs }
{}

/// A store after a write is a store.
pub fn put_keeps_store()
    ensures { PutKeepsStore }
{}

/// A cell reads what was written into it last, and each other cell as before.
pub fn read_after_put()
    ensures { ReadAfterPut }
{}

/// The empty store, in which each cell reads 0, is a store.
pub fn empty_is_store()
    ensures { EmptyIsStore }
{}

/// A store after writes is a store.
pub fn writes_keep_store()
    ensures { WritesKeepStore }
{}

/// Writes after others go on with the store that those leave.
pub fn writes_go_on()
    ensures { WritesGoOn }
{}

/// The first writes with the next one are a put into the store that the first leave: a step of a loop.
pub fn one_more_write_is_put()
    ensures { OneMoreWriteIsPut }
{}

/// After rising writes a cell reads what was written into it, and else what it read before.
pub fn read_after_writes()
    ensures { ReadAfterWrites }
{}

/// Stores in which each cell reads alike are one.
pub fn same_reads_same_store()
    ensures { SameReadsSameStore }
{}

/// The store of a contract's initial values is a store.
pub fn genesis_is_store()
    ensures { GenesisIsStore }
{}

/// A cell is found in the first of two parts that has it.
pub fn find_in_parts()
    ensures { FindInParts }
{}

/// A cell above all of the front part is found in the back part.
pub fn find_behind_front()
    ensures { FindBehindFront }
{}

/// A cell below all of the back part is found in the front part.
pub fn find_before_back()
    ensures { FindBeforeBack }
{}

/// A write of a cell above all of the front part is a write into the back part.
pub fn put_behind_front()
    ensures { PutBehindFront }
{}

/// A write of a cell below all of the back part is a write into the front part.
pub fn put_before_back()
    ensures { PutBeforeBack }
{}
