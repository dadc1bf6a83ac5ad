//! The journal of a run, in a commit book: transactions are run and placed in the order in which they come.

ghost use Rattle.std.specs.Prelude.{◌≡◌, ◌≤◌, ◌+◌, ◌++◌, [], true, All, IfOk, OnOk, length, map};
ghost use Rattle.std.specs.Arc.{arc_value};
ghost use Rattle.ecf_book.specs.Recorded.{state_of, with_more};
ghost use Rattle.ecf_core.specs.Book.{is_done};
ghost use Rattle.ecf_heap.specs.Numbered.{IsWithinLimits};
ghost use Rattle.ecf_host.specs.Run.{IsInOrder};
ghost use Rattle.ecf_host.specs.Serial.{entries_in_order};
ghost use Rattle.ecf_lang.specs.Fits.{Fits};
ghost use Rattle.ecf_lang.specs.declared.limits.TheConstants.{MAX_TRANSACTIONS};
ghost use Rattle.ecf_verdicts.specs.Receipts.{serial};

use ecf_book::Book;
use ecf_core::{extend_keeps, finish_ends, journal_grows};
use ecf_lang::cell::Cell;
use ecf_lang::receipt::Entry;
use ecf_lang::tx::TxRef;
use ecf_lang::typed::Typed;
use ecf_verdicts::along_places;
use std::alloc::{AllocError, Global};
use std::sync::Arc;

/// A book without transactions.
pub fn open(alloc: Global, typed: Arc<Typed>) -> Result<Book, AllocError>
    requires { IsWithinLimits (arc_value typed) }
    ensures in_order { IfOk result (IsInOrder (arc_value typed)) }
    ensures none { IfOk result (λ book. book.setup.txs ≡ []) }
{
    Book::open(alloc, typed, Vec::new(alloc))
}

/// Runs transactions behind those that the book has, in their order. After want of memory nothing is said of the book.
pub fn place(
    alloc: Global,
    typed: &Typed,
    book: &mut Book,
    txs: Vec<TxRef>,
) -> Result<(), AllocError>
    requires in_order { IsInOrder typed.now book.old }
    requires fits { All (Fits typed.now) (map arc_value txs.items) }
    requires few { length book.old.setup.txs + length txs.items ≤ MAX_TRANSACTIONS }
    ensures txs { OnOk result (book.new.setup.txs ≡ book.old.setup.txs ++ map arc_value txs.items) }
    ensures in_order { OnOk result (IsInOrder typed.now book.new) }
{
    extend_keeps();
    finish_ends();
    journal_grows();
    book.know_history();
    extend(alloc, book, txs)?;
    book.finish(alloc)
}

// Adds rows for transactions.
fn extend(alloc: Global, book: &mut Book, txs: Vec<TxRef>) -> Result<(), AllocError>
    requires done { All (λ row. is_done row ≡ true) (state_of book.old).rows }
    requires fits { All (Fits book.old.setup.typed) (map arc_value txs.items) }
    requires few { length book.old.setup.txs + length txs.items ≤ MAX_TRANSACTIONS }
    ensures { OnOk result (book.new ≡ with_more book.old (map arc_value txs.items)) }
{
    match book.extend(alloc, txs) {
        Ok(()) => Ok(()),
        Err(_) => Err(AllocError),
    }
}

/// The journal's entries.
pub fn receipts<'a>(typed: &Typed, book: &'a Book) -> &'a [Entry]
    requires { IsInOrder typed.now book.now }
    ensures { result.now ≡ entries_in_order typed.now book.now.setup.txs }
{
    along_places();
    book.know_serial();
    book.entries()
}

/// The fields that the transactions left.
pub fn fields(alloc: Global, typed: &Typed, book: &Book) -> Result<Vec<(Cell, u128)>, AllocError>
    requires { IsInOrder typed.now book.now }
    ensures { IfOk result (λ cells. cells.items ≡ (serial typed.now book.now.setup.txs).store) }
{
    along_places();
    book.know_serial();
    book.cells(alloc)
}
