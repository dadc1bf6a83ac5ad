//! The rounds of a run: up to `MAX_ROUND` transactions are read and run, and their receipts written, again and again.

ghost use Rattle.std.specs.Prelude.{◌≡◌, [], false, take, IfOk, OnOk};
ghost use Rattle.std.specs.Arc.{arc_value};
ghost use Rattle.ecf_heap.specs.Numbered.{IsWithinLimits};
ghost use Rattle.ecf_lines.specs.Line.{IsNumbered};
ghost use Rattle.ecf_receipts.specs.Numbers.{CountsEntries};
ghost use Rattle.ecf_stream.specs.StreamState.{first_state};
ghost use Rattle.ecf_texts.specs.Entries.{text_of_entries};
ghost use Rattle.ecf_texts.specs.Journal.{head_text};
ghost use Rattle.ecf_host.specs.Rounds.{just, rest_text};
ghost use Rattle.ecf_host.specs.Run.{HasRound, HasRun, IsInOrder, IsPutTo, IsReady};
ghost use Rattle.ecf_host.specs.Serial.{entries_in_order};
ghost use Rattle.ecf_host.specs.World.{sink_state, source_state};

use crate::journal::{fields, open, place, receipts};
use ecf_book::Book;
use ecf_edge::{Sink, Source, WriteFault, put_all};
use ecf_lang::limits::MAX_ROUND;
use ecf_lang::receipt::Stop;
use ecf_lang::typed::Typed;
use ecf_receipts::{Numbers, print_further_entries, print_head, print_tail};
use ecf_stream::StreamReader;
use std::alloc::{AllocError, Global};
use std::sync::Arc;

/// A run among its rounds.
#[derive(Drop)]
pub struct Run {
    pub reader: StreamReader,
    pub book: Book,
    pub numbers: Numbers,
}

/// How a round ended.
#[derive(Clone, Copy, Debug, PartialEq, Eq)]
pub struct RoundEnd {
    /// Whether it was the last one.
    pub ended: bool,
    /// Where and why reading stopped before the end of the stream, if it did.
    pub stop: Option<Stop>,
}

/// Reads the stream to its end or to its first stop, runs its transactions in their order, and writes the journal: its head, the
/// receipts of each round, and its tail.
pub fn run_rounds<S: Source, K: Sink>(
    alloc: Global,
    typed: Typed,
    input: &mut S,
    out: &mut K,
) -> Result<Option<Stop>, WriteFault>
    requires numbered { IsNumbered typed }
    requires limits { IsWithinLimits typed }
    ensures { HasRun typed (source_state S.Source input.old) (source_state S.Source input.new)
        (sink_state K.Sink out.old) (sink_state K.Sink out.new) result }
{
    let typed = share(alloc, typed)?;
    let mut run = begin(alloc, &typed)?;
    write_head(alloc, out)?;
    'rounds: loop {
        let round = run_round(alloc, &typed, &mut run, input, out)?;
        if round.ended {
            write_tail(alloc, &typed, round.stop, &run.book, out)?;
            return Ok(round.stop);
        }
    }
}

// The contract, for several owners.
fn share(alloc: Global, typed: Typed) -> Result<Arc<Typed>, AllocError>
    ensures { IfOk result (λ shared. arc_value shared ≡ typed) }
{
    Ok(Arc::new(alloc, typed)?)
}

// A run before its first round.
fn begin(alloc: Global, typed: &Arc<Typed>) -> Result<Run, AllocError>
    requires limits { IsWithinLimits (arc_value typed.now) }
    ensures ready { IfOk result (IsReady (arc_value typed.now)) }
    ensures first { IfOk result (λ run. run.reader ≡ first_state false 0) }
    ensures none { IfOk result (λ run. run.book.setup.txs ≡ []) }
{
    let book = open(alloc, Arc::try_clone(typed)?)?;
    let reader = StreamReader::new(alloc)?;
    Ok(Run {
        reader,
        book,
        numbers: Numbers::new(alloc),
    })
}

// Reads a round and runs its transactions, in their order, and writes their receipts.
fn run_round<S: Source, K: Sink>(
    alloc: Global,
    typed: &Typed,
    run: &mut Run,
    input: &mut S,
    out: &mut K,
) -> Result<RoundEnd, WriteFault>
    requires numbered { IsNumbered typed.now }
    requires ready { IsReady typed.now run.old }
    ensures { HasRound typed.now run.old run.new (source_state S.Source input.old) (source_state S.Source input.new)
        (sink_state K.Sink out.old) (sink_state K.Sink out.new) result }
{
    let part = run.reader.round(alloc, typed, input, MAX_ROUND)?;
    let end = RoundEnd {
        ended: part.ended,
        stop: part.stop,
    };
    let from = run.book.rows() as usize;
    place(alloc, typed, &mut run.book, part.txs)?;
    write_receipts(alloc, typed, &run.book, from, &mut run.numbers, out)?;
    Ok(end)
}

// Writes the head of the journal.
fn write_head<K: Sink>(alloc: Global, out: &mut K) -> Result<(), WriteFault>
    ensures { IsPutTo (sink_state K.Sink out.old) (sink_state K.Sink out.new) (head_text 2) result }
{
    let text = print_head(alloc)?;
    put_all(out, text.as_slice())
}

// Writes the receipts from a place on, where those before it were counted.
fn write_receipts<K: Sink>(
    alloc: Global,
    typed: &Typed,
    book: &Book,
    from: usize,
    numbers: &mut Numbers,
    out: &mut K,
) -> Result<(), WriteFault>
    requires in_order { IsInOrder typed.now book.now }
    requires counted { CountsEntries book.now.setup.txs (take from (entries_in_order typed.now book.now.setup.txs)) numbers.old.counts }
    ensures put { IsPutTo (sink_state K.Sink out.old) (sink_state K.Sink out.new)
        (text_of_entries typed.now book.now.setup.txs (entries_in_order typed.now book.now.setup.txs) from) result }
    ensures counts { OnOk result (CountsEntries book.now.setup.txs (entries_in_order typed.now book.now.setup.txs) numbers.new.counts) }
{
    let entries = receipts(typed, book);
    let text = print_further_entries(alloc, typed, book.txs(), entries, from, numbers)?;
    put_all(out, text.as_slice())
}

// Writes what stands behind the receipts.
fn write_tail<K: Sink>(
    alloc: Global,
    typed: &Typed,
    stop: Option<Stop>,
    book: &Book,
    out: &mut K,
) -> Result<(), WriteFault>
    requires { IsInOrder typed.now book.now }
    ensures { IsPutTo (sink_state K.Sink out.old) (sink_state K.Sink out.new) (rest_text typed.now (just book.now.setup.txs stop)) result }
{
    let cells = fields(alloc, typed, book)?;
    let text = print_tail(alloc, typed, stop, cells.as_slice())?;
    put_all(out, text.as_slice())
}
