//! Calls of `host` over objects in memory, each told in a line of text.

use crate::helpers::{at_least_one, push_bytes};
use ecf_edge::{MemShelf, MemSink, MemSource, Shelf, Sink, Source};
use ecf_host::host;
use std::alloc::{AllocError, Global};

pub(crate) const COUNTER: &str =
    "object Counter { num n; method bump(): num { n = n + 1; return n; } }";

pub(crate) const LINE: &str = "1 Counter bump 100\n";

pub(crate) const JOURNAL: &str =
    "journal 2\n1 1.1 Counter bump 100 -> committed 1 fuel 14\nend\nCounter.n = 1\n";

/// Which call fails, by its number from 1.
#[derive(Clone, Copy)]
pub(crate) enum Fails {
    Never,
    Fetch(u64),
    Read(u64),
    Write(u64),
    /// A write of the note.
    Note(u64),
}

/// The numbers of the fetches, reads, writes and writes of the note that fail; 0 for none.
pub(crate) fn numbers(fails: Fails) -> (u64, u64, u64, u64) {
    match fails {
        Fails::Never => (0, 0, 0, 0),
        Fails::Fetch(number) => (number, 0, 0, 0),
        Fails::Read(number) => (0, number, 0, 0),
        Fails::Write(number) => (0, 0, number, 0),
        Fails::Note(number) => (0, 0, 0, number),
    }
}

/// What a call is made over. The contract is held under `c.ecf`.
#[derive(Clone, Copy)]
pub(crate) struct Case {
    /// The first word.
    pub command: &'static str,
    /// The word behind it.
    pub file: &'static str,
    pub contract: &'static str,
    /// How many blanks stand behind the contract.
    pub blanks: usize,
    pub stream: &'static str,
    /// How many bytes a read gives and a write takes.
    pub step: usize,
    pub fails: Fails,
}

/// The counter, called once.
pub(crate) fn counted(step: usize, fails: Fails) -> Case {
    Case {
        command: "run",
        file: "c.ecf",
        contract: COUNTER,
        blanks: 0,
        stream: LINE,
        step,
        fails,
    }
}

pub(crate) fn words_of(
    alloc: Global,
    command: &str,
    file: &str,
) -> Result<Vec<String>, AllocError> {
    let command = String::from_str(alloc, command)?;
    let file = String::from_str(alloc, file)?;
    Ok(vec![in alloc; command, file]?)
}

/// A text, and so many blanks.
fn padded(alloc: Global, text: &str, blanks: usize) -> Result<Vec<u8>, AllocError> {
    let mut bytes = Vec::from_slice(alloc, text.as_bytes())?;
    bytes.extend_from_slice(vec![in alloc; b' '; blanks]?.as_slice())?;
    Ok(bytes)
}

pub(crate) fn shelf_of(
    alloc: Global,
    contract: Vec<u8>,
    fails: u64,
) -> Result<MemShelf, AllocError> {
    let name = String::from_str(alloc, "c.ecf")?;
    let files = vec![in alloc; (name, contract)]?;
    Ok(MemShelf::new(files, vec![in alloc; fails]?))
}

pub(crate) fn source_of(
    alloc: Global,
    stream: &str,
    step: usize,
    fails: u64,
) -> Result<MemSource, AllocError> {
    let bytes = Vec::from_slice(alloc, stream.as_bytes())?;
    let fails = vec![in alloc; fails]?;
    Ok(MemSource::new(bytes, at_least_one(step), fails))
}

pub(crate) fn sink_of(alloc: Global, step: usize, fails: u64) -> Result<MemSink, AllocError> {
    let fails = vec![in alloc; fails]?;
    Ok(MemSink::new(alloc, at_least_one(step), fails))
}

pub(crate) fn status_of<F: Shelf, S: Source, K: Sink, N: Sink>(
    rt: &HostRuntime,
    words: &[String],
    shelf: &mut F,
    input: &mut S,
    out: &mut K,
    note: &mut N,
) -> u8 {
    host(rt, rt.alloc(), words, shelf, input, out, note)
}

/// A status, what stands on out and what on note.
pub(crate) fn told(
    alloc: Global,
    status: u8,
    out: &[u8],
    note: &[u8],
) -> Result<String, AllocError> {
    let mut text = format!(in alloc; "{status} out ")?;
    push_bytes(&mut text, out)?;
    text.push_str(" note ")?;
    push_bytes(&mut text, note)?;
    Ok(text)
}

/// What a call with these words over these objects answers and leaves.
fn told_over(
    rt: &HostRuntime,
    words: &[String],
    shelf: &mut MemShelf,
    input: &mut MemSource,
    out: &mut MemSink,
    note: &mut MemSink,
) -> Result<String, AllocError> {
    let status = status_of(rt, words, shelf, input, out, note);
    told(rt.alloc(), status, out.held(), note.held())
}

/// What a call answers and leaves.
pub(crate) fn called(rt: &HostRuntime, case: Case) -> Result<String, AllocError> {
    let alloc = rt.alloc();
    let (fetch, read, write, note) = numbers(case.fails);
    let words = words_of(alloc, case.command, case.file)?;
    let contract = padded(alloc, case.contract, case.blanks)?;
    let mut shelf = shelf_of(alloc, contract, fetch)?;
    let mut input = source_of(alloc, case.stream, case.step, read)?;
    let mut out = sink_of(alloc, case.step, write)?;
    let mut note = sink_of(alloc, case.step, note)?;
    told_over(
        rt,
        words.as_slice(),
        &mut shelf,
        &mut input,
        &mut out,
        &mut note,
    )
}
