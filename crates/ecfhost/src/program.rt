//! The program over any edge: it hands its words on to the host, and the host's status back.

ghost use Rattle.std.specs.Process.{exit_status};
ghost use Rattle.ecf_host.specs.World.{world};
ghost use Rattle.ecfhost.specs.Program.{IsEndOf};

use crate::words::words_of;
use ecf_edge::{Shelf, Sink, Source};
use ecf_host::host;
use std::alloc::{AllocError, Global};
use std::env::Args;
use std::io;
use std::process::ExitCode;

// The status of want of memory.
const NO_MEMORY: u8 = 6;

/// Has the host serve the words that the arguments are, and ends with its status; or with that of want of memory, where
/// there is none for the words.
pub fn run<R, F: Shelf, S: Source, K: Sink, N: Sink>(
    rt: &R,
    alloc: Global,
    args: io::Result<Args>,
    shelf: &mut F,
    input: &mut S,
    out: &mut K,
    note: &mut N,
) -> ExitCode
    ensures { let before = world F.Shelf S.Source K.Sink N.Sink shelf.old input.old out.old note.old in
        let after = world F.Shelf S.Source K.Sink N.Sink shelf.new input.new out.new note.new in
        IsEndOf args before after (exit_status result) }
{
    match words_of(alloc, args) {
        Ok(words) => host(rt, alloc, words.as_slice(), shelf, input, out, note).into(),
        Err(AllocError) => NO_MEMORY.into(),
    }
}
