//! The top calls: from the words to the status.

ghost use Rattle.std.specs.Prelude.{map, string_bytes};
ghost use Rattle.ecf_host.specs.Served.{IsServed};
ghost use Rattle.ecf_host.specs.Words.{command_of, tool_of};
ghost use Rattle.ecf_host.specs.World.{world};

use crate::deliver::deliver;
use crate::failure::Failure;
use crate::laws::{has_journal, one_due};
use crate::refusal::Refusal;
use crate::rounds::run_rounds;
use crate::run::{accept, status_of_run};
use crate::show::show;
use crate::words::file_behind;
use ecf_edge::{Shelf, Sink, Source};
use ecf_verdicts::along_places;
use std::alloc::Global;

/// Runs a command that needs no stream and no thread. `show FILE` fetches the contract in FILE from the shelf and writes its
/// canonical text on `out`; where it is refused it writes one line on `note`. All other words are refused, `run` too.
pub fn tool<F: Shelf, S: Source, K: Sink, N: Sink>(
    alloc: Global,
    words: &[String],
    shelf: &mut F,
    input: &mut S,
    out: &mut K,
    note: &mut N,
) -> u8
    ensures { let before = world F.Shelf S.Source K.Sink N.Sink shelf.old input.old out.old note.old in
        let after = world F.Shelf S.Source K.Sink N.Sink shelf.new input.new out.new note.new in
        IsServed (tool_of (map string_bytes words.now)) before after result }
{
    one_due();
    match file_behind("show", words) {
        Some(file) => {
            let shown = show(alloc, file, shelf);
            deliver(alloc, shown, out, note)
        }
        None => deliver(alloc, Err(Failure::Refused(Refusal::Words)), out, note),
    }
}

/// Runs the command that the words are. `run FILE` fetches the contract in FILE from the shelf, reads the stream from
/// the source, and writes the journal on `out`, a round of transactions at a time; where something is refused it writes one
/// line on `note`. The statuses and notes are those of docs/formats.md. All other words go to `tool`. The runtime is for
/// threads, which come later.
pub fn host<R, F: Shelf, S: Source, K: Sink, N: Sink>(
    _rt: &R,
    alloc: Global,
    words: &[String],
    shelf: &mut F,
    input: &mut S,
    out: &mut K,
    note: &mut N,
) -> u8
    ensures { let before = world F.Shelf S.Source K.Sink N.Sink shelf.old input.old out.old note.old in
        let after = world F.Shelf S.Source K.Sink N.Sink shelf.new input.new out.new note.new in
        IsServed (command_of (map string_bytes words.now)) before after result }
{
    one_due();
    has_journal();
    along_places();
    match file_behind("run", words) {
        Some(file) => match accept(alloc, file, shelf) {
            Ok(typed) => {
                let ran = run_rounds(alloc, typed, input, out);
                status_of_run(ran)
            }
            Err(failure) => deliver(alloc, Err(failure), out, note),
        },
        None => tool(alloc, words, shelf, input, out, note),
    }
}
