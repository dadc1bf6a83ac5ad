//! What holds however a stream is cut into pieces, and over all calls of a reader.

ghost use Rattle.ecf_stream.specs.Cuts.{LinesAreCut};
ghost use Rattle.ecf_stream.specs.Laws.{CallsFollow, FirstPart, NextPart, EndIsSaid};

/// The lines and the stop that a reader of lines gives are those of the stream as a whole, in whatever pieces it comes.
pub fn lines_are_cut()
    ensures { LinesAreCut }
{}

/// What two calls of a reader of streams give, one after the other, is given by both together.
pub fn calls_follow()
    ensures { CallsFollow }
{}

/// What the parts of a reader of streams give together: their transactions one behind the other, and the watches that control
/// lines take out, each with how many transactions stand before it.
pub fn parts_follow()
    ensures first { FirstPart }
    ensures next { NextPart }
{}

/// The transactions that a reader of streams has given at its end, the watches that were taken out and its stop are what the
/// stream says, with control lines or without.
pub fn end_is_said()
    ensures { EndIsSaid }
{}
