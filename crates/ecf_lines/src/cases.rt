//! Streams worked out: what they say, proved by computation.

ghost use Rattle.ecf_lines.specs.Cases.{NoteBetween, StopsAtMethod, StopsAtRead, SeveralCalls, StopsAtForm, FirstCause, TakesOutWatch, StopsAtMany};

/// Streams with CR LF, notes, several calls, control lines and each kind of stop that a short text has.
pub fn worked_streams()
    ensures note_between { NoteBetween }
    ensures stops_at_method { StopsAtMethod }
    ensures stops_at_read { StopsAtRead }
    ensures several_calls { SeveralCalls }
    ensures stops_at_form { StopsAtForm }
    ensures first_cause { FirstCause }
    ensures takes_out_watch { TakesOutWatch }
    ensures stops_at_many { StopsAtMany }
{}
