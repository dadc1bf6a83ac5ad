//! Schedules worked out: what they say, proved by computation.

ghost use Rattle.ecf_events.specs.Cases.{EachEvent, NoteBetween, StopsAtForm, StopsAtMany, StopsAtRead};

/// Schedules with each event, with CR LF and notes, and with each kind of stop that a short text has.
pub fn worked_schedules()
    ensures each_event { EachEvent }
    ensures note_between { NoteBetween }
    ensures stops_at_form { StopsAtForm }
    ensures stops_at_many { StopsAtMany }
    ensures stops_at_read { StopsAtRead }
{}
