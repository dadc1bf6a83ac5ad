//! What holds of every line and of every schedule, whoever reads it.

ghost use Rattle.ecf_events.specs.Laws.{EventsHaveActors, SaidIsSpelled, SpelledIsSaid};

/// A line says an event exactly where it spells that event. So it spells one at most, and none where it is skipped.
pub fn lines_spell()
    ensures said { SaidIsSpelled }
    ensures spelled { SpelledIsSaid }
{}

/// Each actor of a schedule's events is one of those that there are.
pub fn events_have_actors()
    ensures { EventsHaveActors }
{}
