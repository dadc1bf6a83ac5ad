//! What holds of every line that is printed.

ghost use Rattle.ecf_schedule_text.specs.Laws.{PrintedIsSaid};

use ecf_events::laws::lines_spell;

/// An event that is printed is read as the same event.
pub fn printed_is_said()
    ensures { PrintedIsSaid }
{
    lines_spell();
}
