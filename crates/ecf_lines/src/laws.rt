//! What holds of every line, whoever reads it.

ghost use Rattle.ecf_lines.specs.LineLaws.{LinesFit, SaidIsSpelled, SpelledIsSaid};

/// The transaction that a line says fits the contract: its calls are few enough, their objects have the methods, and
/// arguments and fuel limit are right.
pub fn lines_fit()
    ensures { LinesFit }
{}

/// A line says a transaction exactly where its words, joined by single spaces, spell that transaction. So it spells
/// one at most, and none where it is skipped or has a fault.
pub fn lines_spell()
    ensures said { SaidIsSpelled }
    ensures spelled { SpelledIsSaid }
{}
