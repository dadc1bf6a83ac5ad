//! Expressions worked out: their canonical texts, proved by computation. The function does nothing.

ghost use Rattle.ecf_show.specs.Cases.{WorkedExpressions};

/// Each form of expression inside those next to it in tightness, and inside itself.
pub fn worked_expressions()
    ensures { WorkedExpressions }
{}
