//! What holds of the grammar, whoever reads by it.

ghost use Rattle.ecf_grammar.specs.Spells.{OneTree, SomeAnswer, OneAnswer};

/// The grammar leaves no choice: the same tokens spell one tree at most.
pub fn one_tree()
    ensures { OneTree }
{}

/// Tokens are the file of a tree, none of them nested too deep; or one of them, or their end, is the first out of place
/// (those before it begin some file, with it none does, and none of these is nested too deep); or one is the first that is
/// nested too deep, and those before it begin some file.
pub fn some_answer()
    ensures { SomeAnswer }
{}

/// Tokens have one such answer at most.
pub fn one_answer()
    ensures { OneAnswer }
{}
