//! The numbered form of a file in which nothing is wrong is a well-formed contract. Definitions stand in `ecf_faults` (what
//! is wrong, and the numbered form), `ecf_grammar` (which tree a text is) and `ecf_wellformed`; here is the law between them.
#![tactic(auto)]

ghost use Rattle.ecf_welltyped.specs.Laws.{LexemesAreSpelled, NumberedFormIsWellFormed};

use ecf_grammar::tokens_in_place;

/// Each name of a text that reads as tokens is a name, and each number is below 2^128.
pub fn lexemes_are_spelled()
    ensures { LexemesAreSpelled }
{
    tokens_in_place();
}

/// Where a text reads as tokens that spell a tree in which nothing is wrong, the tree's numbered form is well formed. So what
/// the check of types gives meets the condition of each call that takes a contract.
pub fn numbered_form_is_well_formed()
    ensures { NumberedFormIsWellFormed }
{
    lexemes_are_spelled();
}
