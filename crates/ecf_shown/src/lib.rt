//! What the canonical text of a contract keeps: it reads as the same tree but for the places of tokens, and trees that are
//! the same but for places have one text. So the canonical text of a canonical text is that text again.
#![tactic(auto)]

ghost use Rattle.ecf_shown.specs.Written.{OneText, ReadsBack};

use ecf_grammar::lexemes_begin_apart;

/// Where some text spells a tree, the canonical text of that tree is read as the same tree but for the places of its
/// tokens, however long both texts are and however deep their brackets nest.
pub fn shown_text_reads_back()
    ensures { ReadsBack }
{
    lexemes_begin_apart();
}

/// Trees that are the same but for the places of tokens have one canonical text.
pub fn one_text()
    ensures { OneText }
{}
