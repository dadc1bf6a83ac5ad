//! What holds of every answer that is due, whoever gives it.

ghost use Rattle.ecf_host.specs.Due.{HasJournal, OneDue};

use ecf_grammar::{one_fault, one_reading, read_or_refused};
use ecf_parser::{one_answer, one_tree};
use ecf_verdicts::{along_places, legal_when_whole, vetoed_where_not_free};

/// One answer at most is due where shelf and source tell what they have, and no fetch and no read failed.
pub fn one_due()
    ensures { OneDue }
{
    one_reading();
    read_or_refused();
    one_fault();
    one_tree();
    one_answer();
}

/// What a stream says has its journal: in the order of the stream each transaction stands once, in its submitter's order,
/// and is vetoed exactly where it does harm.
pub fn has_journal()
    ensures { HasJournal }
{
    along_places();
    legal_when_whole();
    vetoed_where_not_free();
}
