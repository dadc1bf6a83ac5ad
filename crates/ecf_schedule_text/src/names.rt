//! Names each row by its submitter, and by its number among the submitter's rows.

ghost use Rattle.std.specs.Prelude.{◌≡◌, ◌+◌, ◌^◌, ◌<◌, map, IfOk, OnOk};
ghost use Rattle.std.specs.Arc.{arc_value};
ghost use Rattle.ecf_schedule_text.specs.Names.{row_names};
ghost use Rattle.ecf_schedule_text.specs.Counts.{count_of, CountsOneMore};

use ecf_lang::tx::TxRef;
use std::alloc::{AllocError, Global};
use std::collections::BTreeMap;

/// What names a row.
#[derive(Clone, Copy, Debug)]
pub struct RowName {
    pub submitter: u32,
    /// The row's number among those of its submitter, from 1.
    pub number: usize,
}

/// The names of the rows.
pub fn row_names(alloc: Global, txs: &[TxRef]) -> Result<Vec<RowName>, AllocError>
    ensures { IfOk result (λ names. names.items ≡ row_names (map arc_value txs.now)) }
{
    let mut counts = BTreeMap::new(alloc);
    let mut names = Vec::with_capacity(alloc, txs.len())?;
    for tx in txs {
        let submitter = tx.submitter;
        let number = next_number(&mut counts, submitter)?;
        names.push(RowName { submitter, number })?;
    }
    Ok(names)
}

// Counts one more row of the submitter, and answers how many it has then.
fn next_number(counts: &mut BTreeMap<u32, usize>, submitter: u32) -> Result<usize, AllocError>
    requires room { count_of counts.old submitter + 1 < 2 ^ 64 }
    ensures number { IfOk result (λ n. n ≡ count_of counts.old submitter + 1) }
    ensures counts { OnOk result (CountsOneMore counts.old counts.new submitter) }
{
    let number = counts.get(&submitter).copied().unwrap_or(0) + 1;
    counts.insert(submitter, number)?;
    Ok(number)
}
