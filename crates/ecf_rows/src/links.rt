//! Of new rows the next one of each one's submitter, and the first one of each submitter.

ghost use Rattle.std.specs.Prelude.{◌≡◌, ◌≤◌, ◌<◌, ◌+◌, ◌*◌, ℕ, false, map, length, IfOk, nat_eq};
ghost use Rattle.std.specs.Arc.{arc_value};
ghost use Rattle.ecf_lang.specs.declared.limits.TheConstants.{MAX_TRANSACTIONS};
ghost use Rattle.indexmap.specs.IndexMap.{get};
ghost use Rattle.ecf_rows.specs.Standing.{submitters_of};
ghost use Rattle.ecf_rows.specs.Links.{AreLinks, FindsFirst, HasEntered, IsFirstFrom};
ghost use Rattle.ecf_rows.specs.RowSet.{is_member};

use crate::row_set::RowSet;
use ecf_lang::tx::TxRef;
use indexmap::IndexMap;
use std::alloc::{AllocError, Global};

/// Rows that are to be added, all of which have numbers behind those of other rows.
#[derive(Drop)]
pub struct Links {
    /// Of each row the number of the next one of its submitter; the number of all rows where there is none.
    pub next: Vec<u32>,
    /// Of each submitter its first row, counted from 0.
    pub first: IndexMap<u32, u32>,
}

/// Who submitted each of some transactions.
pub fn submitters_of(alloc: Global, txs: &[TxRef]) -> Result<Vec<u32>, AllocError>
    ensures { IfOk result (λ submitters. submitters.items ≡ submitters_of (map arc_value txs.now)) }
{
    let mut submitters = Vec::new(alloc);
    for tx in txs {
        submitters.push(tx.submitter)?;
    }
    Ok(submitters)
}

/// The links of rows with these submitters, which come behind so many other rows.
pub fn links_of(alloc: Global, submitters: &[u32], before: usize) -> Result<Links, AllocError>
    requires { before + length submitters.now ≤ MAX_TRANSACTIONS }
    ensures next { IfOk result (λ links. AreLinks submitters.now before 0 links.next.items) }
    ensures first { IfOk result (λ links. FindsFirst submitters.now 0 (get nat_eq links.first)) }
{
    let mut next = Vec::new(alloc);
    next.resize(submitters.len(), 0)?;
    let mut first = IndexMap::new(alloc);
    let mut k = submitters.len();
    while k > 0 {
        k -= 1;
        let later = first.insert(submitters[k], k as u32)?;
        let place = later.unwrap_or(submitters.len() as u32);
        next[k] = before as u32 + place;
    }
    Ok(Links { next, first })
}

/// The first place of a submitter; the number of all where it has none.
fn first_place(submitters: &[u32], links: &Links, submitter: u32) -> usize
    requires { FindsFirst submitters.now 0 (get nat_eq links.now.first) }
    ensures { IsFirstFrom submitters.now 0 submitter result }
{
    match links.first.get(&submitter) {
        Some(place) => *place as usize,
        None => submitters.len(),
    }
}

/// Puts the first row of each submitter into the set.
pub fn enter_first(set: &mut RowSet, submitters: &[u32], links: &Links, before: usize)
    requires first { FindsFirst submitters.now 0 (get nat_eq links.now.first) }
    requires room { before + length submitters.now ≤ 64 * length set.old }
    requires few { before + length submitters.now ≤ MAX_TRANSACTIONS }
    requires fresh { (r : ℕ) → before ≤ r → is_member set.old r ≡ false }
    ensures { HasEntered submitters.now before (length submitters.now) set.old set.new }
{
    for k in 0..submitters.len() {
        if first_place(submitters, links, submitters[k]) == k {
            set.insert(before + k);
        }
    }
}
