//! What a row's state says of it, and rows added where room was made.

ghost use Rattle.std.specs.Prelude.{◌≡◌, ◌≤◌, ◌<◌, ◌+◌, ◌*◌, ◌==◌, ◌||◌, ◌&&◌, ◌++◌, ℕ, length, replicate};
ghost use Rattle.std.specs.Vec.{vec_capacity};
ghost use Rattle.ecf_core.specs.declared.book.RowState.TheVariants as row;
ghost use Rattle.ecf_core.specs.Book.{as_freed, as_stale, has_claim_left, is_claimed, is_done};
ghost use Rattle.ecf_lang.specs.declared.limits.TheConstants.{MAX_STALES};
ghost use Rattle.ecf_rows.specs.Standing.{stales_of};
ghost use Rattle.ecf_rows.specs.Kept.{is_left, one_if_claimed};
ghost use Rattle.ecf_rows.specs.RowSet.{is_member};

use crate::row_set::RowSet;
use ecf_core::book::RowState;
use ecf_lang::limits::MAX_CLAIMS;

/// Whether a row has its receipt.
pub fn is_done(state: RowState) -> bool
    ensures { result ≡ is_done state }
{
    matches!(state, RowState::Done { .. })
}

/// Whether somebody works on a row.
pub fn is_claimed(state: RowState) -> bool
    ensures { result ≡ is_claimed state }
{
    matches!(state, RowState::Claimed { .. })
}

/// Whether a row is Free and was claimed less often than a row may be.
pub fn has_claim_left(state: RowState) -> bool
    ensures { result ≡ has_claim_left state }
{
    match state {
        RowState::Free { claims } => claims < MAX_CLAIMS,
        RowState::Claimed { .. } | RowState::Done { .. } => false,
    }
}

/// A row's state after one stale commit more.
pub fn staled(state: RowState) -> RowState
    requires { stales_of state < MAX_STALES }
    ensures { result ≡ as_stale state }
{
    match state {
        RowState::Claimed {
            ticket,
            claims,
            stales,
        } => RowState::Claimed {
            ticket,
            claims,
            stales: stales + 1,
        },
        RowState::Free { .. } | RowState::Done { .. } => state,
    }
}

/// A row's state after it was given back.
pub fn freed(state: RowState) -> RowState
    ensures { result ≡ as_freed state }
{
    match state {
        RowState::Claimed { claims, .. } => RowState::Free { claims },
        RowState::Free { .. } | RowState::Done { .. } => state,
    }
}

/// A count of Claimed rows without a row of that state.
pub fn without(claimed: usize, state: RowState) -> usize
    requires { one_if_claimed state ≤ claimed }
    ensures { result + one_if_claimed state ≡ claimed }
{
    if is_claimed(state) {
        claimed - 1
    } else {
        claimed
    }
}

/// Puts a row that is there into the set if it has a claim left.
pub fn enter_if_left(set: &mut RowSet, states: &[RowState], row: usize)
    requires { length states.now ≤ 64 * length set.old }
    ensures members { (k : ℕ) → is_member set.new k ≡ (is_member set.old k || (is_left states.now row && (k == row))) }
    ensures words { length set.new ≡ length set.old }
{
    if row < states.len() && has_claim_left(states[row]) {
        set.insert(row);
    }
}

/// Adds so many Free rows, for which there is room.
pub fn append_free(states: &mut Vec<RowState>, count: usize)
    requires { length states.old.items + count ≤ vec_capacity states.old }
    ensures { states.new.items ≡ states.old.items ++ replicate count (row.Free 0) }
{
    let total = states.len() + count;
    match states.resize(total, RowState::Free { claims: 0 }) {
        Ok(()) => (),
        Err(_) => unreachable!(),
    }
}

/// Adds links, for which there is room.
pub fn append_links(links: &mut Vec<u32>, more: &[u32])
    requires { length links.old.items + length more.now ≤ vec_capacity links.old }
    ensures { links.new.items ≡ links.old.items ++ more.now }
{
    match links.extend_from_slice(more) {
        Ok(()) => (),
        Err(_) => unreachable!(),
    }
}
