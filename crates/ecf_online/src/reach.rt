//! Rows of what reaches what: i is in the row of j where i reaches j. They stay right past a cycle. Beside them stands the
//! set of those that reach any: a pair to one that isn't in it changes one row. Pairs are taken in without memory: the row
//! of each number that has had a step has room for all such numbers.

ghost use Rattle.std.specs.Prelude.{◌≡◌, ◌≤◌, ◌<◌, ◌||◌, ◌&&◌, ◌==◌, ◌/◌, ℕ, Bool, true, List, [], length, slice_index_or, take, vec_len};
ghost use Rattle.ecf_graph.specs.Pairs.{joins};
ghost use Rattle.ecf_graph.specs.Paths.{with_pair};
ghost use Rattle.ecf_graph.specs.Rows.{is_in_row};
ghost use Rattle.ecf_online.specs.Closure.{HasRoomForAll, HoldsReaching, IsClosure, IsReady, IsReadyPair, IsShaped, IsSpread};

use ecf_graph::{Row, row_contains};
use ecf_precedence::one_pair_more;
use std::alloc::Global;
use std::mem;

/// Whether k is j or has j in its row.
fn is_reached(rows: &[Row], k: usize, j: u16) -> bool
    requires { k < length rows.now }
    ensures { result ≡ ((k == j) || is_in_row rows.now k j) }
{
    if k == j as usize {
        true
    } else {
        rows[k].contains(j)
    }
}

/// Puts i and what reaches it into the row of k.
fn join_row(alloc: Global, rows: &mut Vec<Row>, k: usize, i: u16)
    requires k { k < vec_len rows.old }
    requires i { i < vec_len rows.old }
    requires members { (a : ℕ) → is_in_row rows.old.items i a ≡ true → a / 64 < length (slice_index_or rows.old.items k []) }
    requires own { i / 64 < length (slice_index_or rows.old.items k []) }
    ensures joined { (a b : ℕ) → is_in_row rows.new.items b a ≡
        (is_in_row rows.old.items b a || ((b == k) && (is_in_row rows.old.items i a || (a == i)))) }
    ensures words { (b : ℕ) → length (slice_index_or rows.new.items b []) ≡ length (slice_index_or rows.old.items b []) }
    ensures long { vec_len rows.new ≡ vec_len rows.old }
{
    let mut row = mem::replace(&mut rows[k], Row::new(alloc));
    row.absorb(&rows[i as usize]);
    row.put(i);
    rows[k] = row;
}

/// Puts i and what reaches it into the row of j and into each row that has j, looking at each.
fn spread_far(alloc: Global, rows: &mut Vec<Row>, i: u16, j: u16)
    requires shaped { IsShaped rows.old.items }
    requires ready { IsReadyPair rows.old.items (i, j) }
    ensures spread { IsSpread rows.old.items i j rows.new.items }
    ensures words { (b : ℕ) → length (slice_index_or rows.new.items b []) ≡ length (slice_index_or rows.old.items b []) }
{
    let count = rows.len();
    for k in 0..count {
        if is_reached(rows.as_slice(), k, j) {
            join_row(alloc, rows, k, i);
        }
    }
}

/// Puts i and what reaches it into the row of j and into each row that has j. Where j reaches none no row has it.
fn spread(alloc: Global, rows: &mut Vec<Row>, reaching: &Row, i: u16, j: u16)
    requires shaped { IsShaped rows.old.items }
    requires ready { IsReadyPair rows.old.items (i, j) }
    requires reaching { HoldsReaching rows.old.items reaching.now }
    ensures spread { IsSpread rows.old.items i j rows.new.items }
    ensures words { (b : ℕ) → length (slice_index_or rows.new.items b []) ≡ length (slice_index_or rows.old.items b []) }
{
    if reaching.contains(j) {
        spread_far(alloc, rows, i, j);
    } else {
        join_row(alloc, rows, j as usize, i);
    }
}

/// Takes in one pair more. A pair that is reached already costs one look.
fn add_pair(alloc: Global, rows: &mut Vec<Row>, reaching: &mut Row, i: u16, j: u16)
    requires shaped { IsShaped rows.old.items }
    requires ready { IsReadyPair rows.old.items (i, j) }
    requires room { HasRoomForAll rows.old.items reaching.old }
    requires reaching { HoldsReaching rows.old.items reaching.old }
    ensures closure { (r : ℕ → ℕ → Bool) → IsClosure r rows.old.items → IsClosure (with_pair r i j) rows.new.items }
    ensures shaped { IsShaped rows.new.items }
    ensures words { (b : ℕ) → length (slice_index_or rows.new.items b []) ≡ length (slice_index_or rows.old.items b []) }
    ensures reaching { HoldsReaching rows.new.items reaching.new }
    ensures reaching_words { length reaching.new ≡ length reaching.old }
{
    one_pair_more();
    if row_contains(rows.as_slice(), j, i) {
        return;
    }
    spread(alloc, rows, reaching, i, j);
    reaching.put(i);
}

/// Takes in the pairs of a list from a place on.
pub fn add_pairs(
    alloc: Global,
    rows: &mut Vec<Row>,
    reaching: &mut Row,
    pairs: &[(u16, u16)],
    from: usize,
)
    requires from { from ≤ length pairs.now }
    requires shaped { IsShaped rows.old.items }
    requires ready { (k : ℕ) (d : ℕ × ℕ) → from ≤ k → k < length pairs.now → IsReadyPair rows.old.items (slice_index_or pairs.now k d) }
    requires room { HasRoomForAll rows.old.items reaching.old }
    requires reaching { HoldsReaching rows.old.items reaching.old }
    ensures closure { IsClosure (joins (take from pairs.now)) rows.old.items → IsClosure (joins pairs.now) rows.new.items }
    ensures shaped { IsShaped rows.new.items }
    ensures words { (b : ℕ) → length (slice_index_or rows.new.items b []) ≡ length (slice_index_or rows.old.items b []) }
    ensures reaching { HoldsReaching rows.new.items reaching.new }
    ensures reaching_words { length reaching.new ≡ length reaching.old }
{
    for at in from..pairs.len() {
        let (i, j) = pairs[at];
        add_pair(alloc, rows, reaching, i, j);
    }
}
