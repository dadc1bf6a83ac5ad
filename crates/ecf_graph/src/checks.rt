//! Orders and cycles tested against a relation. No call takes memory; each compares lists with lists.

ghost use Rattle.std.specs.Prelude.{◌≡◌, ◌≤◌, ◌<◌, ◌+◌, ◌==◌, ◌&&◌, drop, length, slice_index, slice_index_or};
ghost use Rattle.std.specs.List.{list_all, position_or_len};
ghost use Rattle.ecf_graph.specs.Checks.{all_stand_in, goes_forward, is_cycle, is_distinct, is_order, leads_to, stands_in};
ghost use Rattle.ecf_graph.specs.Pairs.{joins};

use crate::edges::Edges;

/// Whether a number stands in a list.
fn contains(list: &[u16], i: u16) -> bool
    ensures { result ≡ stands_in list.now i }
{
    for x in list {
        if *x == i {
            return true;
        }
    }
    false
}

/// Whether a number stands in a list from a place on.
fn contains_from(list: &[u16], from: usize, i: u16) -> bool
    requires { from ≤ length list.now }
    ensures { result ≡ stands_in (drop from list.now) i }
{
    let (_, later) = list.split_at(from);
    contains(later, i)
}

/// Whether no number stands twice.
fn has_no_twin(list: &[u16]) -> bool
    ensures { result ≡ is_distinct list.now }
{
    for k in 0..list.len() {
        if contains_from(list, k + 1, list[k]) {
            return false;
        }
    }
    true
}

/// Whether each of the first list stands in the second.
fn all_in(list: &[u16], other: &[u16]) -> bool
    ensures { result ≡ all_stand_in list.now other.now }
{
    for i in list {
        if !contains(other, *i) {
            return false;
        }
    }
    true
}

/// The first place of a number, or the length where it has none.
fn place_of(list: &[u16], i: u16) -> usize
    ensures { result ≡ position_or_len (λ x. x == i) list.now }
{
    for k in 0..list.len() {
        if list[k] == i {
            return k;
        }
    }
    list.len()
}

/// Whether a pair goes forward in an order.
fn is_forward(order: &[u16], pair: &(u16, u16)) -> bool
    ensures { result ≡ goes_forward order.now pair.now }
{
    place_of(order, pair.0) < place_of(order, pair.1)
}

/// Whether all pairs go forward in an order.
fn all_forward(order: &[u16], pairs: &[(u16, u16)]) -> bool
    ensures { result ≡ list_all (goes_forward order.now) pairs.now }
{
    for pair in pairs {
        if !is_forward(order, pair) {
            return false;
        }
    }
    true
}

/// Whether a pair is that of i and j.
fn is_pair(pair: &(u16, u16), i: u16, j: u16) -> bool
    ensures { result ≡ ((i == pair.now.0) && (j == pair.now.1)) }
{
    i == pair.0 && j == pair.1
}

/// Whether the pair of i and j is in a list.
fn has_pair(pairs: &[(u16, u16)], i: u16, j: u16) -> bool
    ensures { result ≡ joins pairs.now i j }
{
    for pair in pairs {
        if is_pair(pair, i, j) {
            return true;
        }
    }
    false
}

/// The number behind a place, or the first behind the last.
fn next_around(cycle: &[u16], place: usize) -> u16
    requires { place < length cycle.now }
    ensures { result ≡ slice_index_or cycle.now (place + 1) (slice_index cycle.now 0) }
{
    if place + 1 < cycle.len() {
        cycle[place + 1]
    } else {
        cycle[0]
    }
}

/// Whether each of a list is joined to the next, and the last to the first.
fn goes_around(cycle: &[u16], pairs: &[(u16, u16)]) -> bool
    ensures { result ≡ leads_to pairs.now (slice_index cycle.now 0) cycle.now }
{
    for k in 0..cycle.len() {
        if !has_pair(pairs, cycle[k], next_around(cycle, k)) {
            return false;
        }
    }
    true
}

/// Whether an order lists each member once, and nothing else.
fn lists_each_once(order: &[u16], members: &[u16]) -> bool
    ensures { result ≡ (is_distinct order.now && (all_stand_in order.now members.now && all_stand_in members.now order.now)) }
{
    let once = has_no_twin(order);
    let members_alone = all_in(order, members);
    once & (members_alone & all_in(members, order))
}

/// Whether an order lists each member once, and nothing else, and each pair goes forward in it.
pub fn check_order(order: &[u16], edges: &Edges) -> bool
    ensures { result ≡ is_order edges.now.members.items edges.now.pairs.items order.now }
{
    let listed = lists_each_once(order, edges.members.as_slice());
    listed & all_forward(order, edges.pairs.as_slice())
}

/// Whether a list is a cycle: at least two members, none of them twice, each joined to the next and the last to the first.
pub fn check_cycle(cycle: &[u16], edges: &Edges) -> bool
    ensures { result ≡ is_cycle edges.now.pairs.items cycle.now }
{
    let long = cycle.len() >= 2;
    let once = has_no_twin(cycle);
    long & (once & goes_around(cycle, edges.pairs.as_slice()))
}
