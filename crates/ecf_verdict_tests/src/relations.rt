//! Relations of members and pairs: how pairs are put in, orders, and tests of orders and cycles.

ghost use Rattle.std.specs.Prelude.{◌≡◌, true};
ghost use Rattle.std.specs.List.Sorted.{IsStrictlyIncreasing};
ghost use Rattle.ecf_graph.specs.Checks.{stands_in};
ghost use Rattle.ecf_graph.specs.Edges.{is_of_two};

use crate::traces::push_ordered;
use ecf_graph::{Edges, check_cycle, check_order, least_order};
use std::alloc::{AllocError, Global};
use std::test::Fail;

/// Whether the numbers rise.
fn is_rising(list: &[u16]) -> bool
    ensures { result ≡ true → IsStrictlyIncreasing list.now }
{
    for k in 1..list.len() {
        if list[k] <= list[k - 1] {
            return false;
        }
    }
    true
}

/// Whether a number stands in a list.
fn contains(list: &[u16], i: u16) -> bool
    ensures { result ≡ stands_in list.now i }
{
    for x in list {
        if *x == i {
            return true;
        }
    }
    false
}

/// Whether a pair is of two different members.
fn is_of_two(members: &[u16], from: u16, to: u16) -> bool
    ensures { result ≡ is_of_two members.now (from, to) }
{
    let apart = from != to;
    let first = contains(members, from);
    apart & (first & contains(members, to))
}

/// A relation of members, which have to rise, and of those of the pairs that are of two of them.
fn relation(alloc: Global, members: &[u16], pairs: &[(u16, u16)]) -> Result<Edges, AllocError> {
    if !is_rising(members) {
        return Err(AllocError);
    }
    let list = Vec::from_slice(alloc, members)?;
    let mut edges = Edges::new(alloc, list);
    for (from, to) in pairs {
        add(&mut edges, *from, *to)?;
    }
    Ok(edges)
}

/// Puts a pair in, where it is of two members.
fn add(edges: &mut Edges, from: u16, to: u16) -> Result<(), AllocError> {
    if is_of_two(edges.members.as_slice(), from, to) {
        edges.add(from, to)
    } else {
        Ok(())
    }
}

/// The pairs that a relation has when it was given some.
fn pairs_told(alloc: Global, pairs: &[(u16, u16)]) -> Result<String, AllocError> {
    let edges = relation(alloc, &[0, 2, 4, 65_535], pairs)?;
    let mut text = String::new(alloc);
    for (from, to) in edges.pairs.as_slice() {
        write!(text, "{from}-{to} ")?;
    }
    Ok(text)
}

#[test]
fn pairs_rise_and_stand_once(rt: HostRuntime) -> Result<(), Fail> {
    for (pairs, want) in [
        (&[][..], ""),
        (&[(0, 2), (0, 2)][..], "0-2 "),
        (
            &[(4, 0), (2, 4), (0, 65_535), (2, 0), (2, 4), (0, 2)][..],
            "0-2 0-65535 2-0 2-4 4-0 ",
        ),
        (&[(0, 0), (0, 1), (65_535, 4)][..], "65535-4 "),
    ] {
        assert_eq!(rt; pairs_told(rt.alloc(), pairs)?.as_str(), want);
    }
    Ok(())
}

/// The order of a relation and the rest, and whether the order is one of all members that the pairs allow.
fn order_told(alloc: Global, members: &[u16], pairs: &[(u16, u16)]) -> Result<String, AllocError> {
    let edges = relation(alloc, members, pairs)?;
    let mut text = String::new(alloc);
    push_ordered(&mut text, &least_order(alloc, &edges)?)?;
    Ok(text)
}

#[test]
fn the_least_is_placed_first(rt: HostRuntime) -> Result<(), Fail> {
    for (members, pairs, want) in [
        (&[][..], &[][..], ""),
        (&[0, 2, 4][..], &[(0, 2), (2, 4)][..], " 0 2 4"),
        (&[0, 2][..], &[(2, 0)][..], " 2 0"),
        (&[1, 2, 3][..], &[(1, 3), (2, 3), (3, 1)][..], " 2 | 1 3"),
        (
            &[0, 1, 2, 3][..],
            &[(0, 1), (1, 0), (1, 2)][..],
            " 3 | 0 1 2",
        ),
        (&[9, 65_535][..], &[(65_535, 9)][..], " 65535 9"),
        (&[3, 5, 7][..], &[][..], " 3 5 7"),
    ] {
        assert_eq!(rt; order_told(rt.alloc(), members, pairs)?.as_str(), want);
    }
    Ok(())
}

/// Whether a list is an order of a chain and one apart.
fn is_order(alloc: Global, order: &[u16]) -> Result<bool, AllocError> {
    let chain = relation(alloc, &[0, 2, 4, 6], &[(0, 2), (4, 2)])?;
    Ok(check_order(order, &chain))
}

/// Whether a list is a cycle of a circle with a way back.
fn is_cycle(alloc: Global, cycle: &[u16]) -> Result<bool, AllocError> {
    let circle = relation(alloc, &[0, 2, 4], &[(0, 2), (2, 0), (2, 4), (4, 0)])?;
    Ok(check_cycle(cycle, &circle))
}

#[test]
fn orders_and_cycles_are_told(rt: HostRuntime) -> Result<(), Fail> {
    for (order, want) in [
        (&[0, 4, 2, 6][..], true),
        (&[6, 4, 0, 2][..], true),
        (&[0, 2, 4, 6][..], false),
        (&[0, 4, 2][..], false),
        (&[0, 4, 2, 6, 8][..], false),
        (&[0, 4, 2, 6, 6][..], false),
        (&[][..], false),
    ] {
        assert_eq!(rt; is_order(rt.alloc(), order)?, want);
    }
    for (cycle, want) in [
        (&[0, 2, 4][..], true),
        (&[2, 4, 0][..], true),
        (&[0, 2][..], true),
        (&[4, 2, 0][..], false),
        (&[0, 4][..], false),
        (&[0][..], false),
        (&[][..], false),
        (&[0, 2, 0, 2][..], false),
    ] {
        assert_eq!(rt; is_cycle(rt.alloc(), cycle)?, want);
    }
    Ok(())
}
