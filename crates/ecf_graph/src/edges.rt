//! A relation as its members and its pairs, and its members in an order that it allows.

ghost use Rattle.std.specs.Prelude.{◌≡◌, ℕ, true, [], IfOk, OnErr, OnOk};
ghost use Rattle.std.specs.List.Sorted.{IsStrictlyIncreasing};
ghost use Rattle.ecf_graph.specs.Edges.{PairsAreOfTwo, PairsRise, is_of_two};
ghost use Rattle.ecf_graph.specs.Ordered.{IsOrdered};
ghost use Rattle.ecf_graph.specs.Pairs.{joins};
ghost use Rattle.ecf_graph.specs.Paths.{with_pair};
ghost use Rattle.ecf_graph.specs.Placement.{placement_of};
ghost use Rattle.ecf_graph.specs.Rows.{is_in_row};

use crate::placement::{Ordered, order_rows};
use crate::row::Row;
use crate::rows::extend_rows;
use std::alloc::{AllocError, Global};

/// Numbers, and the pairs of them that a relation joins.
#[derive(Debug, Drop)]
pub struct Edges {
    /// They rise.
    pub members: Vec<u16>,
    /// They rise, by the first and then the second, and each is of two different members.
    pub pairs: Vec<(u16, u16)>,
    ghost members_rise: { IsStrictlyIncreasing members.items },
    ghost pairs_rise: { PairsRise pairs.items },
    ghost of_two: { PairsAreOfTwo members.items pairs.items },
}

impl Edges {
    /// These members, and no pairs; it takes no memory.
    pub fn new(alloc: Global, members: Vec<u16>) -> Edges
        requires { IsStrictlyIncreasing members.items }
        ensures members { result.members.items ≡ members.items }
        ensures pairs { result.pairs.items ≡ [] }
    {
        Edges {
            members,
            pairs: Vec::new(alloc),
        }
    }

    /// Puts a pair of two different members in, if it isn't there. For want of memory it leaves the pairs as they were.
    pub fn add(&mut self, from: u16, to: u16) -> Result<(), AllocError>
        requires { is_of_two self.old.members.items (from, to) ≡ true }
        ensures members { self.new.members.items ≡ self.old.members.items }
        ensures added { OnOk result ((i j : ℕ) → joins self.new.pairs.items i j ≡ with_pair (joins self.old.pairs.items) from to i j) }
        ensures kept { OnErr result (self.new.pairs.items ≡ self.old.pairs.items) }
    {
        match self.pairs.as_slice().binary_search(&(from, to)) {
            Ok(_) => Ok(()),
            Err(place) => {
                self.pairs.insert(place, (from, to))?;
                Ok(())
            }
        }
    }
}

/// Puts one pair into the rows.
fn insert_pair(alloc: Global, rows: &mut Vec<Row>, i: u16, j: u16) -> Result<(), AllocError>
    ensures { OnOk result ((a b : ℕ) → is_in_row rows.new.items b a ≡ with_pair (λ x y. is_in_row rows.old.items y x) i j a b) }
{
    let at = j as usize;
    extend_rows(alloc, rows, at + 1)?;
    rows[at].insert(i)?;
    Ok(())
}

/// The rows of a list of pairs.
fn rows_of(alloc: Global, pairs: &[(u16, u16)]) -> Result<Vec<Row>, AllocError>
    ensures { IfOk result (λ rows. (a b : ℕ) → is_in_row rows.items b a ≡ joins pairs.now a b) }
{
    let mut rows = Vec::new(alloc);
    for pair in pairs {
        insert_pair(alloc, &mut rows, pair.0, pair.1)?;
    }
    Ok(rows)
}

/// The placement of the members: again and again the least that no member still unplaced is joined to.
pub fn least_order(alloc: Global, edges: &Edges) -> Result<Ordered, AllocError>
    ensures { IfOk result (λ o. IsOrdered o (placement_of (joins edges.now.pairs.items) edges.now.members.items)) }
{
    let rows = rows_of(alloc, edges.pairs.as_slice())?;
    order_rows(alloc, rows.as_slice(), edges.members.as_slice())
}
