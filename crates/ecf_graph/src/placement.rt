//! Members put one after the other, each time the first that no member still unplaced is before.

ghost use Rattle.std.specs.Prelude.{◌≡◌, ◌==◌, ℕ, true, false, drop, IfOk, OnOk};
ghost use Rattle.std.specs.List.{list_any};
ghost use Rattle.ecf_graph.specs.Ordered.{IsOrdered};
ghost use Rattle.ecf_graph.specs.Placement.{PlacesNext, next_of, placement_of};
ghost use Rattle.ecf_graph.specs.Rows.{is_in_row, is_member, those_in};

use crate::row::Row;
use crate::rows::row_of;
use std::alloc::{AllocError, Global};

/// Members in an order that the relation allows.
#[derive(Debug, Drop)]
pub enum Ordered {
    /// All of them.
    All(Vec<u16>),
    /// Each of the rest has another of the rest before it.
    Stuck { placed: Vec<u16>, rest: Vec<u16> },
}

/// Whether one of a set is in the row of j.
fn has_before(rows: &[Row], left: &Row, j: u16) -> bool
    ensures yes { result ≡ true → (i : ℕ) × (is_member left.now i ≡ true) × (is_in_row rows.now j i ≡ true) }
    ensures no { result ≡ false → (i : ℕ) → is_member left.now i ≡ true → is_in_row rows.now j i ≡ true → ⊥ }
{
    let at = j as usize;
    if at < rows.len() {
        left.intersects(&rows[at])
    } else {
        false
    }
}

/// Whether a number is in the set and none of the set is before it.
fn is_free(rows: &[Row], left: &Row, j: u16) -> bool
    ensures yes { result ≡ true → (is_member left.now j ≡ true) × ((i : ℕ) → is_member left.now i ≡ true → is_in_row rows.now j i ≡ true → ⊥) }
    ensures no { result ≡ false → is_member left.now j ≡ true → (i : ℕ) × (is_member left.now i ≡ true) × (is_in_row rows.now j i ≡ true) }
{
    if left.contains(j) {
        !has_before(rows, left, j)
    } else {
        false
    }
}

/// The first member from a place on that is left and that none of those left is before. All that are left stand from there.
fn next(rows: &[Row], left: &Row, members: &[u16], from: usize) -> Option<u16>
    requires from { those_in left.now (drop from members.now) ≡ those_in left.now members.now }
    requires set { (i : ℕ) → is_member left.now i ≡ list_any (λ x. x == i) (those_in left.now members.now) }
    ensures { result ≡ next_of (λ a b. is_in_row rows.now b a) (those_in left.now members.now) }
{
    for at in from..members.len() {
        if is_free(rows, left, members[at]) {
            return Some(members[at]);
        }
    }
    None
}

/// The place of the first member that is left, from a place on; that place where there is none.
fn first_left(left: &Row, members: &[u16], from: usize) -> usize
    requires { those_in left.now (drop from members.now) ≡ those_in left.now members.now }
    ensures { those_in left.now (drop result members.now) ≡ those_in left.now members.now }
{
    for at in from..members.len() {
        if left.contains(members[at]) {
            return at;
        }
    }
    from
}

/// Places the next of those left, if there is one; false where there is none, and then nothing changed.
fn place_next(
    rows: &[Row],
    left: &mut Row,
    members: &[u16],
    from: usize,
    placed: &mut Vec<u16>,
) -> Result<bool, AllocError>
    requires from { those_in left.old (drop from members.now) ≡ those_in left.old members.now }
    requires set { (i : ℕ) → is_member left.old i ≡ list_any (λ x. x == i) (those_in left.old members.now) }
    ensures next { IfOk result (λ more. PlacesNext (λ a b. is_in_row rows.now b a) more
        (those_in left.old members.now) placed.old.items (those_in left.new members.now) placed.new.items) }
    ensures from { OnOk result (those_in left.new (drop from members.now) ≡ those_in left.new members.now) }
    ensures set { OnOk result ((i : ℕ) → is_member left.new i ≡ list_any (λ x. x == i) (those_in left.new members.now)) }
{
    match next(rows, left, members, from) {
        None => Ok(false),
        Some(j) => {
            left.remove(j);
            placed.push(j)?;
            Ok(true)
        }
    }
}

/// The members that are left, as they stand.
fn list_left(alloc: Global, left: &Row, members: &[u16]) -> Result<Vec<u16>, AllocError>
    ensures { IfOk result (λ v. v.items ≡ those_in left.now members.now) }
{
    let mut list = Vec::new(alloc);
    for i in members {
        if left.contains(*i) {
            list.push(*i)?;
        }
    }
    Ok(list)
}

/// All, where there is no rest.
fn answer(placed: Vec<u16>, rest: Vec<u16>) -> Ordered
    ensures { IsOrdered result record { order = placed.items; rest = rest.items } }
{
    if rest.is_empty() {
        Ordered::All(placed)
    } else {
        Ordered::Stuck { placed, rest }
    }
}

/// The placement of members by rows: a is before b where a is in the row of b. Those placed are taken out of a set, and the
/// list is gone through from its first that is left.
pub fn order_rows(alloc: Global, rows: &[Row], members: &[u16]) -> Result<Ordered, AllocError>
    ensures { IfOk result (λ o. IsOrdered o (placement_of (λ a b. is_in_row rows.now b a) members.now)) }
{
    let mut left = row_of(alloc, members)?;
    let mut placed = Vec::new(alloc);
    let mut from = 0;
    let mut more = true;
    for k in 0..members.len() {
        if more {
            from = first_left(&left, members, from);
            more = place_next(rows, &mut left, members, from, &mut placed)?;
        }
    }
    let rest = list_left(alloc, &left, members)?;
    Ok(answer(placed, rest))
}
