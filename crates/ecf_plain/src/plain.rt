//! Tests whether a form has no call in it.

ghost use Rattle.std.specs.Prelude.{◌≡◌, true};
ghost use Rattle.ecf_plain.specs.Plain.{are_plain, is_plain, is_plain_block, is_plain_stmt, parts_plain};

use ecf_lang::tree::Op;
use ecf_lang::typed::{TypedBlock, TypedExpr, TypedStmt};

/// Whether an expression is seen to have no call in it. So many parts are looked at, which are counted down.
#[cycle(plain_expressions)]
pub(crate) fn expr_is_plain(expr: &TypedExpr, parts_left: &mut u32) -> bool
    ensures { result ≡ true → is_plain expr.now ≡ true }
{
    if *parts_left == 0 {
        return false;
    }
    *parts_left -= 1;
    match expr {
        TypedExpr::Number { .. } => true,
        TypedExpr::Flag { .. } => true,
        TypedExpr::Here => true,
        TypedExpr::Name { .. } => true,
        TypedExpr::At { key, .. } => expr_is_plain(key.get(), parts_left),
        TypedExpr::Not { inner } => expr_is_plain(inner.get(), parts_left),
        TypedExpr::Product { first, rest } => {
            expr_is_plain(first.get(), parts_left) && further_are_plain(rest.as_slice(), parts_left)
        }
        TypedExpr::Sum { first, rest } => {
            expr_is_plain(first.get(), parts_left) && further_are_plain(rest.as_slice(), parts_left)
        }
        TypedExpr::Compare { left, right, .. } => {
            expr_is_plain(left.get(), parts_left) && expr_is_plain(right.get(), parts_left)
        }
        TypedExpr::And { parts } => exprs_are_plain(parts.as_slice(), parts_left),
        TypedExpr::Or { parts } => exprs_are_plain(parts.as_slice(), parts_left),
        TypedExpr::Call { .. } => false,
    }
}

#[cycle(plain_expressions)]
fn further_are_plain(parts: &[(Op, TypedExpr)], parts_left: &mut u32) -> bool
    ensures { result ≡ true → parts_plain parts.now ≡ true }
{
    for part in parts {
        if !expr_is_plain(&part.1, parts_left) {
            return false;
        }
    }
    true
}

#[cycle(plain_expressions)]
fn exprs_are_plain(exprs: &[TypedExpr], parts_left: &mut u32) -> bool
    ensures { result ≡ true → are_plain exprs.now ≡ true }
{
    for expr in exprs {
        if !expr_is_plain(expr, parts_left) {
            return false;
        }
    }
    true
}

/// Whether a statement is seen to have no call in it. So many parts are looked at, which are counted down.
#[cycle(plain_statements)]
pub(crate) fn stmt_is_plain(stmt: &TypedStmt, parts_left: &mut u32) -> bool
    ensures { result ≡ true → is_plain_stmt stmt.now ≡ true }
{
    match stmt {
        TypedStmt::Let { value, .. } => expr_is_plain(value, parts_left),
        TypedStmt::Set { value, .. } => expr_is_plain(value, parts_left),
        TypedStmt::SetAt { key, value, .. } => {
            expr_is_plain(key, parts_left) && expr_is_plain(value, parts_left)
        }
        TypedStmt::If { arms, last } => {
            for (cond, block) in arms.as_slice() {
                if !expr_is_plain(cond, parts_left) {
                    return false;
                }
                if !block_is_plain(block, parts_left) {
                    return false;
                }
            }
            match last {
                Some(block) => block_is_plain(block, parts_left),
                None => true,
            }
        }
        TypedStmt::While { cond, body } => {
            expr_is_plain(cond, parts_left) && block_is_plain(body, parts_left)
        }
        TypedStmt::Return { value } => expr_is_plain(value, parts_left),
        TypedStmt::Revert { value } => expr_is_plain(value, parts_left),
        TypedStmt::Try { .. } => false,
        TypedStmt::Do { .. } => false,
    }
}

#[cycle(plain_statements)]
fn block_is_plain(block: &TypedBlock, parts_left: &mut u32) -> bool
    ensures { result ≡ true → is_plain_block block.now ≡ true }
{
    for stmt in block.stmts.as_slice() {
        if !stmt_is_plain(stmt, parts_left) {
            return false;
        }
    }
    true
}
