//! Appends receipts to a text.

ghost use Rattle.std.specs.Prelude.{◌≡◌, ◌++◌, OnOk, codes, decimal};
ghost use Rattle.std.specs.List.{flat_map};
ghost use Rattle.ecf_texts.specs.Receipts.{cause_text, numbers_text, order_text, receipt_text};

use crate::words::{write_number, write_object};
use ecf_lang::receipt::{Order, Receipt};
use ecf_lang::run::Cause;
use ecf_lang::typed::Typed;
use std::alloc::AllocError;

pub fn write_receipt(text: &mut Vec<u8>, typed: &Typed, receipt: &Receipt) -> Result<(), AllocError>
    ensures { OnOk result (text.new.items ≡ text.old.items ++ receipt_text typed.now receipt.now) }
{
    match receipt {
        Receipt::Committed {
            answer,
            fuel,
            orders,
        } => {
            text.extend_from_slice(b"committed ")?;
            write_number(text, *answer)?;
            write_fuel(text, *fuel)?;
            write_orders(text, typed, orders.as_slice())
        }
        Receipt::Reverted { cause, fuel } => {
            text.extend_from_slice(b"reverted ")?;
            write_cause(text, *cause)?;
            write_fuel(text, *fuel)
        }
        Receipt::OutOfFuel { fuel } => {
            text.extend_from_slice(b"outoffuel")?;
            write_fuel(text, *fuel)
        }
        Receipt::Vetoed {
            object,
            at,
            cycle,
            fuel,
        } => {
            text.extend_from_slice(b"vetoed ")?;
            write_object(text, typed, usize::from(*object))?;
            text.extend_from_slice(b" at ")?;
            write_number(text, u128::from(*at))?;
            text.extend_from_slice(b" cycle")?;
            write_numbers(text, cycle.as_slice())?;
            write_fuel(text, *fuel)
        }
        Receipt::Barred { watch, fuel } => {
            text.extend_from_slice(b"barred ")?;
            write_number(text, u128::from(*watch))?;
            write_fuel(text, *fuel)
        }
    }
}

fn write_fuel(text: &mut Vec<u8>, fuel: u32) -> Result<(), AllocError>
    ensures { OnOk result (text.new.items ≡ text.old.items ++ (codes " fuel " ++ decimal fuel)) }
{
    text.extend_from_slice(b" fuel ")?;
    write_number(text, u128::from(fuel))
}

fn write_cause(text: &mut Vec<u8>, cause: Cause) -> Result<(), AllocError>
    ensures { OnOk result (text.new.items ≡ text.old.items ++ cause_text cause) }
{
    match cause {
        Cause::User(number) => {
            text.extend_from_slice(b"user ")?;
            write_number(text, number)
        }
        Cause::Overflow => text.extend_from_slice(b"overflow"),
        Cause::DivZero => text.extend_from_slice(b"divzero"),
        Cause::NoMethod => text.extend_from_slice(b"nomethod"),
        Cause::Depth => text.extend_from_slice(b"depth"),
        Cause::Calls => text.extend_from_slice(b"calls"),
    }
}

fn write_numbers(text: &mut Vec<u8>, numbers: &[u16]) -> Result<(), AllocError>
    ensures { OnOk result (text.new.items ≡ text.old.items ++ numbers_text numbers.now) }
{
    for number in numbers {
        text.push(b' ')?;
        write_number(text, u128::from(*number))?;
    }
    Ok(())
}

fn write_orders(text: &mut Vec<u8>, typed: &Typed, orders: &[Order]) -> Result<(), AllocError>
    ensures { OnOk result
        (text.new.items ≡ text.old.items ++ flat_map (order_text typed.now) orders.now) }
{
    for order in orders {
        write_order(text, typed, order)?;
    }
    Ok(())
}

fn write_order(text: &mut Vec<u8>, typed: &Typed, order: &Order) -> Result<(), AllocError>
    ensures { OnOk result (text.new.items ≡ text.old.items ++ order_text typed.now order.now) }
{
    text.extend_from_slice(b" order ")?;
    write_object(text, typed, usize::from(order.object))?;
    write_numbers(text, order.invs.as_slice())
}
