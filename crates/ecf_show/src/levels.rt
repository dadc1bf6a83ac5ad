//! How tightly each form of expression holds together, loosest first. A part is put in parentheses where
//! it holds together less tightly than the form around it asks for.

pub const OR: u8 = 1;

pub const AND: u8 = 2;

pub const COMPARE: u8 = 3;

pub const SUM: u8 = 4;

pub const PRODUCT: u8 = 5;

pub const NOT: u8 = 6;
/// A number, a flag, a call, and whatever stands in parentheses.
pub const ATOM: u8 = 7;
/// `here`, a name and `m[k]`: what may stand before the dot of a call.
pub const TARGET: u8 = 8;
