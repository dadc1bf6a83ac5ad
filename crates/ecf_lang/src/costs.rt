//! What a run is charged, in units of fuel. A charge comes before what it is for.

/// A statement.
pub const STATEMENT: u32 = 1;

/// A turn of a loop.
pub const TURN: u32 = 1;

/// A number, `true`, `false`, `here`, a local or an object's name.
pub const LEAF: u32 = 1;

/// A read of a field, or of a map at a key.
pub const READ: u32 = 3;

/// A write of a field, or of a map at a key.
pub const WRITE: u32 = 4;

/// A `!`, a comparison, or an operator of a sum or product.
pub const OPERATOR: u32 = 1;

/// The test before each further part of an `&&` or `||`.
pub const TEST: u32 = 1;

/// A call to an object, also under a `try`.
pub const EXTERNAL_CALL: u32 = 11;

/// A call of a method of the own object in the same invocation.
pub const INTERNAL_CALL: u32 = 4;
