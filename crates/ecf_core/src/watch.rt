//! What a watch looks for.

/// A kind of watch with its numbers.
#[derive(Clone, Copy, Debug, PartialEq, Eq)]
pub enum WatchSpec {
    /// At most so many transactions one of whose own calls is of the object.
    Cap { object: u8, most: u32 },
    /// After so many transactions none that writes a cell of the object.
    Freeze { object: u8, after: u32 },
}
