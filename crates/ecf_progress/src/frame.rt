//! Open frames.

/// A frame that is open.
#[derive(Clone, Copy)]
pub struct OpenFrame {
    pub object: u8,
    /// The number of the invocation that it belongs to.
    pub inv: u16,
    /// How many more frames may be open.
    pub room: usize,
}
