//! What holds of the items of a queue.
ghost use Rattle.std.specs.Prelude.{◌≡◌};

/// What holds of each item that a queue carries. It has no calls: contracts alone name it.
pub trait Job<T> {
    /// The item is one of those that the queue is for.
    ghost fits: { T → Type 0 };
}
