//! Values with a history.
ghost use Rattle.std.specs.Prelude.{◌≡◌, ◌<◌, ◌^◌, List, length};

/// A value that keeps, for contracts, what it began with and the list of what has come to pass with it since.
pub trait History {
    /// What the value began with.
    type Opening;

    /// What comes to pass with it at one time.
    type Entry;

    /// What this value began with.
    ghost opening: { Self → Self.Opening };

    /// What has come to pass with it, in order.
    ghost entries: { Self → List Self.Entry };

    /// How many entries the history has.
    fn history_len(&self) -> u64
        ensures count { result ≡ length (entries self.now) }
        ensures small { result < 2 ^ 63 };
}
