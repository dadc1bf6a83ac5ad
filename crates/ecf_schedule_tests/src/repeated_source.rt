//! A source in memory that gives the same bytes again and again.

ghost use Rattle.std.specs.Prelude.{◌≡◌, ℕ, ◌≤◌, ◌<◌, List, Option, None, take, length, IfOk, OnErr};
ghost use Rattle.ecf_edge.specs.Source.{Gave, IsAtEnd, faults_after_read};

use ecf_edge::{Failed, Source};

/// A source that doesn't tell what is left of it.
#[derive(Drop)]
pub(crate) struct RepeatedSource {
    bytes: Vec<u8>,
    at: usize,
    /// How often the bytes come once more.
    again: usize,
    /// How many reads there were.
    pub(crate) reads: usize,
    /// The least and the most room that a read had.
    pub(crate) least_room: usize,
    pub(crate) most_room: usize,
}

impl RepeatedSource {
    /// The bytes so often; each time as one piece, if there is room for them.
    pub(crate) fn new(bytes: Vec<u8>, times: usize) -> RepeatedSource {
        RepeatedSource {
            bytes,
            at: 0,
            again: times.saturating_sub(1),
            reads: 0,
            least_room: usize::MAX,
            most_room: 0,
        }
    }

    fn count(&mut self, room: usize) {
        self.reads = self.reads.saturating_add(1);
        self.least_room = self.least_room.min(room);
        self.most_room = self.most_room.max(room);
    }

    fn begin_again(&mut self) {
        if self.again > 0 && self.at >= self.bytes.len() {
            self.again -= 1;
            self.at = 0;
        }
    }
}

impl Source for RepeatedSource {
    ghost left = { λ _. None };

    ghost faults = { λ _. 0 };

    fn read(&mut self, buf: &mut [u8]) -> Result<usize, Failed> {
        self.count(buf.len());
        self.begin_again();
        let Some(rest) = self.bytes.get(self.at..) else {
            return Ok(0);
        };
        let count = buf.len().min(rest.len());
        buf[..count].copy_from_slice(&rest[..count]);
        self.at = self.at.saturating_add(count);
        Ok(count)
    }
}
