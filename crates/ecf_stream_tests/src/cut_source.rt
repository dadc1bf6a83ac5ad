//! A source in memory that gives pieces of sizes which may look random, and tells how it was read.

ghost use Rattle.std.specs.Prelude.{◌≡◌, ℕ, ◌≤◌, ◌<◌, List, Option, None, take, length, IfOk, OnErr};
ghost use Rattle.ecf_edge.specs.Source.{Gave, IsAtEnd, faults_after_read};

use ecf_edge::{Failed, Source};

/// A source that doesn't tell what is left of it.
#[derive(Drop)]
pub(crate) struct CutSource {
    bytes: Vec<u8>,
    at: usize,
    /// How often the bytes come once more.
    again: usize,
    /// The least size of a piece, and by how many others it may be greater.
    least: usize,
    others: u64,
    seed: u64,
    /// How many reads there were.
    pub(crate) reads: usize,
    /// The most and the least room that a read had.
    pub(crate) most_room: usize,
    pub(crate) least_room: usize,
}

impl CutSource {
    /// Pieces of this size.
    pub(crate) fn even(bytes: Vec<u8>, size: usize) -> CutSource {
        CutSource::new(bytes, size, 0, 0)
    }

    /// The bytes once, and so many times more; each time as one piece.
    pub(crate) fn repeated(bytes: Vec<u8>, again: usize) -> CutSource {
        let mut source = CutSource::even(bytes, usize::MAX);
        source.again = again;
        source
    }

    /// Pieces of 1 to 97 bytes.
    pub(crate) fn uneven(bytes: Vec<u8>, seed: u64) -> CutSource {
        CutSource::new(bytes, 1, 96, seed)
    }

    fn new(bytes: Vec<u8>, least: usize, others: u64, seed: u64) -> CutSource {
        CutSource {
            bytes,
            at: 0,
            again: 0,
            least,
            others,
            seed,
            reads: 0,
            most_room: 0,
            least_room: usize::MAX,
        }
    }

    fn count(&mut self, room: usize) {
        self.reads = self.reads.saturating_add(1);
        self.most_room = self.most_room.max(room);
        self.least_room = self.least_room.min(room);
    }

    fn begin_again(&mut self) {
        if self.again > 0 && self.at >= self.bytes.len() {
            self.again -= 1;
            self.at = 0;
        }
    }

    fn next_size(&mut self) -> usize {
        self.seed = self
            .seed
            .wrapping_mul(6_364_136_223_846_793_005)
            .wrapping_add(1_442_695_040_888_963_407);
        let more = self.seed / 8_589_934_592 % self.others.saturating_add(1).max(1);
        self.least.saturating_add(more as usize)
    }
}

impl Source for CutSource {
    ghost left = { λ _. None };

    ghost faults = { λ _. 0 };

    fn read(&mut self, buf: &mut [u8]) -> Result<usize, Failed> {
        self.count(buf.len());
        self.begin_again();
        let size = self.next_size();
        let Some(rest) = self.bytes.get(self.at..) else {
            return Ok(0);
        };
        let count = size.min(buf.len()).min(rest.len());
        buf[..count].copy_from_slice(&rest[..count]);
        self.at = self.at.saturating_add(count);
        Ok(count)
    }
}
