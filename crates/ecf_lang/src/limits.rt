//! The limits, each with its unit. Code and definitions cite them from here.

/// The most bytes of a contract file.
pub const MAX_CONTRACT_BYTES: usize = 1_048_576;

/// The most tokens of a contract file.
pub const MAX_TOKENS: usize = 200_000;

/// The most brackets that may be open at a token.
pub const MAX_NESTING: usize = 64;

/// The most objects of a contract.
pub const MAX_OBJECTS: usize = 256;

/// The most fields and maps of an object.
pub const MAX_FIELDS: usize = 64;

/// The most methods of an object.
pub const MAX_METHODS: usize = 64;

/// The most parameters of a method.
pub const MAX_PARAMETERS: usize = 8;

/// The most locals of a method, parameters included.
pub const MAX_LOCALS: usize = 64;

/// The most calls of a transaction; it has one at least.
pub const MAX_CALLS: usize = 8;

/// The most fuel that a transaction may ask for; it asks for 1 at least.
pub const MAX_FUEL: u32 = 1_000_000;

/// The most frames that are open at once in a run.
pub const MAX_FRAMES: usize = 64;

/// The most invocations of a transaction, undone ones included.
pub const MAX_INVOCATIONS: usize = 1_024;

/// The most bytes of a line of a stream or schedule, its CR counted and its LF not.
pub const MAX_LINE_BYTES: usize = 4_096;

/// The most bytes of a stream.
pub const MAX_STREAM_BYTES: usize = 67_108_864;

/// The most transactions of a stream.
pub const MAX_TRANSACTIONS: usize = 200_000;

/// The most bytes of a schedule.
pub const MAX_SCHEDULE_BYTES: usize = 67_108_864;

/// The most events of a schedule.
pub const MAX_EVENTS: usize = 200_000;

/// The most actors of a schedule.
pub const MAX_ACTORS: usize = 24;

/// The most bytes of a journal that is read.
pub const MAX_JOURNAL_BYTES: usize = 268_435_456;

/// The most transactions that are run together.
pub const MAX_ROUND: usize = 4_096;

/// The most claims of a row.
pub const MAX_CLAIMS: u8 = 4;

/// The most stale commits under a claim.
pub const MAX_STALES: u8 = 3;

/// The most drafts that wait between workers and monitors.
pub const MAX_QUEUED: usize = 32;

/// The most workers; there is one at least.
pub const MAX_WORKERS: usize = 16;

/// How many workers there are where nothing is said.
pub const DEFAULT_WORKERS: usize = 4;

/// The most monitors; there is one at least.
pub const MAX_MONITORS: usize = 8;

/// How many monitors there are where nothing is said.
pub const DEFAULT_MONITORS: usize = 2;

/// The most steps of a trace that is brought together by swaps.
pub const MAX_SWAPPED_STEPS: usize = 4_096;
