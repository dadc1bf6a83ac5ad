//! The limit of a trace.

use ecf_lang::costs::READ;
use ecf_lang::limits::MAX_FUEL;

/// The most steps of a trace: each step of a run costs at least a read.
pub const MAX_STEPS: u32 = MAX_FUEL / READ;
