//! What the machine runs on, which stays as it is.

ghost use Rattle.std.specs.Prelude.{◌≡◌, true};
ghost use Rattle.ecf_machine.specs.Setting.{can_open};

use ecf_lang::typed::Typed;
use std::alloc::Global;

/// What an external call does, also under a try.
#[derive(Clone, Copy)]
pub(crate) enum External<'a> {
    /// It opens an invocation.
    Opens,
    /// It takes the next of these answers.
    Answers(&'a [u128]),
}

/// A contract, and what its external calls do.
#[derive(Drop)]
pub(crate) struct Setting<'a> {
    pub(crate) alloc: Global,
    pub(crate) typed: &'a Typed,
    pub(crate) external: External<'a>,
    ghost can_open: { can_open external typed.now ≡ true },
}
