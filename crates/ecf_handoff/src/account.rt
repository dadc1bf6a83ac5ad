//! What a pass knows, the rule that all passes keep, and what each step tells.
use crate::job::Job;
use crossbeam_queue::protocol::{Join, Lesson, Outcome, Protocol, Split};
use std::collections::LinkedList;
use std::marker::PhantomData;

/// What a pass knows. Contracts alone see it; no value of it is made.
pub struct Account<T> {
    /// Its part of the whole share.
    pub share: u64,
    /// The items that its calls handed in, in order, each with its place among all that were handed in.
    pub handed: LinkedList<(u64, T)>,
    /// The items that its calls took, in order, each with its place.
    pub taken: LinkedList<(u64, T)>,
}

/// A thread's part in one queue. It has no bytes, and comes from `Handoff::new` or from another pass.
pub type Pass<T> = crossbeam_queue::Pass<T, Account<T>>;

/// The rule: what was handed in is, in order, what was taken and what the queue holds.
pub struct HandoffRule<J> {
    job: PhantomData<J>,
}

impl<T, J: Job<T>> Protocol<T, Account<T>> for HandoffRule<J> {
    ghost use Rattle.ecf_handoff.specs.Accounts.{first_account};
    ghost use Rattle.ecf_handoff.specs.Balance.{IsBalanced};

    ghost holds = { IsBalanced J.fits };

    ghost first = { first_account };
}

/// How a share is cut in two, and how two accounts become one.
pub struct Divide;

impl<T> Split<Account<T>> for Divide {
    ghost use Rattle.ecf_handoff.specs.Accounts.{kept_account, given_account};

    ghost left = { kept_account };

    ghost right = { given_account };
}

impl<T> Join<Account<T>> for Divide {
    ghost use Rattle.ecf_handoff.specs.Accounts.{united_account, spent_account};

    ghost both = { united_account };

    ghost spent = { spent_account };
}

/// The step that hands an item in.
pub struct HandIn<J> {
    job: PhantomData<J>,
}

impl<T, J: Job<T>> Outcome<T, Account<T>> for HandIn<J> {
    ghost use Rattle.ecf_handoff.specs.Content.{HasHanded};

    ghost then = { HasHanded };
}

impl<T, J: Job<T>> Lesson<T, Account<T>> for HandIn<J> {
    ghost use Rattle.ecf_handoff.specs.Balance.{Knows};

    ghost fact = { Knows J.fits };
}

/// The step that takes an item.
pub struct TakeOut<J> {
    job: PhantomData<J>,
}

impl<T, J: Job<T>> Outcome<T, Account<T>> for TakeOut<J> {
    ghost use Rattle.ecf_handoff.specs.Content.{HasTaken};

    ghost then = { λ old item new. HasTaken old item new × J.fits item };
}

impl<T, J: Job<T>> Lesson<T, Account<T>> for TakeOut<J> {
    ghost use Rattle.ecf_handoff.specs.Balance.{Knows};

    ghost fact = { Knows J.fits };
}
