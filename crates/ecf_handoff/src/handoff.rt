//! The queue with its passes.
ghost use Rattle.std.specs.Prelude.{◌≡◌, ◌+◌, ◌-◌, ◌/◌, ◌<◌, ◌≤◌, [], ◌∷◌, ◌++◌, All, IfOk, IfErr, IfSome, IfNone, List, vec_len, IsPermutation};
ghost use Rattle.crossbeam_queue.specs.Passes.{ruled_capacity};
ghost use Rattle.ecf_handoff.specs.Accounts.{first_account, kept_account, given_account, united_account, items_of};
ghost use Rattle.ecf_handoff.specs.Content.{IsContent, HasHanded, HasTaken};
ghost use Rattle.ecf_handoff.specs.declared.limits.TheConstants.{PLACES, WHOLE_SHARE};
ghost use Rattle.ecf_handoff.specs.Balance.{WasFull, WasEmpty};

use crate::account::{Account, Divide, HandIn, HandoffRule, Pass, TakeOut};
use crate::job::Job;
use crate::limits::PLACES;
use crossbeam_queue::RuledArrayQueue;
use std::alloc::{AllocError, Global};
use std::sync::Wait;

/// A queue with room for 32 items, each of which fits its job.
#[derive(Drop)]
pub struct Handoff<T, J: Job<T>> {
    queue: RuledArrayQueue<T, Account<T>, HandoffRule<J>>,
    ghost places: { ruled_capacity queue ≡ PLACES },
}

impl<T: Drop, J: Job<T>> Handoff<T, J> {
    ghost use Rattle.ecf_handoff.specs.Handoffs.{IsPass, account_of};

    /// An empty queue, and its first pass, which has the whole share.
    pub fn new(alloc: Global) -> Result<(Handoff<T, J>, Pass<T>), AllocError>
        ensures pass { IfOk result (λ made. IsPass made.0 made.1) }
        ensures account { IfOk result (λ made. account_of made.1 ≡ first_account) }
    {
        let (queue, pass) = RuledArrayQueue::ruled(alloc, PLACES)?;
        Ok((Handoff { queue }, pass))
    }

    /// A second pass, with half of the share, rounded down. What was handed in and taken stays with the first.
    pub fn split(&self, mut pass: Pass<T>) -> (Pass<T>, Pass<T>)
        requires pass { IsPass self.now pass }
        requires share { 2 ≤ (account_of pass).share }
        ensures passes { IsPass self.now result.0 × IsPass self.now result.1 }
        ensures first { account_of result.0 ≡ kept_account (account_of pass) }
        ensures second { account_of result.1 ≡ given_account (account_of pass) }
    {
        let second = self.queue.another::<Divide>(&mut pass);
        (pass, second)
    }

    /// One pass in place of two, with both shares, and what both handed in and took.
    pub fn join(&self, mut pass: Pass<T>, other: Pass<T>) -> Pass<T>
        requires passes { IsPass self.now pass × IsPass self.now other }
        ensures pass { IsPass self.now result }
        ensures account { account_of result ≡ united_account (account_of pass) (account_of other) }
    {
        self.queue.absorb::<Divide>(&mut pass, other);
        pass
    }

    /// Hands an item in at the back of the queue. It comes back only if the queue was full at a moment of the call.
    pub fn hand<R: Wait>(&self, rt: &R, mut pass: Pass<T>, item: T) -> Result<Pass<T>, (Pass<T>, T)>
        requires pass { IsPass self.now pass }
        requires item { J.fits item }
        ensures handed { IfOk result (λ after. IsPass self.now after × HasHanded (account_of pass) item (account_of after)) }
        ensures refused { IfErr result (λ back. IsPass self.now back.0 × (account_of back.0 ≡ account_of pass) × (back.1 ≡ item)) }
        ensures full { IfErr result (λ _. WasFull J.fits (account_of pass)) }
    {
        match self.queue.push_as::<HandIn<J>, R>(rt, &mut pass, item) {
            Ok(()) => Ok(pass),
            Err(item) => Err((pass, item)),
        }
    }

    /// Takes the item at the front of the queue. There is none only if the queue was empty at a moment of the call.
    pub fn take<R: Wait>(&self, rt: &R, mut pass: Pass<T>) -> (Pass<T>, Option<T>)
        requires { IsPass self.now pass }
        ensures pass { IsPass self.now result.0 }
        ensures taken { IfSome result.1 (λ item. J.fits item × HasTaken (account_of pass) item (account_of result.0)) }
        ensures none { IfNone result.1 (account_of result.0 ≡ account_of pass) }
        ensures empty { IfNone result.1 (WasEmpty J.fits (account_of pass)) }
    {
        let item = self.queue.pop_as::<TakeOut<J>, R>(rt, &mut pass);
        (pass, item)
    }

    /// Takes what is left, in order. Its memory is taken first: where it is wanting, queue and pass come back as they were.
    pub fn close<R: Wait>(
        self,
        rt: &R,
        alloc: Global,
        pass: Pass<T>,
    ) -> Result<Vec<T>, (Handoff<T, J>, Pass<T>, AllocError)>
        requires { IsPass self pass }
        ensures fit { IfOk result (λ left. All J.fits left.items) }
        ensures at_most { IfOk result (λ left. vec_len left ≤ PLACES) }

        // By the pass that has the whole share, so that there is no other.
        ensures in_order { IfOk result (λ left. (account_of pass).share ≡ WHOLE_SHARE → IsContent (account_of pass) left.items) }
        ensures nothing_else { IfOk result (λ left. (account_of pass).share ≡ WHOLE_SHARE →
            (items : List T) → IsContent (account_of pass) items → items ≡ left.items) }
        ensures each_once { IfOk result (λ left. (account_of pass).share ≡ WHOLE_SHARE →
            IsPermutation (items_of (account_of pass).handed) (items_of (account_of pass).taken ++ left.items)) }
        ensures no_memory { IfErr result (λ refused. (refused.0 ≡ self) × (refused.1 ≡ pass)) }
    {
        let mut left = Vec::new(alloc);
        if left.reserve(PLACES).is_err() {
            left.destroy_empty();
            return Err((self, pass, AllocError));
        }
        let mut pass = pass;
        for _ in rt.forever() {
            if self.queue.is_empty_as::<TakeOut<J>>(&mut pass) {
                break;
            }
            if left.len() < PLACES {
                let (after, item) = self.take(rt, pass);
                pass = after;
                if let Some(item) = item {
                    left.push_reserved(item);
                }
            }
        }
        Ok(left)
    }
}
