ghost use Rattle.std.specs.Prelude.{◌≡◌, OnOk, IfErr, MatchResult};
ghost use Rattle.crossbeam_queue.specs.Fifo.{Held};
ghost use Rattle.mailbox.specs.Rule.{Allowed, with_entry};
ghost use Rattle.mailbox.specs.Passes.{IsSenderOf, IsTakerOf, capacity_of, number_of, sender_view, taker_view};

use crate::passes::{SendPass, TakePass};
use crate::rule::Orderly;
use crate::{Mailbox, Sent};
use std::sync::Wait;
use thiserror::Error;

/// The mailbox was full. The entry comes back.
#[derive(Drop)]
pub struct Full<E> {
    pub entry: E,
}

/// The mailbox was empty.
#[derive(Clone, Copy, Debug, PartialEq, Eq, Error)]
#[error("the mailbox is empty")]
pub struct Empty;

impl<E: Sent> Mailbox<E> {
    /// Posts an entry with the pass of its sender. Where the mailbox was full at a moment of the call the entry comes back, and
    /// nothing has changed.
    pub fn post<R: Wait>(&self, rt: &R, pass: &mut SendPass<E>, entry: E) -> Result<(), Full<E>>
        requires pass { IsSenderOf self.now pass.old }
        requires sender { E.sender_of entry ≡ number_of pass.old }
        ensures pass { IsSenderOf self.now pass.new }
        ensures ok { OnOk result (sender_view pass.new ≡ with_entry (sender_view pass.old) entry) }
        ensures full { IfErr result (λ full. (full.entry ≡ entry) × (sender_view pass.new ≡ sender_view pass.old) × Held (capacity_of self.now) (Allowed E.sender_of (sender_view pass.old))) }
    {
        let posted = self
            .queue
            .push_as::<Orderly<E>, R>(rt, &mut pass.pass, entry);
        match posted {
            Ok(()) => Ok(()),
            Err(entry) => Err(Full { entry }),
        }
    }

    /// Takes the oldest entry. Where the mailbox was empty at a moment of the call nothing has changed.
    pub fn take<R: Wait>(&self, rt: &R, pass: &mut TakePass<E>) -> Result<E, Empty>
        requires pass { IsTakerOf self.now pass.old }
        ensures pass { IsTakerOf self.now pass.new }
        ensures taken { MatchResult result (λ entry. taker_view pass.new ≡ with_entry (taker_view pass.old) entry) (λ _. (taker_view pass.new ≡ taker_view pass.old) × Held 0 (Allowed E.sender_of (taker_view pass.old))) }
    {
        let taken = self.queue.pop_as::<Orderly<E>, R>(rt, &mut pass.pass);
        match taken {
            Some(entry) => Ok(entry),
            None => Err(Empty),
        }
    }
}
