use crate::Sent;
use crossbeam_queue::RuledArrayQueue;
use crossbeam_queue::protocol::{Join, Lesson, Outcome, Protocol, Split};
use std::collections::LinkedList;
use std::marker::PhantomData;

/// What a pass knows. No value of it is made: it stands in proofs alone.
pub struct View<E> {
    /// Whether it is a sender's pass. One that was handed in isn't.
    pub sends: bool,
    /// Whether it is the taker's pass.
    pub takes: bool,
    /// Of a sender: its number.
    pub number: u64,
    /// Of a sender what it has posted, of the taker what it has taken, in order.
    pub entries: LinkedList<E>,
    /// Of the taker: how many senders' passes it has opened.
    pub opened: u64,
    /// Of the taker: what each pass that was handed in had posted, by its number.
    pub handed: LinkedList<LinkedList<E>>,
}

/// The rule of a mailbox, and what its steps tell the passes.
pub struct Orderly<E> {
    marker: PhantomData<E>,
}

impl<E: Sent> Protocol<E, View<E>> for Orderly<E> {
    ghost use Rattle.mailbox.specs.Rule.{Kept, opening};

    ghost holds = { Kept E.sender_of };

    ghost first = { opening };
}

impl<E> Outcome<E, View<E>> for Orderly<E> {
    ghost use Rattle.std.specs.Prelude.{◌≡◌};
    ghost use Rattle.mailbox.specs.Rule.{with_entry};

    ghost then = { λ v x w. w ≡ with_entry v x };
}

impl<E: Sent> Lesson<E, View<E>> for Orderly<E> {
    ghost use Rattle.mailbox.specs.Rule.{Allowed};

    ghost fact = { Allowed E.sender_of };
}

impl<E> Split<View<E>> for Orderly<E> {
    ghost use Rattle.mailbox.specs.Rule.{opened_one, newcomer};

    ghost left = { opened_one };

    ghost right = { newcomer };
}

impl<E> Join<View<E>> for Orderly<E> {
    ghost use Rattle.mailbox.specs.Rule.{handed_one, spent};

    ghost both = { handed_one };

    ghost spent = { spent };
}

/// What the taker learns once each sender's pass is in its hands.
pub struct Closing<E> {
    marker: PhantomData<E>,
}

impl<E> Outcome<E, View<E>> for Closing<E> {
    ghost use Rattle.std.specs.Prelude.{◌≡◌};
    ghost use Rattle.mailbox.specs.Rule.{with_entry};

    ghost then = { λ v x w. w ≡ with_entry v x };
}

impl<E: Sent> Lesson<E, View<E>> for Closing<E> {
    ghost use Rattle.mailbox.specs.Rule.{Settled};

    ghost fact = { Settled E.sender_of };
}

/// The queue of a mailbox, under its rule.
pub type Mail<E> = RuledArrayQueue<E, View<E>, Orderly<E>>;
