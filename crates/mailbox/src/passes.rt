use crate::rule::View;
use crossbeam_queue::Pass;
use lists::List;

/// The pass of a sender. It takes no bytes; who has it may post to its mailbox under its number.
#[derive(Drop)]
pub struct SendPass<E> {
    pub(crate) pass: Pass<E, View<E>>,
}

/// Passes of senders, in order of their numbers.
pub type SendPasses<E> = List<SendPass<E>>;

/// The pass of the taker. It takes no bytes; who has it may take from its mailbox, and close it.
#[derive(Drop)]
pub struct TakePass<E> {
    pub(crate) pass: Pass<E, View<E>>,
}
