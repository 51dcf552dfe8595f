ghost use Rattle.std.specs.Prelude.{◌≡◌, ◌≤◌};
ghost use Rattle.std.specs.VecDeque.{deque_len, deque_capacity};

use crate::Sent;
use crate::rule::Mail;
use std::collections::VecDeque;

/// A mailbox that threads share: a queue of bounded length, and the room for what will be left in it at its end.
#[derive(Drop)]
pub struct Mailbox<E: Sent> {
    pub(crate) queue: Mail<E>,
    pub(crate) room: VecDeque<E>,
    ghost empty: { deque_len room ≡ 0 },
    ghost roomy: { queue.cap ≤ deque_capacity room },
}
