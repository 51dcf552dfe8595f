ghost use Rattle.std.specs.Prelude.{◌≡◌, true, [], ◌≤◌, length, map};
ghost use Rattle.std.specs.VecDeque.{deque_len, deque_capacity};
ghost use Rattle.crossbeam_queue.specs.Passes.{view, IsPassOf, ruled_capacity};
ghost use Rattle.mailbox.specs.Rule.{Settled, handed_one, more};
ghost use Rattle.mailbox.specs.Passes.{AllDelivered, IsOpenTaker, IsTaker, Own, OwnPasses, posted_by, taken_by};

use crate::passes::{SendPasses, TakePass};
use crate::rule::{Closing, Mail, Orderly, View};
use crate::{Mailbox, Rest, Sent};
use crossbeam_queue::Pass;
use std::collections::VecDeque;
use std::sync::Wait;

impl<E: Sent> Mailbox<E> {
    /// Takes all passes in, and gives what is left. It takes no memory.
    pub fn close<R: Wait>(self, rt: &R, passes: SendPasses<E>, taker: TakePass<E>) -> Rest<E>
        requires passes { OwnPasses self passes }
        requires taker { IsOpenTaker self (length passes) taker }
        ensures { AllDelivered E.sender_of (taken_by taker) passes result }
    {
        let Mailbox { queue, room } = self;
        let mut taker = taker.pass;
        hand_all_in(&queue, &mut taker, passes);
        drain(rt, &queue, &mut taker, room)
    }
}

// Hands all passes in, one after another.
fn hand_all_in<E: Sent>(queue: &Mail<E>, taker: &mut Pass<E, View<E>>, mut passes: SendPasses<E>)
    requires taker { IsTaker queue.now taker.old × ((view taker.old).handed ≡ []) }
    requires passes { Own queue.now passes }
    ensures taker { IsTaker queue.now taker.new }
    ensures view { view taker.new ≡ record (view taker.old) { handed = map posted_by passes } }
{
    for _turn in 0..passes.len() {
        let pass = passes.remove(0);
        hand_in(queue, taker, pass.pass);
    }
}

// Hands the pass of the next sender in. It is spent then.
fn hand_in<E: Sent>(queue: &Mail<E>, taker: &mut Pass<E, View<E>>, pass: Pass<E, View<E>>)
    requires passes { IsPassOf queue.now taker.old × IsPassOf queue.now pass }
    requires roles { ((view taker.old).takes ≡ true) × ((view pass).sends ≡ true) }
    requires next { (view pass).number ≡ length (view taker.old).handed }
    ensures pass { IsPassOf queue.now taker.new }
    ensures view { view taker.new ≡ handed_one (view taker.old) (view pass) }
{
    queue.absorb::<Orderly<E>>(taker, pass)
}

// Takes all that is left, once each pass is in.
fn drain<E: Sent, R: Wait>(
    rt: &R,
    queue: &Mail<E>,
    taker: &mut Pass<E, View<E>>,
    mut room: VecDeque<E>,
) -> Rest<E>
    requires taker { IsTaker queue.now taker.old }
    requires all_in { length (view taker.old).handed ≡ (view taker.old).opened }
    requires room { (deque_len room ≡ 0) × (ruled_capacity queue.now ≤ deque_capacity room) }
    ensures { Settled E.sender_of (more (view taker.old) result) [] }
{
    let _most = queue.len_as::<Closing<E>, R>(rt, taker);
    for _turn in 0..queue.capacity() {
        match queue.pop_as::<Closing<E>, R>(rt, taker) {
            Some(entry) => room.push_back_reserved(entry),
            None => return Rest { items: room },
        }
    }
    queue.learn_as::<Closing<E>>(taker);
    Rest { items: room }
}
