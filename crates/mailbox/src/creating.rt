ghost use Rattle.std.specs.Prelude.{◌≡◌, true, [], ◌<◌, length, IfOk, OnOk};
ghost use Rattle.crossbeam_queue.specs.Passes.{view, IsPassOf, ruled_capacity};
ghost use Rattle.mailbox.specs.Rule.{opened_one, newcomer, opening};
ghost use Rattle.mailbox.specs.Passes.{IsTaker, Fresh, FreshPasses, IsOpenTaker, capacity_of, taken_by};

use crate::passes::{SendPass, SendPasses, TakePass};
use crate::rule::{Mail, Orderly, View};
use crate::{Mailbox, Sent};
use crossbeam_queue::Pass;
use lists::{List, Memory};
use std::alloc::Global;
use std::collections::VecDeque;

/// A mailbox with all of its passes.
pub struct Made<E: Sent> {
    pub mailbox: Mailbox<E>,
    pub passes: SendPasses<E>,
    pub taker: TakePass<E>,
}

/// A mailbox of at most so many entries, with passes for so many senders, numbered from 0, and its taker's. All memory that
/// it ever takes is taken here.
pub fn create<E: Sent>(alloc: Global, capacity: u32, senders: u8) -> Result<Made<E>, Memory>
    requires { 0 < capacity }
    ensures capacity { IfOk result (λ made. capacity_of made.mailbox ≡ capacity) }
    ensures passes { IfOk result (λ made. (length made.passes ≡ senders) × FreshPasses made.mailbox made.passes) }
    ensures taker { IfOk result (λ made. IsOpenTaker made.mailbox senders made.taker × (taken_by made.taker ≡ [])) }
{
    let (queue, pass) = Mail::<E>::ruled(alloc, capacity as usize)?;
    let room = VecDeque::with_capacity(alloc, capacity as usize)?;
    let mut taker = TakePass { pass };
    let passes = open_passes(alloc, &queue, &mut taker, senders)?;
    let mailbox = Mailbox { queue, room };
    Ok(Made {
        mailbox,
        passes,
        taker,
    })
}

// Passes for so many senders, opened one after another.
fn open_passes<E: Sent>(
    alloc: Global,
    queue: &Mail<E>,
    taker: &mut TakePass<E>,
    senders: u8,
) -> Result<SendPasses<E>, Memory>
    requires { IsTaker queue.now taker.old.pass × (view taker.old.pass ≡ opening) }
    ensures taker { OnOk result (IsTaker queue.now taker.new.pass × ((view taker.new.pass).opened ≡ senders) × ((view taker.new.pass).entries ≡ []) × ((view taker.new.pass).handed ≡ [])) }
    ensures passes { IfOk result (λ passes. (length passes ≡ senders) × Fresh queue.now passes) }
{
    let mut passes = List::new(alloc);
    for _sender in 0..senders {
        let pass = open_pass(queue, &mut taker.pass);
        passes.push(SendPass { pass })?;
    }
    Ok(passes)
}

// The pass of the next sender.
fn open_pass<E: Sent>(queue: &Mail<E>, taker: &mut Pass<E, View<E>>) -> Pass<E, View<E>>
    requires pass { IsPassOf queue.now taker.old }
    requires taker { (view taker.old).takes ≡ true }
    ensures passes { IsPassOf queue.now taker.new × IsPassOf queue.now result }
    ensures views { (view taker.new ≡ opened_one (view taker.old)) × (view result ≡ newcomer (view taker.old)) }
{
    queue.another::<Orderly<E>>(taker)
}
