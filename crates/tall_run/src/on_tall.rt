ghost use Rattle.std.specs.Prelude.{map, string_bytes};
ghost use Rattle.correlator_run.specs.Promise.{KeepsPromise};

use crate::{Call, Left, correlate_call};
use outside::{Shelf, Sink};
use stacks::on_stack;
use std::alloc::Global;
use std::snapshot::Snapshot;
use std::thread::{Promise, Threads};

/// How large the stack of the top call is, in bytes. It is address space alone until it is used.
const TALL: usize = 512 << 20;

/// What the thread of the top call promises of what it leaves.
#[derive(Drop)]
pub struct TopPromise<H: Shelf + Drop, W: Sink + Drop, V: Sink + Drop>(Snapshot<Call<H, W, V>>);

impl<H: Shelf + Drop, W: Sink + Drop, V: Sink + Drop> Promise<Left<H, W, V>>
    for TopPromise<H, W, V> {
    ghost kept_by = { λ p r. KeepsPromise (map string_bytes p.0.value.words.items) (record { shelf = record { faults = H.faults p.0.value.shelf; missed = H.missed p.0.value.shelf; told = H.told p.0.value.shelf }; out = record { faults = W.faults p.0.value.out; taken = W.taken p.0.value.out; room = W.room p.0.value.out } }) (record { shelf = record { faults = H.faults r.shelf; missed = H.missed r.shelf; told = H.told r.shelf }; out = record { faults = W.faults r.out; taken = W.taken r.out; room = W.room r.out } }) r.status r.kept.value };
}

/// The top call on a thread of its own with a tall stack, or with half of it, and so on; at last on this thread's own, where no
/// such thread can be had.
pub fn correlate_tall<
    H: Shelf + Drop + Send + 'static,
    W: Sink + Drop + Send + 'static,
    V: Sink + Drop + Send + 'static,
    R: Threads,
>(rt: &R, alloc: Global, call: Call<H, W, V>) -> Left<H, W, V>
    ensures { KeepsPromise (map string_bytes call.words.items) (record { shelf = record { faults = H.faults call.shelf; missed = H.missed call.shelf; told = H.told call.shelf }; out = record { faults = W.faults call.out; taken = W.taken call.out; room = W.room call.out } }) (record { shelf = record { faults = H.faults result.shelf; missed = H.missed result.shelf; told = H.told result.shelf }; out = record { faults = W.faults result.out; taken = W.taken result.out; room = W.room result.out } }) result.status result.kept.value }
{
    let promise = TopPromise(Snapshot::of(&call));
    on_stack(rt, &promise, TALL, move || correlate_call(alloc, call))
}
