ghost use Rattle.std.specs.Prelude.{map, string_bytes};
ghost use Rattle.correlator_run.specs.Promise.{KeepsPromise};

use correlator_run::{Outcome, correlate_serial};
use outside::{Shelf, Sink};
use record_book::Record;
use std::alloc::Global;
use std::snapshot::Snapshot;

/// What the top call is handed, owned, so that it can go into a thread: the words, the files, and the two outputs.
#[derive(Drop)]
pub struct Call<H: Shelf + Drop, W: Sink + Drop, V: Sink + Drop> {
    pub words: Vec<String>,
    pub shelf: H,
    pub out: W,
    pub err: V,
}

/// What the top call leaves. The record is only remembered: the thread that made it lets it go, since a deep value is let go
/// on the native stack too.
#[derive(Drop)]
pub struct Left<H: Shelf + Drop, W: Sink + Drop, V: Sink + Drop> {
    pub status: u8,
    pub kept: Snapshot<Option<Record>>,
    pub shelf: H,
    pub out: W,
    pub err: V,
}

/// The top call over what it owns.
pub fn correlate_call<H: Shelf + Drop, W: Sink + Drop, V: Sink + Drop>(
    alloc: Global,
    call: Call<H, W, V>,
) -> Left<H, W, V>
    ensures { KeepsPromise (map string_bytes call.words.items) (record { shelf = record { faults = H.faults call.shelf; missed = H.missed call.shelf; told = H.told call.shelf }; out = record { faults = W.faults call.out; taken = W.taken call.out; room = W.room call.out } }) (record { shelf = record { faults = H.faults result.shelf; missed = H.missed result.shelf; told = H.told result.shelf }; out = record { faults = W.faults result.out; taken = W.taken result.out; room = W.room result.out } }) result.status result.kept.value }
{
    let Call {
        words,
        mut shelf,
        mut out,
        mut err,
    } = call;
    let Outcome { status, kept } = correlate_serial(
        alloc,
        words.as_slice(),
        &mut shelf,
        &mut out,
        &mut err,
    );
    let seen = Snapshot::of(&kept);
    drop(kept);
    Left {
        status,
        kept: seen,
        shelf,
        out,
        err,
    }
}
