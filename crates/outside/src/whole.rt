ghost use Rattle.std.specs.Prelude.{◌≡◌, ◌≤◌, length, IfSome, IfOk, IsOk, IsErrOf};
ghost use Rattle.outside.specs.Answers.{WholeCounts, WholeGives, WholeLeaves, BeginsLast, SameFile, PutsAll, PutCounts, RoomLeft};
ghost use Rattle.outside.specs.Told.{files_of};

use crate::{Found, Got, Put, Shelf, Sink};
use epl_values::{Bytes, Text};
use std::alloc::{AllocError, Global};
use thiserror::Error;

/// Why a file is not had.
#[derive(Clone, Copy, Debug, PartialEq, Eq, Error)]
pub enum FileFault {
    #[error("there is no such file")]
    Missing,
    #[error("the file can't be read")]
    Read,
    #[error("the file is too long")]
    TooLong,
    #[error("there is no memory")]
    Memory,
}

impl From<AllocError> for FileFault {
    ghost use Rattle.std.specs.Prelude.{◌≡◌};
    ghost use Rattle.outside.specs.declared.whole.FileFault.TheVariants.{Memory};

    ghost from_gives = { λ _ e. e ≡ Memory };

    fn from(_error: AllocError) -> FileFault {
        FileFault::Memory
    }
}

/// The sink failed, and took a part of the bytes at most.
#[derive(Clone, Copy, Debug, PartialEq, Eq, Error)]
#[error("the bytes can't be written")]
pub struct WriteFault;

/// Puts all of the bytes, in as many pieces as the sink asks for. It takes no memory.
pub fn put_all<W: Sink>(sink: &mut W, bytes: &[u8]) -> Result<(), WriteFault>
    ensures puts { PutsAll result bytes.now (W.taken sink.old) (W.taken sink.new) }
    ensures counts { PutCounts result (W.faults sink.old) (W.faults sink.new) }
    ensures room { RoomLeft result (length bytes.now) (W.room sink.old) (W.room sink.new) }
    ensures fits { IfSome (W.room sink.old) (λ r. length bytes.now ≤ r → IsOk result) }
{
    let mut done = 0;
    'pieces: while done < bytes.len() {
        match sink.put(&bytes[done..]) {
            Put::Took(count) => {
                done += count;
            }
            Put::Failed => {
                return Err(WriteFault);
            }
        }
    }
    Ok(())
}

/// Reads the whole file of this name, if it has at most `most` bytes. Of a longer one it reads one byte more.
pub fn read_whole<H: Shelf>(
    alloc: Global,
    shelf: &mut H,
    name: &str,
    most: usize,
) -> Result<Bytes, FileFault>
    ensures gives { IfSome (files_of (H.told shelf.old)) (λ files. WholeGives (files name.now) most result) }
    ensures within { IfOk result (λ bytes. length bytes ≤ most) }
    ensures counts { WholeCounts result (record {
      faults_before = H.faults shelf.old;
      faults_now = H.faults shelf.new;
      missed_before = H.missed shelf.old;
      missed_now = H.missed shelf.new;
    }) }
    ensures files { files_of (H.told shelf.new) ≡ files_of (H.told shelf.old) }
    ensures begun { BeginsLast name.now result (H.told shelf.new) }
    ensures leaves { IfSome (H.told shelf.new) (λ t. WholeLeaves (t.files name.now) most result t.rest) }
{
    let own_name = Text::of(alloc, name)?;
    match shelf.begin(own_name) {
        Found::Here => read_rest(alloc, shelf, most),
        Found::Missing => Err(FileFault::Missing),
        Found::Failed => Err(FileFault::Read),
    }
}

// Reads the rest of the file begun last.
fn read_rest<H: Shelf>(alloc: Global, shelf: &mut H, most: usize) -> Result<Bytes, FileFault>
    ensures gives { IfSome (H.told shelf.old) (λ t. WholeGives (Some t.rest) most result) }
    ensures within { IfOk result (λ bytes. length bytes ≤ most) }
    ensures counts { WholeCounts result (record {
      faults_before = H.faults shelf.old;
      faults_now = H.faults shelf.new;
      missed_before = H.missed shelf.old;
      missed_now = H.missed shelf.new;
    }) }
    ensures never_missing { IsErrOf result FileFault.Missing → ⊥ }
    ensures kept { SameFile (H.told shelf.old) (H.told shelf.new) }
    ensures leaves { IfSome (H.told shelf.old) (λ t. IfSome (H.told shelf.new) (λ u. WholeLeaves (Some t.rest) most result u.rest)) }
{
    let mut bytes = Bytes::new(alloc);
    let mut piece = [0u8; 4096];
    'pieces: loop {
        let room = (most - bytes.len()).min(4095) + 1;
        match shelf.read(&mut piece[..room]) {
            Got::Bytes(count) => {
                if count > most - bytes.len() {
                    return Err(FileFault::TooLong);
                }
                bytes.append(&piece[..count])?;
            }
            Got::End => {
                return Ok(bytes);
            }
            Got::Failed => {
                return Err(FileFault::Read);
            }
        }
    }
}
