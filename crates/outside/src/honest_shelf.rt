ghost use Rattle.std.specs.Prelude.{◌≡◌, ◌<◌, length, false};

use crate::store::Store;
use crate::{Found, Got, Shelf, Source, StoredFiles};
use epl_values::Text;

/// Files in memory that never fail: no call takes memory, and no count of faults rises.
#[derive(Debug, Drop)]
pub struct HonestShelf {
    store: Store,
    missed: u64,
}

impl HonestShelf {
    ghost use Rattle.std.specs.Prelude.{Some};
    ghost use Rattle.outside.specs.Stored.{first_told};

    /// These files, of which none is begun.
    pub fn new(files: StoredFiles) -> HonestShelf
        ensures faults { ⟦<HonestShelf as Source>⟧.faults result ≡ 0 }
        ensures missed { ⟦<HonestShelf as Source>⟧.missed result ≡ 0 }
        ensures told { ⟦<HonestShelf as Source>⟧.told result ≡ Some (first_told files) }
    {
        HonestShelf {
            store: Store::new(files),
            missed: 0,
        }
    }
}

impl Source for HonestShelf {
    ghost use Rattle.std.specs.Prelude.{Some};
    ghost use Rattle.outside.specs.Stored.{store_told};
    ghost use Rattle.outside.specs.Told.{after_read, ReadGives, GotWithin, is_failed_got};

    ghost faults = { λ _. 0 };

    ghost missed = { λ s. s.missed };

    ghost told = { λ s. Some (store_told s.store) };

    fn read(&mut self, into: &mut [u8]) -> Got {
        self.store.read(into)
    }
}

impl Shelf for HonestShelf {
    fn begin(&mut self, name: Text) -> Found {
        let found = self.store.begin(name);
        if found == Found::Missing {
            self.missed = self.missed.saturating_add(1);
        }
        found
    }
}
