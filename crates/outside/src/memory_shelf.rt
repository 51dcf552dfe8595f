ghost use Rattle.std.specs.Prelude.{◌≡◌, ◌<◌, length};

use crate::plan::Plan;
use crate::store::Store;
use crate::{Calls, Found, Got, Shelf, Source, StoredFiles};
use epl_values::Text;

/// Files in memory. Of its calls of `begin` and `read`, counted together from 1, the planned ones fail.
#[derive(Debug, Drop)]
pub struct MemoryShelf {
    store: Store,
    plan: Plan,
    faults: u64,
    missed: u64,
}

impl MemoryShelf {
    ghost use Rattle.std.specs.Prelude.{Some};
    ghost use Rattle.outside.specs.Stored.{first_told};

    /// These files, of which none is begun. The calls with the numbers in `failing` fail.
    pub fn new(files: StoredFiles, failing: Calls) -> MemoryShelf
        ensures plan { (result.plan.calls ≡ 0) × (result.plan.failing ≡ failing) }
        ensures faults { ⟦<MemoryShelf as Source>⟧.faults result ≡ 0 }
        ensures missed { ⟦<MemoryShelf as Source>⟧.missed result ≡ 0 }
        ensures told { ⟦<MemoryShelf as Source>⟧.told result ≡ Some (first_told files) }
    {
        MemoryShelf {
            store: Store::new(files),
            plan: Plan::new(failing),
            faults: 0,
            missed: 0,
        }
    }
}

impl Source for MemoryShelf {
    ghost use Rattle.std.specs.Prelude.{Some};
    ghost use Rattle.outside.specs.Counts.{Counts};
    ghost use Rattle.outside.specs.Plan.{counted, next_fails};
    ghost use Rattle.outside.specs.Stored.{store_told};
    ghost use Rattle.outside.specs.Told.{after_read, ReadGives, GotWithin, is_failed_got};

    ghost faults = { λ s. s.faults };

    ghost missed = { λ s. s.missed };

    ghost told = { λ s. Some (store_told s.store) };

    fn read(&mut self, into: &mut [u8]) -> Got
        requires { 0 < length into.old }
        ensures within { GotWithin result (length into.old) }
        ensures faults { Counts (is_failed_got result) self.old.faults self.new.faults }
        ensures missed { self.new.missed ≡ self.old.missed }
        ensures leaves { store_told self.new.store ≡ after_read result (store_told self.old.store) }
        ensures gives { ReadGives (store_told self.old.store).rest result into.new }
        ensures plan { self.new.plan ≡ counted self.old.plan }
        ensures fails { is_failed_got result ≡ next_fails self.old.plan }
    {
        if self.plan.fails() {
            self.faults = self.faults.saturating_add(1);
            return Got::Failed;
        }
        self.store.read(into)
    }
}

impl Shelf for MemoryShelf {
    ghost use Rattle.outside.specs.Counts.{Counts};
    ghost use Rattle.outside.specs.Plan.{counted, next_fails};
    ghost use Rattle.outside.specs.Stored.{file_in, store_told};
    ghost use Rattle.outside.specs.Told.{after_begin, BeginGives, is_failed_found, is_missing};

    fn begin(&mut self, name: Text) -> Found
        ensures faults { Counts (is_failed_found result) self.old.faults self.new.faults }
        ensures missed { Counts (is_missing result) self.old.missed self.new.missed }
        ensures leaves { store_told self.new.store ≡ after_begin name result (store_told self.old.store) }
        ensures gives { BeginGives (file_in self.old.store.files name) result }
        ensures plan { self.new.plan ≡ counted self.old.plan }
        ensures fails { is_failed_found result ≡ next_fails self.old.plan }
    {
        if self.plan.fails() {
            self.store.close(name);
            self.faults = self.faults.saturating_add(1);
            return Found::Failed;
        }
        let found = self.store.begin(name);
        if found == Found::Missing {
            self.missed = self.missed.saturating_add(1);
        }
        found
    }
}
