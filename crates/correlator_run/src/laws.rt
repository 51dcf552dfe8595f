ghost use Rattle.std.specs.Prelude.{ℕ, List, Option};
ghost use Rattle.outside.specs.Told.{files_of};
ghost use Rattle.record_book.specs.declared.record.Record.{Record};
ghost use Rattle.correlator_run.specs.Completing.{Completes, Stayed, WordsStatus};
ghost use Rattle.correlator_run.specs.Promise.{KeepsPromise, Outside};

/// What follows from the promise of the top call. The status is 1 exactly where the words are no command, but for want of
/// memory. Where no count of faults rose, and the words and the files give a program and items, the run is done, or memory
/// was wanting.
pub fn promise_completes()
    ensures words { (words : List (List ℕ)) (before after : Outside) (status : ℕ) (kept : Option Record) → KeepsPromise words before after status kept → WordsStatus words status }
    ensures complete { (words : List (List ℕ)) (before after : Outside) (status : ℕ) (kept : Option Record) → KeepsPromise words before after status kept → Stayed before.shelf.faults after.shelf.faults → Stayed before.out.faults after.out.faults → Completes words (files_of before.shelf.told) status }
{}
