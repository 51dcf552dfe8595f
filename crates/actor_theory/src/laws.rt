ghost use Rattle.std.specs.Prelude.{◌≡◌, ℕ, ◌<◌, ◌⊎◌, List, [], ◌∷◌, ◌++◌, Some, true, map, Option};
ghost use Rattle.std.proofs.Common.{inr};
ghost use Rattle.actor_theory.specs.Language.{Language};
ghost use Rattle.actor_theory.specs.World.{World, IsFinished, finds, given, handled};
ghost use Rattle.actor_theory.specs.Faithful.{BeginsWithBoot, IsBoot, IsFaithfulRun, IsReaderQuiet, IsScheduledRun};
ghost use Rattle.actor_theory.specs.Holds.{Handles, Holds, Posts, Works};
ghost use Rattle.actor_theory.specs.Caused.{IsCausal};
ghost use Rattle.actor_theory.specs.Order.{Handling, IsOrder, IsReplayed, order_of};
ghost use Rattle.actor_theory.specs.Potential.{IsMeasure, potential};
ghost use Rattle.actor_theory.specs.Joined.{Reader, Slots, joined};
ghost use Rattle.actor_theory.specs.Kept.{IsFaithful, IsKept, IsScheduled, Kept, world_of_kept};
ghost use Rattle.actor_theory.specs.Replay.{IsReplayedKept};
ghost use Rattle.actor_theory.specs.Machine.{Stand};
ghost use Rattle.actor_theory.specs.Measure.{IsJoinedLog, IsReaderMeasure, IsSlotMeasure, joined_cost, joined_weight};
ghost use Rattle.actor_theory.specs.declared.entry.Entry.{Entry};

/// Whatever the language, the items and the picks: what a schedule makes is faithful.
pub fn scheduled_is_faithful<S, R, X, C, I>()
    ensures { (contexts : ℕ) (A : Slots S C) (B : Reader R C I) (shows : S → X) (items : List I) (picks : List (ℕ × Option ℕ)) (kept : Kept X C I) → IsScheduled contexts A B shows items picks kept → IsFaithful contexts A B shows items kept }
{}

/// A schedule makes one record.
pub fn schedule_makes_one<S, R, X, C, I>()
    ensures { (contexts : ℕ) (A : Slots S C) (B : Reader R C I) (shows : S → X) (items : List I) (picks : List (ℕ × Option ℕ)) (kept other : Kept X C I) → IsScheduled contexts A B shows items picks kept → IsScheduled contexts A B shows items picks other → kept ≡ other }
{}

/// Where all is posted, rounds until one handles nothing give a faithful record.
pub fn finish_is_faithful<S, R, X, C, I>()
    ensures { (contexts : ℕ) (A : Slots S C) (B : Reader R C I) (shows : S → X) (items : List I) (v w : World (C ⊎ I)) (outbox : ℕ → ℕ → List (Entry (C ⊎ I))) (kept : Kept X C I) → Holds (joined contexts A B) (map inr items) v outbox → ((s d : ℕ) → outbox s d ≡ []) → BeginsWithBoot (joined contexts A B) v → IsFinished (joined contexts A B) true v w → IsKept contexts A B shows w kept → IsFaithful contexts A B shows items kept }
{}

/// A faithful record, handled again in the order of its numbers, finds each of its entries, and is the record that this gives.
pub fn order_is_a_run<S, R, X, C, I>()
    ensures { (contexts : ℕ) (A : Slots S C) (B : Reader R C I) (shows : S → X) (items : List I) (kept : Kept X C I) → IsFaithful contexts A B shows items kept → IsReplayedKept contexts A B shows items kept }
{}

/// In a faithful record each entry has a cause, and a greater number than it.
pub fn faithful_is_causal<S, R, X, C, I>()
    ensures { (contexts : ℕ) (A : Slots S C) (B : Reader R C I) (shows : S → X) (items : List I) (kept : Kept X C I) → IsFaithful contexts A B shows items kept → IsCausal (joined contexts A B) (world_of_kept contexts kept) }
{}

/// A faithful record's logs and queues are those of a faithful run.
pub fn faithful_is_a_run<S, R, X, C, I>()
    ensures { (contexts : ℕ) (A : Slots S C) (B : Reader R C I) (shows : S → X) (items : List I) (kept : Kept X C I) → IsFaithful contexts A B shows items kept → IsFaithfulRun (joined contexts A B) (map inr items) (world_of_kept contexts kept) }
{}

/// Among contexts the reader sends itself nothing but its items.
pub fn reader_is_quiet<S, R, C, I>()
    ensures { (contexts : ℕ) (A : Slots S C) (B : Reader R C I) → IsReaderQuiet (joined contexts A B) }
{}

/// Over any language: a schedule makes one world, and its logs are faithful.
pub fn schedule_is_a_run<S, C>()
    ensures faithful { (L : Language S C) (items : List C) (picks : List (ℕ × Option ℕ)) (w : World C) → IsReaderQuiet L → IsScheduledRun L items picks w → IsFaithfulRun L items w }
    ensures one { (L : Language S C) (items : List C) (picks : List (ℕ × Option ℕ)) (v w : World C) → IsScheduledRun L items picks v → IsScheduledRun L items picks w → v ≡ w }
{}

/// What holds between parts that run beside each other is kept when one of them posts an entry, and when one handles an entry.
pub fn parts_keep<S, C>()
    ensures posts { (L : Language S C) (items : List C) (w v : World C) (outbox outbox' : ℕ → ℕ → List (Entry C)) (s d : ℕ) (e : Entry C) → Posts w v outbox outbox' s d e → Holds L items w outbox → Holds L items v outbox' }
    ensures handles { (L : Language S C) (items : List C) (w v : World C) (outbox outbox' : ℕ → ℕ → List (Entry C)) (d : ℕ) (e : Entry C) → Handles L w v outbox outbox' d e → Holds L items w outbox → Holds L items v outbox' }
{}

/// What holds between parts is kept by any number of their steps, in any interleaving.
pub fn work_keeps<S, C>()
    ensures holds { (L : Language S C) (items : List C) (w v : World C) (outbox outbox' : ℕ → ℕ → List (Entry C)) (taken : ℕ → List (Entry C)) (posted : ℕ → ℕ → List (Entry C)) → Works L w v outbox outbox' taken posted → Holds L items w outbox → Holds L items v outbox' }
    ensures begins { (L : Language S C) (w v : World C) (outbox outbox' : ℕ → ℕ → List (Entry C)) (taken : ℕ → List (Entry C)) (posted : ℕ → ℕ → List (Entry C)) → Works L w v outbox outbox' taken posted → BeginsWithBoot L w → BeginsWithBoot L v }
{}

/// Boot, with the items there, gives what the parts begin with; and they go on to begin with boot.
pub fn parts_begin<S, C>()
    ensures boot { (L : Language S C) (items : List C) (w : World C) → IsReaderQuiet L → IsBoot L w → Holds L items (given L items w) (λ s d. []) × BeginsWithBoot L (given L items w) }
    ensures posts { (L : Language S C) (w v : World C) (outbox outbox' : ℕ → ℕ → List (Entry C)) (s d : ℕ) (e : Entry C) → Posts w v outbox outbox' s d e → BeginsWithBoot L w → BeginsWithBoot L v }
    ensures handles { (L : Language S C) (w v : World C) (outbox outbox' : ℕ → ℕ → List (Entry C)) (d : ℕ) (e : Entry C) → Handles L w v outbox outbox' d e → BeginsWithBoot L w → BeginsWithBoot L v }
{}

/// The handlings of faithful logs have an order by number, and each order is a run that gives the logs again.
pub fn logs_are_replayed<S, C>()
    ensures found { (L : Language S C) (items : List C) (w : World C) → IsFaithfulRun L items w → IsOrder L w (order_of L w) }
    ensures replayed { (L : Language S C) (items : List C) (w : World C) (hs : List (Handling C)) → IsFaithfulRun L items w → IsOrder L w hs → IsReplayed L items w hs }
{}

/// The measures of contexts and of a reader are one of both.
pub fn measures_join<S, R, C, I>()
    ensures { (contexts : ℕ) (A : Slots S C) (B : Reader R C I) (slot_weight : S → ℕ) (reader_weight : R → ℕ) (cost : ℕ → Entry C → ℕ) (item_cost : I → ℕ) → IsSlotMeasure contexts A slot_weight cost → IsReaderMeasure contexts B reader_weight cost item_cost → IsMeasure (joined contexts A B) (IsJoinedLog contexts) (joined_weight slot_weight reader_weight) (joined_cost cost item_cost) }
{}

/// A handling lowers the potential, where a weight pays for what is sent.
pub fn handling_lowers<S, R, C, I>()
    ensures { (contexts : ℕ) (A : Slots S C) (B : Reader R C I) (weight : S ⊎ R → ℕ) (cost : ℕ → Entry (C ⊎ I) → ℕ) → IsMeasure (joined contexts A B) (IsJoinedLog contexts) weight cost → (w : World (C ⊎ I)) (d s : ℕ) (e : Entry (C ⊎ I)) (rest : List (Entry (C ⊎ I))) → finds (joined contexts A B) w d s ≡ Some (e, rest) → IsJoinedLog contexts d (w.log d ++ e ∷ []) → potential (joined contexts A B) weight cost (handled (joined contexts A B) w d e rest) < potential (joined contexts A B) weight cost w }
{}
