ghost use Rattle.std.specs.Prelude.{◌≡◌, ℕ, ◌<◌, List, [], ◌∷◌, ◌++◌, length, false};
ghost use Rattle.actor_theory.specs.declared.entry.Entry.{Entry};
ghost use Rattle.actor_theory.specs.Joined.{Slots, Reader};
ghost use Rattle.actor_theory.specs.Language.{Sent, stamped};
ghost use Rattle.actor_theory.specs.Machine.{delivered, loaded_queues, queue_at};
ghost use Rattle.worker_theory.specs.Working.{Gathered, IsHolding, Sender, Source, SlotWorked, SourceWorked, fresh_senders, fresh_source, put, sender_after, source_after_entry, source_after_item};

/// What holds of parts and queues before workers run holds of what they leave.
pub fn workers_keep<S, R, C, I>()
    ensures { (contexts : ℕ) (A : Slots S C) (B : Reader R C I) (items : List I) (senders senders' : List (Sender S C)) (source source' : Source R C I) (queued queued' : List (List (Entry C))) → Gathered contexts A B senders source queued senders' source' queued' → IsHolding contexts A B items senders source queued → IsHolding contexts A B items senders' source' queued' }
{}

/// What workers may begin with: nothing handled or sent, the loads queued, and the items to come.
pub fn fresh_holds<S, R, C, I>()
    ensures { (contexts : ℕ) (A : Slots S C) (B : Reader R C I) (items : List I) → IsHolding contexts A B items (fresh_senders A contexts contexts) (fresh_source B contexts items) (loaded_queues contexts B) }
{}

/// A slot's worker has done nothing at first; posting what left an outbox, and handling an entry from its hands or one that
/// came by mail, goes on with what it has done.
pub fn slot_goes_on<S, C>()
    ensures begins { (A : Slots S C) (slot : ℕ) (x : Sender S C) (hand got : List (Entry C)) (posted : ℕ → List (Entry C)) → got ≡ [] → ((k : ℕ) → posted k ≡ []) → SlotWorked A slot x hand x hand got posted }
    ensures posts { (A : Slots S C) (slot : ℕ) (from : Sender S C) (hand : List (Entry C)) (now now' : Sender S C) (left got : List (Entry C)) (posted posted' sent : ℕ → List (Entry C)) → now'.cell ≡ now.cell → length now'.boxes ≡ length now.boxes → ((k : ℕ) → queue_at now.boxes k ≡ sent k ++ queue_at now'.boxes k) → ((k : ℕ) → posted' k ≡ posted k ++ sent k) → SlotWorked A slot from hand now left got posted → SlotWorked A slot from hand now' left got posted' }
    ensures handles { (A : Slots S C) (slot : ℕ) (from : Sender S C) (hand : List (Entry C)) (now now' : Sender S C) (left left' got got' : List (Entry C)) (posted : ℕ → List (Entry C)) (e : Entry C) (new : List (Entry C)) → A.is_spent now.cell.state ≡ false → left ++ new ≡ e ∷ left' → got' ≡ got ++ new → now' ≡ sender_after A slot now e → SlotWorked A slot from hand now left got posted → SlotWorked A slot from hand now' left' got' posted }
{}

/// The reader's worker has done nothing at first; posting, handling an entry, and taking an item go on with what it has done.
pub fn reader_goes_on<R, C, I>()
    ensures begins { (B : Reader R C I) (contexts : ℕ) (x : Source R C I) (hand got : List (Entry C)) (posted : ℕ → List (Entry C)) → got ≡ [] → ((k : ℕ) → posted k ≡ []) → SourceWorked B contexts x hand x hand got posted }
    ensures posts { (B : Reader R C I) (contexts : ℕ) (from : Source R C I) (hand : List (Entry C)) (now now' : Source R C I) (left got : List (Entry C)) (posted posted' sent : ℕ → List (Entry C)) → now'.cell ≡ now.cell → length now'.boxes ≡ length now.boxes → ((k : ℕ) → queue_at now.boxes k ≡ sent k ++ queue_at now'.boxes k) → ((k : ℕ) → posted' k ≡ posted k ++ sent k) → SourceWorked B contexts from hand now left got posted → SourceWorked B contexts from hand now' left got posted' }
    ensures handles { (B : Reader R C I) (contexts : ℕ) (from : Source R C I) (hand : List (Entry C)) (now now' : Source R C I) (left left' got got' : List (Entry C)) (posted : ℕ → List (Entry C)) (e : Entry C) (new : List (Entry C)) → left ++ new ≡ e ∷ left' → got' ≡ got ++ new → now' ≡ source_after_entry B now e → SourceWorked B contexts from hand now left got posted → SourceWorked B contexts from hand now' left' got' posted }
    ensures takes { (B : Reader R C I) (contexts : ℕ) (from : Source R C I) (hand : List (Entry C)) (now now' : Source R C I) (left got : List (Entry C)) (posted : ℕ → List (Entry C)) (i : I) (rest : List I) → now.cell.rest ≡ i ∷ rest → now' ≡ source_after_item B contexts now i rest → SourceWorked B contexts from hand now left got posted → SourceWorked B contexts from hand now' left got posted }
{}

/// What is sent goes into the outboxes one entry after another.
pub fn boxes_fill<C>()
    ensures none { (s number : ℕ) (boxes : List (List (Entry C))) → delivered s number [] boxes ≡ boxes }
    ensures more { (s number : ℕ) (x : Sent C) (xs : List (Sent C)) (boxes : List (List (Entry C))) → x.target < length boxes → delivered s number xs (put x.target (stamped s number x) boxes) ≡ delivered s number (x ∷ xs) boxes }
{}
