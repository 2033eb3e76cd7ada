//! Laws of the entries that a lock sees, for the crates above. They do nothing.
ghost use Rattle.std.specs.Prelude.{◌≡◌, ◌≤◌, ℕ, List, [], drop, map, slice_get, Some, Option};
ghost use Rattle.partlog.specs.declared.clock_event.ClockEvent.{ClockEvent};
ghost use Rattle.partlog.specs.History.{History};
ghost use Rattle.partlog.specs.Kept.{IsKept};
ghost use Rattle.audit.specs.Histories.{clock_owner_of, owner_of};
ghost use Rattle.audit.specs.broker.GoesOn.{Longer, the_owner};
ghost use Rattle.turn_lock.specs.OfPass.{of_pass};
ghost use Rattle.turn_lock.specs.StartsWith.{StartsWith};
ghost use Rattle.shared_logs.specs.declared.entries.ClockEntry.{ClockEntry};
ghost use Rattle.shared_logs.specs.declared.entries.LogEntry.{LogEntry};
ghost use Rattle.shared_logs.specs.Desks.{MomentView, PartView, moment_name, part_name};
ghost use Rattle.shared_logs.specs.Entries.{clock_by, clock_entries, entry_by, log_entries};
ghost use Rattle.shared_logs.specs.Histories.{events_of, history_of};

/// Law: where the entries go on, the histories do. Of a partition so do the log's bytes.
pub fn histories_go_on()
    ensures part { (h later : History) → IsKept h.log h.events → IsKept later.log later.events → later.followers ≡ h.followers
        → StartsWith (log_entries later) (log_entries h) → Longer h later }
    ensures clock { (events later : List ClockEvent) (tickers after : List ℕ)
        → StartsWith (clock_entries later after) (clock_entries events tickers) → StartsWith later events }
{}

/// Law: the entries fix the histories that they are of. Of a partition they fix the log's bytes too.
pub fn entries_tell_histories()
    ensures part { (h : History) → IsKept h.log h.events → history_of h.followers (log_entries h) ≡ h }
    ensures clock { (events : List ClockEvent) (tickers : List ℕ) → events_of (clock_entries events tickers) ≡ events }
{}

/// Law: desks of one name are of one partition, with as many followers, and of one room; or of one room's clock.
pub fn names_fix_desks()
    ensures part { (a b : PartView) → part_name a ≡ part_name b → a.part ≡ b.part }
    ensures followers { (a b : PartView) → part_name a ≡ part_name b → a.history.followers ≡ b.history.followers }
    ensures room { (a b : PartView) → part_name a ≡ part_name b → a.sources.high.table ≡ b.sources.high.table }
    ensures gauge { (a b : MomentView) → moment_name a ≡ moment_name b → a.source.gauge ≡ b.source.gauge }
    ensures clock_room { (a b : MomentView) → moment_name a ≡ moment_name b → a.source.table ≡ b.source.table }
{}

/// Law: the entry of an event names the pass that owns the event.
pub fn entries_name_owners()
    ensures part { (h : History) (place by seq : ℕ) → slice_get (map owner_of h.events) place ≡ Some (the_owner by seq)
        → (entry : LogEntry) × (slice_get (log_entries h) place ≡ Some entry) × (entry_by entry ≡ by) }
    ensures clock { (events : List ClockEvent) (tickers : List ℕ) (place by seq : ℕ)
        → slice_get (map clock_owner_of events) place ≡ Some (the_owner by seq)
        → (entry : ClockEntry) × (slice_get (clock_entries events tickers) place ≡ Some entry) × (clock_by entry ≡ by) }
{}

/// Law: where a pass has no entry from a place on, it owns no event from there on.
pub fn entries_of_others()
    ensures part { (h : History) (pass first place seq : ℕ) → of_pass entry_by pass (drop first (log_entries h)) ≡ [] → first ≤ place
        → slice_get (map owner_of h.events) place ≡ Some (the_owner pass seq) → ⊥ }
    ensures clock { (events : List ClockEvent) (tickers : List ℕ) (pass first place seq : ℕ)
        → of_pass clock_by pass (drop first (clock_entries events tickers)) ≡ [] → first ≤ place
        → slice_get (map clock_owner_of events) place ≡ Some (the_owner pass seq) → ⊥ }
{}
