//! Laws of a partition's replicas, over every history. They do nothing.
ghost use Rattle.std.specs.Prelude.{◌≡◌, ◌≢◌, ◌↔◌, ℕ, ◌+◌, ◌≤◌, List, [], ◌∷◌, ◌++◌, length, min, fold, IsTrue, IsFalse};
ghost use Rattle.partlog.specs.in_sync.ReplicaEvent.{ReplicaEvent, Fetched, Left};
ghost use Rattle.partlog.specs.in_sync.LogEnd.{log_end_of};
ghost use Rattle.partlog.specs.in_sync.Position.{position_of, positions_of};
ghost use Rattle.partlog.specs.in_sync.InSync.{in_sync_of, high_watermark_of, count_of};
ghost use Rattle.partlog.specs.in_sync.CaughtUp.{caught_up_of};
ghost use Rattle.partlog.specs.in_sync.Lagging.{IsFollower, Lags, lags};
ghost use Rattle.partlog.specs.in_sync.NobodyLeft.{NobodyLeft};
ghost use Rattle.partlog.specs.in_sync.Standings.{Standings, StandsFor};
ghost use Rattle.partlog.specs.in_sync.Worked.{one_record, taken_out, without_it, still_out, back_in, third_record, asked_once};

/// Law: while a history only grows, the high watermark doesn't fall, whoever leaves the in-sync set or comes back. It is
/// never above the log end.
pub fn high_watermark_never_falls()
    ensures grown { (followers : ℕ) (events more : List ReplicaEvent)
        → high_watermark_of followers events ≤ high_watermark_of followers (events ++ more) }
    ensures within { (followers : ℕ) (events : List ReplicaEvent) → high_watermark_of followers events ≤ log_end_of events }
{}

/// Law: while nobody has left the in-sync set all are in it, and the high watermark is the least of the log end and all
/// positions.
pub fn nobody_left()
    ensures in_sync { (followers : ℕ) (events : List ReplicaEvent) (replica : ℕ) → NobodyLeft events
        → IsTrue (in_sync_of followers events replica) }
    ensures high_watermark { (followers : ℕ) (events : List ReplicaEvent) → NobodyLeft events
        → high_watermark_of followers events ≡ fold min (log_end_of events) (positions_of followers events) }
    ensures count { (followers : ℕ) (events : List ReplicaEvent) → NobodyLeft events
        → count_of followers events ≡ 1 + followers }
{}

/// Law: a replica that has just left isn't in sync. One that fetches from the high watermark or above it is, and so is one
/// that fetches from the log end.
pub fn in_sync_again()
    ensures left { (followers : ℕ) (events : List ReplicaEvent) (replica t : ℕ)
        → IsFalse (in_sync_of followers (events ++ Left replica t ∷ []) replica) }
    ensures from_high_watermark { (followers : ℕ) (events : List ReplicaEvent) (replica offset t : ℕ)
        → high_watermark_of followers events ≤ offset
        → IsTrue (in_sync_of followers (events ++ Fetched replica offset t ∷ []) replica) }
    ensures from_log_end { (followers : ℕ) (events : List ReplicaEvent) (replica offset t : ℕ)
        → log_end_of events ≤ offset
        → IsTrue (in_sync_of followers (events ++ Fetched replica offset t ∷ []) replica) }
{}

/// Law: the test for lagging agrees with what lagging is, of each follower. A replica that has left doesn't lag, and each
/// other one lags as before.
pub fn lagging_is_tested()
    ensures agrees { (followers : ℕ) (events : List ReplicaEvent) (t replica : ℕ) → IsFollower replica followers
        → (IsTrue (lags followers events t replica) ↔ Lags followers events t replica) }
    ensures left { (followers : ℕ) (events : List ReplicaEvent) (replica at t : ℕ)
        → IsFalse (lags followers (events ++ Left replica at ∷ []) t replica) }
    ensures others { (followers : ℕ) (events : List ReplicaEvent) (left at t replica : ℕ) → left ≢ replica
        → lags followers (events ++ Left left at ∷ []) t replica ≡ lags followers events t replica }
{}

/// Law: what is kept for a history has a standing for each follower, and the log end and the high watermark of the history.
pub fn standings_say()
    ensures followers { (standings : Standings) (followers : ℕ) (events : List ReplicaEvent)
        → StandsFor standings followers events → length standings.followers ≡ followers }
    ensures log_end { (standings : Standings) (followers : ℕ) (events : List ReplicaEvent)
        → StandsFor standings followers events → standings.log_end ≡ log_end_of events }
    ensures high_watermark { (standings : Standings) (followers : ℕ) (events : List ReplicaEvent)
        → StandsFor standings followers events → standings.high_watermark ≡ high_watermark_of followers events }
{}

/// Law: of worked histories with one follower. In one, a record is appended that it doesn't fetch. It lags after 30,000 milliseconds
/// and not one earlier, and leaves. From then on the high watermark is the log end, 1, and 2 after another record. A fetch
/// from 1 leaves it out, and one from 2 takes it in. A third record doesn't raise the high watermark: the follower hasn't
/// fetched it. In another history, a fetch that asks for all that was there at the one before reaches the moment of that
/// one, one that asks for less reaches none, and one from the log end reaches its own.
pub fn worked_histories()
    ensures not_yet { Lags 1 one_record 29999 1 → ⊥ }
    ensures lags { Lags 1 one_record 30000 1 }
    ensures left { (high_watermark_of 1 taken_out ≡ 1) × (count_of 1 taken_out ≡ 1) }
    ensures alone { high_watermark_of 1 without_it ≡ 2 }
    ensures still_out { IsFalse (in_sync_of 1 still_out 1) × (position_of still_out 1 ≡ 1) }
    ensures back { IsTrue (in_sync_of 1 back_in 1) × (count_of 1 back_in ≡ 2) × (high_watermark_of 1 back_in ≡ 2) }
    ensures waits { (high_watermark_of 1 third_record ≡ 2) × (log_end_of third_record ≡ 3) }
    ensures all_of_then { caught_up_of (asked_once ++ Fetched 1 2 2000 ∷ []) 1 ≡ 1000 }
    ensures not_all { caught_up_of (asked_once ++ Fetched 1 1 2000 ∷ []) 1 ≡ 0 }
    ensures all_of_now { caught_up_of (asked_once ++ Fetched 1 7 2000 ∷ []) 1 ≡ 2000 }
{}
