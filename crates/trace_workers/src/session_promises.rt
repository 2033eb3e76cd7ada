//! A law of sessions that rest, by which the laws of runs show that transcripts fit their input. The function does nothing.
ghost use Rattle.std.specs.Prelude.{◌≡◌, ℕ, true, List, [], ◌∷◌, map};
ghost use Rattle.audit.specs.declared.account.Transcript.{Transcript};
ghost use Rattle.audit.specs.Fits.{Fits};
ghost use Rattle.audit.specs.RunOf.{IsTraceEnd};
ghost use Rattle.audit.specs.broker.books.Told.{told};
ghost use Rattle.shared_broker.specs.Passes.{transcripts_of};
ghost use Rattle.trace_workers.specs.Received.{HasReceived};
ghost use Rattle.trace_workers.specs.Resting.{Rests};
ghost use Rattle.trace_workers.specs.Sessions.{SessionView};

/// Law: a session that was named and rests has one transcript, in the form that an account has it, and that fits all that the session received.
pub fn resting_sessions_fit()
    ensures { (input : List ℕ) (s : SessionView) → s.is_named ≡ true → HasReceived input s → Rests s
        → (transcript : Transcript) × (map told (transcripts_of s.pass) ≡ transcript ∷ []) × (transcript.number ≡ s.number)
        × Fits input s.is_shut transcript × IsTraceEnd transcript.end }
{}
