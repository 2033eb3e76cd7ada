//! Laws of playing lines. They do nothing.

ghost use Rattle.std.specs.Prelude.{◌≡◌, ◌∷◌, [], ℕ, pos, List, map};
ghost use Rattle.kbytes.specs.Octets.{IsBytes};
ghost use Rattle.audit.specs.declared.account.Account.{Account};
ghost use Rattle.audit.specs.IsLawful.{IsLawful};
ghost use Rattle.audit.specs.RunOf.{IsRunOf};
ghost use Rattle.trace_file.specs.declared.line.Line.{Line};
ghost use Rattle.trace_file.specs.Trace.{IsTrace};
ghost use Rattle.kwire.specs.Configuration.{Configuration};
ghost use Rattle.audit.specs.broker.AtRest.{IsAtRest};
ghost use Rattle.audit.specs.broker.Board.{opening, transcript_at};
ghost use Rattle.audit.specs.broker.Completing.{scanned};
ghost use Rattle.kwire.specs.DeclaredTopics.{AreDeclared};
ghost use Rattle.audit.specs.broker.Play.{IsPlay, Plays, brought};
ghost use Rattle.audit.specs.broker.Turns.{Turned};
ghost use Rattle.audit.specs.broker.Worked.{asking_for, board_with, fetched_behind, fetched_it, produced, produced_with};
ghost use Rattle.kwire.specs.declared.codes.TheConstants.{NONE, NOT_ENOUGH_REPLICAS_AFTER_APPEND, REQUEST_TIMED_OUT};
ghost use Rattle.partlog.specs.declared.event.PartEvent.TheVariants.{Append, Shrink};
ghost use Rattle.trace_file.specs.PrintedLine.{reply_line};
ghost use Rattle.trace_file.specs.declared.line.Line.TheVariants.{Clock};
ghost use Rattle.partlog.specs.declared.clock_event.ClockEvent.TheVariants.{Tick};
ghost use Rattle.audit.specs.declared.account.CallHow.TheVariants.{Expired, Satisfied};
ghost use Rattle.audit.specs.Histories.{calls_of, clock_part};
ghost use Rattle.audit.specs.Worked.{at, followed};
ghost use Rattle.audit.specs.broker.WorkedPlay.{body_of, polled, produce, worked_lines};
ghost use Rattle.trace_file.specs.Contents.{configuration_of, input_of};

/// Law: with any configuration, lines play to one account and one text. The lines may bring any bytes: requests that wait,
/// expire or are refused, frames that are too long or cut off, and bytes for a session that ended. There may be followers and
/// clock lines, and sessions may be closed.
pub fn lines_play()
    ensures some { (config : Configuration) (lines : List Line) → ((session : ℕ) → IsBytes (input_of session lines))
        → (account : Account) × (text : List ℕ) × IsPlay config lines account text }
    ensures once { (config : Configuration) (lines : List Line) (account other : Account) (text more : List ℕ)
        → IsPlay config lines account text → IsPlay config lines other more → (account ≡ other) × (text ≡ more) }
{}

/// Law: with topics as they may be declared, playing any lines gives a lawful account: with followers, requests that wait, are
/// satisfied, expire or are parked at the end, clock lines, closes, and whatever bytes the lines bring.
pub fn play_is_lawful()
    ensures { (config : Configuration) (lines : List Line) (account : Account) (text : List ℕ) → AreDeclared config.topics
        → IsPlay config lines account text → IsLawful account }
{}

/// Law: playing the lines of a trace, with its own topics, gives the account of their run: each session's transcript fits its
/// input, no call is cut off, and the ticks are those of the clock lines.
pub fn play_is_run()
    ensures { (text : List ℕ) (lines : List Line) (port : ℕ) (account : Account) (printed : List ℕ) → IsTrace text lines
        → IsPlay (configuration_of port lines) lines account printed → IsRunOf lines port [] [] account }
{}

/// Law: after any lines no waiting request is answerable by the histories and the clock as they are, and no session can act.
pub fn play_rests()
    ensures { (config : Configuration) (lines : List Line) (last : Turned) → AreDeclared config.topics
        → Plays (opening config) lines last → IsAtRest last.board }
{}

/// Law: worked scans of a produce that waits for its follower. It waits until the follower has fetched past its record, or its
/// deadline has come; where both hold it is satisfied. It is answered once, and where it expired it looks at the clock first.
pub fn worked_scans()
    ensures waits { (all batch : List ℕ) → (scanned (board_with all batch fetched_it [])).board ≡ board_with all batch fetched_it [] }
    ensures early { (all batch : List ℕ) → (scanned (board_with all batch [] (Tick 99 ∷ []))).board ≡ board_with all batch [] (Tick 99 ∷ []) }
    ensures satisfied { (all batch : List ℕ) → (transcript_at (scanned (board_with all batch fetched_behind [])).board 0).calls
        ≡ produced all (at 0 2 ∷ []) (Satisfied 0) ∷ [] }
    ensures expired { (all batch : List ℕ) → (transcript_at (scanned (board_with all batch [] (Tick 100 ∷ []))).board 0).calls
        ≡ produced all (at clock_part 2 ∷ at 0 1 ∷ []) (Expired 0) ∷ [] }
    ensures both { (all batch : List ℕ) → (transcript_at (scanned (board_with all batch fetched_behind (Tick 100 ∷ []))).board 0).calls
        ≡ produced all (at 0 2 ∷ []) (Satisfied 0) ∷ [] }
    ensures once { (all batch : List ℕ) → (scanned (board_with all batch fetched_behind [])).board.waiting ≡ [] }
{}

/// Law: worked clock lines of a produce that waits for its follower, which fetches nothing. At 29999 the follower stays in sync, and
/// the produce expires. At 30000 the follower leaves, and the produce is satisfied by the leader alone: with an error where the
/// topic asks for two in sync.
pub fn worked_ticks()
    ensures stays { (all batch : List ℕ) → (brought (asking_for 2 all batch) (Clock 29999)).parts ≡ (asking_for 2 all batch).parts }
    ensures leaves { (all batch : List ℕ) → map (λ h. h.events) (brought (asking_for 2 all batch) (Clock 30000)).parts
        ≡ (Append 0 0 1 1 ∷ Shrink 0 (pos 1) 30000 ∷ []) ∷ [] }
    ensures expires { (all batch : List ℕ) → (scanned (brought (asking_for 2 all batch) (Clock 29999))).text
        ≡ reply_line 0 (produced_with REQUEST_TIMED_OUT) }
    ensures too_few { (all batch : List ℕ) → (scanned (brought (asking_for 2 all batch) (Clock 30000))).text
        ≡ reply_line 0 (produced_with NOT_ENOUGH_REPLICAS_AFTER_APPEND) }
    ensures enough { (all batch : List ℕ) → (scanned (brought (asking_for 1 all batch) (Clock 30000))).text
        ≡ reply_line 0 (produced_with NONE) }
{}

/// Law: a worked trace. A produce for all replicas waits, and is satisfied when its follower fetches past its record; a
/// consumer's fetch waits until its deadline, and expires; the account is lawful.
pub fn worked_play()
    ensures satisfied { (account : Account) (text : List ℕ) → IsPlay followed worked_lines account text
        → calls_of account 0 ≡ produced (body_of produce) (at 0 2 ∷ []) (Satisfied 0) ∷ [] }
    ensures expired { (account : Account) (text : List ℕ) → IsPlay followed worked_lines account text
        → calls_of account 2 ≡ polled ∷ [] }
    ensures lawful { (account : Account) (text : List ℕ) → IsPlay followed worked_lines account text → IsLawful account }
{}
