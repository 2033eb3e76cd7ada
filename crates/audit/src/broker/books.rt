//! The book of a pass: what the pass of a broker that threads share knows of what it saw and did, whatever other passes do meanwhile.
//! And the account that the books of all passes give together. The functions are laws, and do nothing.

ghost use Rattle.std.specs.Prelude.{◌≡◌, ◌<◌, ◌≤◌, ◌+◌, ◌∷◌, ◌++◌, [], ℕ, ℤ, Contains, count_by, if◌then◌else◌, length, sum_by, false, true, List, None, Option, Some, slice_get};
ghost use Rattle.kbatch.specs.Batch.{IsBatch};
ghost use Rattle.kbatch.specs.declared.record.Record.{Record};
ghost use Rattle.partlog.specs.declared.clock_event.ClockEvent.{ClockEvent};
ghost use Rattle.partlog.specs.declared.clock_event.ClockEvent.TheVariants.{Tick};
ghost use Rattle.partlog.specs.History.{History};
ghost use Rattle.partlog.specs.Moment.{moment_of};
ghost use Rattle.partlog.specs.State.{PartState, state_of};
ghost use Rattle.audit.specs.declared.account.CallHow.{CallHow};
ghost use Rattle.audit.specs.declared.account.CallHow.TheVariants.{AtOnce, Cut, Expired, Parked, Satisfied};
ghost use Rattle.audit.specs.declared.account.Point.{Point};
ghost use Rattle.audit.specs.declared.account.SessionEnd.{SessionEnd};
ghost use Rattle.audit.specs.declared.account.SessionEnd.TheVariants.{NoMemory};
ghost use Rattle.audit.specs.declared.account.Transcript.{Transcript};
ghost use Rattle.audit.specs.Fits.{IsReplyOf};
ghost use Rattle.audit.specs.Histories.{no_state, ticks_of};
ghost use Rattle.audit.specs.IsLawful.{is_won_as, is_won_by, IsLawful};
ghost use Rattle.audit.specs.LawfulCall.{operation_parts};
ghost use Rattle.audit.specs.Worked.{at, fetch_both, fetch_one, followed, three_waits, two_parts};
ghost use Rattle.kanswer.specs.Answer.{answer};
ghost use Rattle.kanswer.specs.declared.accepted.Accepted.TheVariants.{Refused};
ghost use Rattle.kanswer.specs.Decisions.{AskLog, Decides, Decision, Outcome, Refuse};
ghost use Rattle.kanswer.specs.Waiting.{becomes_delayed, values_of};
ghost use Rattle.kwire.specs.Configuration.{Configuration, partitions_of};
ghost use Rattle.kwire.specs.IsRequest.{IsRequest};
ghost use Rattle.kwire.specs.declared.config.TheConstants.{MOST_PARTITIONS};
ghost use Rattle.kwire.specs.declared.request.Request.{Request};
ghost use Rattle.opcond.specs.Tally.{IsSatisfied};
ghost use Rattle.audit.specs.broker.Board.{history_at, Waiting};
ghost use Rattle.audit.specs.broker.Entering.{Noted, shown_of};
ghost use Rattle.audit.specs.broker.GoesOn.{Carried};
ghost use Rattle.audit.specs.broker.Sound.{AreHistories};
ghost use Rattle.audit.specs.broker.Turns.{how_at_once};
ghost use Rattle.audit.specs.broker.Worked.{waits_for_all};
ghost use Rattle.audit.specs.broker.WorkedPlay.{batch, follow, produce};
ghost use Rattle.audit.specs.broker.books.Accepting.{carried_out, clock_seen, IsAccepting, left_waiting, noted_next};
ghost use Rattle.audit.specs.broker.books.Book.{begun_behind, Book, opening_book};
ghost use Rattle.audit.specs.broker.books.Finishing.{IsDelayed, IsFinishing, late_seen, part_seen, shown_with};
ghost use Rattle.audit.specs.broker.books.IsBook.{IsBook};
ghost use Rattle.audit.specs.broker.books.Owned.{OthersAlone};
ghost use Rattle.audit.specs.broker.books.Together.{account_of, all_calls_in, AreTogether, won_by};
ghost use Rattle.audit.specs.broker.books.TakenOut.{HasTakenOut};
ghost use Rattle.audit.specs.broker.books.Told.{last_is_cut};
ghost use Rattle.audit.specs.broker.books.Turns.{accepted_there, Finds, looked_there, noted_there};
ghost use Rattle.audit.specs.broker.books.Underway.{begun_amid, book_amid, earlier_calls, Underway, with_end};
ghost use Rattle.audit.specs.broker.books.Worked.{books_before, clock_looked, fetched, first_waits, follower, looked, none_waits, one_put, producer, satisfied_books, waiting_books};
ghost use Rattle.audit.specs.broker.books.WorkedLeaves.{clock_told, leave_books, left_at, ticker};
ghost use Rattle.audit.specs.broker.books.WorkedWaits.{cut_book, expired_book, fetch_waits, last_clock, last_parts, parked_book, second_waits, three_books};

/// Law: the books of all passes give a lawful account, in whatever order the passes acted. Each pass knows only the prefixes of
/// the histories that it saw; the final histories go on from these, and no waiting request is answerable by them.
pub fn books_are_lawful()
    ensures { (config : Configuration) (books : List Book) (waits : ℕ → Option Waiting) (finals : List History) (clock : List ClockEvent)
        (wins : List ℕ) → AreTogether config books waits finals clock wins
        → ((k : ℕ) (book : Book) → slice_get books k ≡ Some book → IsBook book (waits k))
        → IsLawful (account_of config books finals clock wins) }
{}

/// Law: a book between two calls. A pass that has done nothing has one. It stays a book whatever others do, when the pass ticks
/// the clock, when it takes followers out at a moment that the clock was told, and when it begins or ends a transcript. Where the last
/// call was cut off, the transcript ends as out of memory.
pub fn books_go_on()
    ensures opened { (config : Configuration) (number : ℕ) → partitions_of config.topics ≤ MOST_PARTITIONS
        → IsBook (opening_book config number) None }
    ensures others { (book : Book) (waits : Option Waiting) (later : List History) (behind : List ClockEvent)
        → OthersAlone book.number book.parts book.clock later behind → AreHistories book.config later behind → IsBook book waits
        → IsBook (record book { parts = later; clock = behind }) waits }
    ensures ticked { (book : Book) (waits : Option Waiting) (t : ℕ) → moment_of book.clock < t → IsBook book waits
        → IsBook (record book { clock = book.clock ++ Tick t ∷ [] }) waits }
    ensures taken_out { (book : Book) (waits : Option Waiting) (t : ℕ) (later : List History) → HasTakenOut book.number t book.parts later
        → Contains (ticks_of book.clock) t → AreHistories book.config later book.clock → IsBook book waits
        → IsBook (record book { parts = later }) waits }
    ensures begun { (book : Book) (number : ℕ) → IsBook book None
        → IsBook (record book { transcripts = book.transcripts ++ begun_behind book.transcripts number ∷ [] }) None }
    ensures ended { (book : Book) (front : List Transcript) (last : Transcript) (end : SessionEnd) → last.end ≡ None
        → (last_is_cut last.calls ≡ true → end ≡ NoMemory) → IsBook (record book { transcripts = front ++ last ∷ [] }) None
        → IsBook (record book { transcripts = front ++ record last { end = Some end } ∷ [] }) None }
{}

/// Law: a call is accepted. It is recorded as cut off at first. Then its decisions are carried out, one partition after the
/// other, each in a turn of its partition, while others act too. Wherever that stops, there is a book. In the end the call is
/// answered at once, or it looks at the clock and is delayed.
pub fn calls_are_accepted()
    ensures called { (book : Book) (front : List Transcript) (transcript : Transcript) (frame : List ℕ) (request : Request)
        (decisions : List Decision) → transcript.end ≡ None → last_is_cut transcript.calls ≡ false → IsRequest frame request
        → Decides book.config request.ask decisions
        → IsBook (record book { transcripts = front ++ transcript ∷ [] }) None
        → IsAccepting (begun_amid book front transcript frame) request decisions 0 [] }
    ensures others { (u : Underway) (request : Request) (decisions : List Decision) (reached : ℕ) (noted : List Noted)
        (later : List History) (behind : List ClockEvent) → OthersAlone u.number u.parts u.clock later behind
        → AreHistories u.config later behind → IsAccepting u request decisions reached noted
        → IsAccepting (record u { parts = later; clock = behind }) request decisions reached noted }
    ensures entered { (u : Underway) (request : Request) (decisions : List Decision) (reached : ℕ) (noted : List Noted)
        (decision : Decision) → IsAccepting u request decisions reached noted → slice_get decisions reached ≡ Some decision
        → IsAccepting (carried_out u decision) request decisions (reached + 1) (noted ++ noted_next u decision) }
    ensures refused { (u : Underway) (request : Request) (decisions : List Decision) (reached : ℕ) (noted : List Noted) (code : ℤ)
        → IsAccepting u request decisions reached noted → slice_get decisions reached ≡ Some (Refuse code)
        → IsAccepting u request decisions (reached + 1)
        (noted ++ record { step = record { result = Refused code; point = None }; state = no_state } ∷ []) }
    ensures turn { (u : Underway) (part : ℕ) (found : History) (request : Request) (decisions : List Decision) (reached : ℕ)
        (noted : List Noted) (outcome : PartState → Outcome) → Finds u part found → IsAccepting u request decisions reached noted
        → slice_get decisions reached ≡ Some (AskLog part outcome)
        → IsAccepting (accepted_there u part found (outcome (state_of found))) request decisions (reached + 1)
        (noted ++ noted_there u part found (outcome (state_of found)) ∷ []) }
    ensures cut { (u : Underway) (request : Request) (decisions : List Decision) (reached : ℕ) (noted : List Noted)
        → IsAccepting u request decisions reached noted → IsBook (book_amid (with_end u (Cut None))) None }
    ensures answered { (u : Underway) (request : Request) (decisions : List Decision) (noted : List Noted)
        → IsAccepting u request decisions (length decisions) noted → becomes_delayed request.ask (shown_of noted) ≡ false
        → IsBook (book_amid (with_end u (how_at_once request.ask))) None }
    ensures delayed { (u : Underway) (request : Request) (decisions : List Decision) (noted : List Noted)
        → IsAccepting u request decisions (length decisions) noted → becomes_delayed request.ask (shown_of noted) ≡ true
        → IsDelayed (clock_seen u) (left_waiting u request noted) }
{}

/// Law: a delayed call waits, and is completed. It waits as the last call of its book, while others act. Once it is won, it looks
/// at the clock if it expired, and then at each partition of its operation. Wherever that stops, there is a book.
pub fn calls_are_completed()
    ensures parked { (u : Underway) (w : Waiting) → IsDelayed u w → u.call.finish ≡ [] → IsBook (book_amid (with_end u Parked)) (Some w) }
    ensures unwon { (u : Underway) (w : Waiting) → IsDelayed u w → u.call.finish ≡ [] → IsBook (book_amid (with_end u (Cut None))) None }
    ensures waits { (u : Underway) (w : Waiting) → IsBook (book_amid u) (Some w)
        → IsDelayed u w × (u.call.finish ≡ []) × (u.call.how ≡ Parked) }
    ensures won { (u : Underway) (w : Waiting) → IsDelayed u w → u.call.finish ≡ [] → IsFinishing u w None [] }
    ensures late { (u : Underway) (w : Waiting) → IsDelayed u w → u.call.finish ≡ [] → w.operation.deadline ≤ moment_of u.clock
        → (late : Point) × IsFinishing (late_seen u) w (Some late) [] }
    ensures others { (u : Underway) (w : Waiting) (late : Option Point) (states : List PartState) (later : List History)
        (behind : List ClockEvent) → OthersAlone u.number u.parts u.clock later behind → AreHistories u.config later behind
        → IsFinishing u w late states → IsFinishing (record u { parts = later; clock = behind }) w late states }
    ensures looked { (u : Underway) (w : Waiting) (late : Option Point) (states : List PartState) (part : ℕ) → IsFinishing u w late states
        → slice_get (operation_parts w.steps) (length states) ≡ Some part
        → (late ≡ None → length (states ++ state_of (history_at u.parts part) ∷ []) ≡ length (operation_parts w.steps)
        → IsSatisfied w.operation (values_of w.request.ask (shown_with w.steps (states ++ state_of (history_at u.parts part) ∷ []))))
        → IsFinishing (part_seen u part) w late (states ++ state_of (history_at u.parts part) ∷ []) }
    ensures turn { (u : Underway) (part : ℕ) (found : History) (w : Waiting) (late : Option Point) (states : List PartState)
        → Finds u part found → IsFinishing u w late states → slice_get (operation_parts w.steps) (length states) ≡ Some part
        → (late ≡ None → length (states ++ state_of found ∷ []) ≡ length (operation_parts w.steps)
        → IsSatisfied w.operation (values_of w.request.ask (shown_with w.steps (states ++ state_of found ∷ []))))
        → IsFinishing (looked_there u part found) w late (states ++ state_of found ∷ []) }
    ensures cut { (u : Underway) (w : Waiting) (late : Option Point) (states : List PartState) (by : ℕ) → IsFinishing u w late states
        → IsBook (book_amid (with_end u (Cut (Some by)))) None }
    ensures satisfied { (u : Underway) (w : Waiting) (states : List PartState) (by : ℕ) → IsFinishing u w None states
        → length states ≡ length (operation_parts w.steps) → IsBook (book_amid (with_end u (Satisfied by))) None }
    ensures expired { (u : Underway) (w : Waiting) (late : Point) (states : List PartState) (by : ℕ) → IsFinishing u w (Some late) states
        → length states ≡ length (operation_parts w.steps) → IsBook (book_amid (with_end u (Expired by))) None }
{}

/// Law: a reply stays true. What a pass answers is the reply of its call in every account that goes on from what it saw.
pub fn replies_stay()
    ensures answered { (u : Underway) (request : Request) (decisions : List Decision) (noted : List Noted)
        → IsAccepting u request decisions (length decisions) noted → becomes_delayed request.ask (shown_of noted) ≡ false
        → u.call.how ≡ AtOnce
        → Carried u.config u.parts u.clock (λ account. IsReplyOf account u.call (answer u.config request (shown_of noted))) }
    ensures satisfied { (u : Underway) (w : Waiting) (states : List PartState) (by : ℕ) → IsFinishing u w None states
        → u.call.how ≡ Satisfied by
        → Carried u.config u.parts u.clock (λ account. IsReplyOf account u.call (answer u.config w.request (shown_with w.steps states))) }
    ensures expired { (u : Underway) (w : Waiting) (late : Point) (states : List PartState) (by : ℕ) → IsFinishing u w (Some late) states
        → u.call.how ≡ Expired by
        → Carried u.config u.parts u.clock (λ account. IsReplyOf account u.call (answer u.config w.request (shown_with w.steps states))) }
{}

/// Law: the number of calls of a book that a winner completed. In the middle of a call it is one more if that call names the
/// winner. Beginning or ending a transcript doesn't change it, nor do others. Over all books the numbers are added up.
pub fn winners_are_counted()
    ensures amid { (u : Underway) (winner : ℕ)
        → won_by winner (book_amid u) ≡ count_by (is_won_by winner) (earlier_calls u) + (if is_won_as winner u.call.how then 1 else 0) }
    ensures begun { (book : Book) (number winner : ℕ)
        → won_by winner (record book { transcripts = book.transcripts ++ begun_behind book.transcripts number ∷ [] }) ≡ won_by winner book }
    ensures ended { (book : Book) (front : List Transcript) (last : Transcript) (end : SessionEnd) (winner : ℕ)
        → won_by winner (record book { transcripts = front ++ record last { end = Some end } ∷ [] })
        ≡ won_by winner (record book { transcripts = front ++ last ∷ [] }) }
    ensures all { (books : List Book) (winner : ℕ) → count_by (is_won_by winner) (all_calls_in books) ≡ sum_by (won_by winner) books }
{}

/// Law: worked books. A produce waits for its follower, and another pass makes that fetch; the produce is won, and looks at its
/// partition. The two books go together and give a lawful account, though the second pass never saw that look. So does the first
/// book alone, while the produce waits or where it was cut off. Books don't go together where a pass made an entry that it didn't
/// see, where a waiting request is answerable, or with a wrong count of a winner.
pub fn worked_books()
    ensures waits { (all : List ℕ) (one : Record) → IsBatch batch (one ∷ []) → IsRequest all produce
        → IsBook (producer all [] [] Parked) (Some (waits_for_all 0 batch)) }
    ensures satisfied { (all : List ℕ) (one : Record) → IsBatch batch (one ∷ []) → IsRequest all produce
        → IsBook (producer all looked (at 0 2 ∷ []) (Satisfied 1)) None }
    ensures answered { (frame : List ℕ) → IsRequest frame follow → IsBook (follower frame) None }
    ensures together { (all frame : List ℕ) (one : Record) → IsBatch batch (one ∷ []) → IsRequest all produce
        → AreTogether followed (satisfied_books all frame) none_waits (one_put looked ∷ []) clock_looked (0 ∷ 1 ∷ []) }
    ensures lawful { (all frame : List ℕ) (one : Record) → IsBatch batch (one ∷ []) → IsRequest all produce → IsRequest frame follow
        → IsLawful (account_of followed (satisfied_books all frame) (one_put looked ∷ []) clock_looked (0 ∷ 1 ∷ [])) }
    ensures parked { (all : List ℕ) (one : Record) → IsBatch batch (one ∷ []) → IsRequest all produce
        → IsLawful (account_of followed (books_before all Parked) (one_put [] ∷ []) clock_looked []) }
    ensures cut { (all : List ℕ) (one : Record) → IsBatch batch (one ∷ []) → IsRequest all produce
        → IsLawful (account_of followed (books_before all (Cut None)) (one_put [] ∷ []) clock_looked []) }
    ensures unseen { (all frame : List ℕ) (waits : ℕ → Option Waiting) (wins : List ℕ)
        → AreTogether followed (waiting_books all frame) waits (one_put looked ∷ []) clock_looked wins → ⊥ }
    ensures answerable { (all frame : List ℕ) (wins : List ℕ)
        → AreTogether followed (waiting_books all frame) first_waits (one_put fetched ∷ []) clock_looked wins → ⊥ }
    ensures miscounted { (all frame : List ℕ) (waits : ℕ → Option Waiting)
        → AreTogether followed (satisfied_books all frame) waits (one_put looked ∷ []) clock_looked (1 ∷ []) → ⊥ }
{}

/// Law: worked books of three passes that waited. One fetch expired, one still waits, and one was won and cut off after the first
/// of its looks. Each pass saw another prefix of the histories, turn by turn. The books go together, and give an account that is
/// written out elsewhere; in it the transcript of the third ends as out of memory.
pub fn worked_waits()
    ensures expired { (one : List ℕ) → IsRequest one fetch_one → IsBook (expired_book one) None }
    ensures parked { (one : List ℕ) → IsRequest one fetch_one → IsBook (parked_book one) (Some fetch_waits) }
    ensures cut { (both : List ℕ) → IsRequest both fetch_both → IsBook (cut_book both) None }
    ensures together { (one both : List ℕ) → IsRequest one fetch_one → IsRequest both fetch_both
        → AreTogether two_parts (three_books one both) second_waits last_parts last_clock (2 ∷ []) }
    ensures same { (one both : List ℕ) → account_of two_parts (three_books one both) last_parts last_clock (2 ∷ []) ≡ three_waits one both }
    ensures lawful { (one both : List ℕ) → IsRequest one fetch_one → IsRequest both fetch_both → IsLawful (three_waits one both) }
{}

/// Law: worked books of a pass that took a follower out. One pass put a batch and was cut off. Another told the clock a moment, 30,000
/// milliseconds after the follower had caught up, and took it out. The two books go together, and give a lawful account. Books don't go
/// together where the follower didn't lag yet, nor where the pass doesn't know what it took out; and a pass has no book in which it took a
/// follower out at a moment that the clock wasn't told.
pub fn worked_leaves()
    ensures taken_out { IsBook (ticker 30000 (left_at 30000)) None }
    ensures together { (all : List ℕ)
        → AreTogether followed (leave_books all (ticker 30000 (left_at 30000))) none_waits (one_put (left_at 30000) ∷ []) (clock_told 30000) [] }
    ensures lawful { (all : List ℕ) (one : Record) → IsBatch batch (one ∷ []) → IsRequest all produce
        → IsLawful (account_of followed (leave_books all (ticker 30000 (left_at 30000))) (one_put (left_at 30000) ∷ []) (clock_told 30000) []) }
    ensures early { (all : List ℕ) (waits : ℕ → Option Waiting) (wins : List ℕ)
        → AreTogether followed (leave_books all (ticker 29999 (left_at 29999))) waits (one_put (left_at 29999) ∷ []) (clock_told 29999) wins → ⊥ }
    ensures unseen { (all : List ℕ) (waits : ℕ → Option Waiting) (wins : List ℕ)
        → AreTogether followed (leave_books all (ticker 30000 [])) waits (one_put (left_at 30000) ∷ []) (clock_told 30000) wins → ⊥ }
    ensures untold { (waits : Option Waiting) → IsBook (ticker 30001 (left_at 30000)) waits → ⊥ }
{}
