//! Laws of the machine: what no interleaving of events can break. The functions do nothing; their clauses are the laws.
ghost use Rattle.std.specs.Prelude.{◌≡◌, ◌≢◌, ◌+◌, ◌<◌, ℕ, List, Some, length, slice_get};
ghost use Rattle.opcond.specs.Operation.{IsValid};
ghost use Rattle.opcond.specs.Tally.{tally as listed_tally};
ghost use Rattle.room_core.specs.declared.event.CoreEvent.{CoreEvent as Event};
ghost use Rattle.room_core.specs.declared.event.How.{How as Way};
ghost use Rattle.room_core.specs.declared.parts.Phase.TheVariants.{Won};
ghost use Rattle.room_core.specs.declared.parts.Session.{Session as Word};
ghost use Rattle.room_core.specs.declared.parts.Taken.{Taken as Item};
ghost use Rattle.room_core.specs.declared.shape.Shape.{Shape as Size};
ghost use Rattle.room_core.specs.Carried.{IsCarried};
ghost use Rattle.room_core.specs.Counts.{taken_by, won_by};
ghost use Rattle.room_core.specs.Described.{operation_of, values_in};
ghost use Rattle.room_core.specs.Description.{IsOperation, tally};
ghost use Rattle.room_core.specs.Duty.{IsOpen, IsOverdueNow, IsSatisfiedNow};
ghost use Rattle.room_core.specs.Gauges.{IsShape};
ghost use Rattle.room_core.specs.Packing.{packed, unpacked, winner_number};
ghost use Rattle.room_core.specs.Quiet.{IsQuiet};
ghost use Rattle.room_core.specs.Run.{IsRun};
ghost use Rattle.room_core.specs.Sound.{IsSound};
ghost use Rattle.room_core.specs.Start.{start_of};
ghost use Rattle.room_core.specs.State.{State};
ghost use Rattle.room_core.specs.Step.{IsAllowed, changed};
ghost use Rattle.room_core.specs.Wins.{prizes_as, wins_of};

/// Law: in every state that meets what is carried, every allowed event keeps it, and soundness with it.
pub fn event_keeps()
    ensures { (s : State) (event : Event) → IsCarried s → IsAllowed s event → IsCarried (changed s event) }
{}

/// Law: the start meets what is carried, and so does every state that any events lead to from there.
pub fn runs_are_sound()
    ensures start { (shape : Size) → IsShape shape → IsCarried (start_of shape) }
    ensures run { (shape : Size) (events : List Event) (last : State) → IsShape shape
        → IsRun (start_of shape) events last → IsCarried last }
{}

/// Law: in a sound and quiet state no open operation is answerable.
pub fn quiet_is_answered()
    ensures tally { (s : State) → IsSound s → IsQuiet s
        → (pass : ℕ) → IsOpen s pass → IsSatisfiedNow s pass → ⊥ }
    ensures time { (s : State) → IsSound s → IsQuiet s
        → (pass : ℕ) → IsOpen s pass → IsOverdueNow s pass → ⊥ }
{}

/// Law: a word that is won, and an item that was taken, is once in the wins of the winner that it names, and in nobody else's.
pub fn wins_stand_once()
    ensures mine { (s : State) → IsSound s → (pass : ℕ) (how : Way) (by : ℕ)
        → (s.session pass).phase ≡ Won how by
        → prizes_as (wins_of s.scanner s.caller by) pass (s.session pass).generation how ≡ 1 }
    ensures others { (s : State) → IsSound s → (pass : ℕ) (how : Way) (by : ℕ)
        → (s.session pass).phase ≡ Won how by → (other : ℕ) (way : Way) → other ≢ by
        → prizes_as (wins_of s.scanner s.caller other) pass (s.session pass).generation way ≡ 0 }
    ensures taken { (s : State) → IsSound s → (pass at : ℕ) (item : Item)
        → slice_get (s.caller pass).taken at ≡ Some item
        → prizes_as (wins_of s.scanner s.caller item.by) pass item.generation item.how ≡ 1 }
    ensures taken_by_others { (s : State) → IsSound s → (pass at : ℕ) (item : Item)
        → slice_get (s.caller pass).taken at ≡ Some item → (other : ℕ) (way : Way) → other ≢ item.by
        → prizes_as (wins_of s.scanner s.caller other) pass item.generation way ≡ 0 }
{}

/// Law: a winner's wins are as many as the items taken that name it and the words that it has won.
pub fn wins_are_counted()
    ensures { (s : State) → IsCarried s → (by : ℕ)
        → length (wins_of s.scanner s.caller by) ≡ taken_by s by + won_by s by }
{}

/// Law: the operation that a description's words describe is valid, and its tally is the one computed from the words.
pub fn described_operations_are_valid()
    ensures valid { (shape : Size) (words : ℕ → ℕ) → IsOperation shape words → IsValid (operation_of words) }
    ensures tally { (words value : ℕ → ℕ)
        → listed_tally (operation_of words).needs (values_in words value) ≡ tally words value }
{}

/// Law: a session word whose winner has a number below 256 is unpacked from its number as it was.
pub fn session_words_unpack()
    ensures { (word : Word) → winner_number word.phase < 256 → unpacked (packed word) ≡ word }
{}

/// Law: a word's winner has a number below 97: there are 17 scanners and at most 80 passes.
pub fn winners_are_few()
    ensures { (s : State) → IsCarried s → (pass : ℕ) → winner_number (s.session pass).phase < 97 }
{}
