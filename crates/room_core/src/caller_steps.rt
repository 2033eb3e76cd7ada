//! The owner's part in the steps of its operation, from its description to its end. `pass_steps` asks here whether a step is
//! allowed, and has the part changed; the words it changes itself.
ghost use Rattle.std.specs.Prelude.{◌≡◌, ◌^◌, ◌-◌, ◌<◌, ◌↔◌, IsTrue, if◌then◌else◌, true, ◌≤◌, OnErr, OnOk, false, length};
ghost use Rattle.room_core.specs.CallerTables.{table};
ghost use Rattle.room_core.specs.Gauges.{clock_of};
ghost use Rattle.room_core.specs.Passes.{all_below, all_seen, caller_describes, caller_idles, caller_opens, caller_sees_mark};
ghost use Rattle.room_core.specs.Checks.{AreRead, IsRead, IsWon, caller_leaves, caller_reads, caller_wins, is_checking};
ghost use Rattle.room_core.specs.Description.{IsMark, IsOperation};
ghost use Rattle.room_core.specs.declared.parts.Stage.{Stage};
ghost use Rattle.room_core.specs.declared.parts.Stage.TheVariants.{Checking, Listing, Over, Waiting};

use crate::answering::{are_read, is_answerable, is_read, is_won};
use crate::caller_part::{CallerPart, peeked_stage};
use crate::description::{DESCRIPTION_WORDS, NEEDS_WORD};
use crate::empty::forget;
use crate::event::How;
use crate::gauges::clock;
use crate::numbers::{CLOCK_MARK, LAST_GENERATION, MARKS, SCANNER_NUMBERS};
use crate::operation::is_operation;
use crate::parts::{Prize, Session, Stage, Taken};
use crate::session_word::{exchanged, keep_prize};
use crate::shape::Shape;
use kbytes::NoMemory;

impl CallerPart {
    ghost use Rattle.room_core.specs.CallerTables.{caller_of};

    /// Whether the owner waits for this mark.
    pub(crate) fn awaits_mark(&self, at: u32) -> bool
        ensures { IsTrue result ↔ (((caller_of self.now).stage ≡ Listing) × IsMark (caller_of self.now).description at) }
    {
        self.stage == Stage::Listing
            && (at == CLOCK_MARK || u64::from(at) < self.description[NEEDS_WORD as usize])
    }

    pub(crate) fn describes(&mut self, at: u32, word: u64)
        requires { at < DESCRIPTION_WORDS }
        ensures part { caller_of self.new ≡ caller_describes (caller_of self.old) at word }
        ensures shape { self.new.shape ≡ self.old.shape }
    {
        self.description[at as usize] = word;
    }

    pub(crate) fn reads(&mut self, gauge: u32, value: u64)
        requires { gauge < self.old.shape.gauges }
        ensures part { caller_of self.new ≡ caller_reads (caller_of self.old) gauge value }
        ensures shape { self.new.shape ≡ self.old.shape }
    {
        let greatest = self.greatest[gauge as usize];
        self.greatest[gauge as usize] = greatest.max(value);
        if !is_checking(self.stage) {
            return;
        }
        self.readings[gauge as usize] = Some(value);
    }

    /// Whether the owner's check has found its operation answerable in this way.
    pub(crate) fn has_found(&self, shape: Shape, how: How) -> bool
        ensures { IsTrue result ↔ (((caller_of self.now).stage ≡ Checking) × IsWon shape how (caller_of self.now).description (caller_of self.now).readings) }
    {
        self.stage == Stage::Checking && is_won(shape, how, &self.description, &self.readings)
    }

    /// Whether the owner's check ends with a reading of this gauge.
    pub(crate) fn ends_with(&self, shape: Shape, gauge: u32) -> bool
        ensures { IsTrue result ↔ (((caller_of self.now).stage ≡ Checking)
            × AreRead (caller_of self.now).readings gauge (caller_of self.now).description
            × IsRead (caller_of self.now).readings gauge (clock_of shape)) }
    {
        self.stage == Stage::Checking
            && are_read(&self.description, &self.readings, gauge)
            && is_read(&self.readings, gauge, u64::from(clock(shape)))
    }

    pub(crate) fn leaves(&mut self, shape: Shape, gauge: u32, value: u64)
        requires { gauge < self.old.shape.gauges }
        ensures part { caller_of self.new ≡ caller_leaves shape (caller_of self.old) gauge value }
        ensures shape { self.new.shape ≡ self.old.shape }
    {
        let greatest = self.greatest[gauge as usize];
        self.greatest[gauge as usize] = greatest.max(value);
        self.readings[gauge as usize] = Some(value);
        self.stage = stage_of_check(is_answerable(shape, &self.description, &self.readings));
    }

    /// Whether the owner may open what it has described.
    pub(crate) fn may_open(&self, shape: Shape) -> bool
        ensures { IsTrue result ↔ (((caller_of self.now).stage ≡ Stage.Idle)
            × IsOperation shape (caller_of self.now).description
            × ((caller_of self.now).generation < 2 ^ 32 - 1)) }
    {
        self.stage == Stage::Idle
            && is_operation(shape, &self.description)
            && self.generation < LAST_GENERATION
    }

    pub(crate) fn opens(&mut self)
        requires { self.old.generation < 2 ^ 32 - 1 }
        ensures part { caller_of self.new ≡ caller_opens (caller_of self.old) }
        ensures shape { self.new.shape ≡ self.old.shape }
    {
        self.generation += 1;
        self.stage = Stage::Listing;
        unsee(&mut self.seen);
        forget(&mut self.readings);
    }

    pub(crate) fn wins_by(&mut self, pass: u32, how: How, session: Session) -> Result<(), NoMemory>
        requires { pass < 100 }
        ensures part { OnOk result (caller_of self.new ≡ caller_wins (caller_of self.old) pass how session) }
        ensures same { OnErr result (caller_of self.new ≡ caller_of self.old) }
        ensures shape { self.new.shape ≡ self.old.shape }
    {
        let generation = self.generation;
        let word = exchanged(session, generation, how, SCANNER_NUMBERS + pass);
        keep_prize(
            &mut self.wins,
            session,
            Prize {
                pass,
                generation,
                how,
            },
        )?;
        self.stage = peeked_stage(word.phase, self.stage);
        Ok(())
    }

    #[tactic(auto, unfolding(crate::specs::Passes::taken_of))]
    pub(crate) fn idles(&mut self, how: How, by: u32) -> Result<(), NoMemory>
        requires { self.old.stage ≡ Over how by }
        ensures part { OnOk result (caller_of self.new ≡ caller_idles (caller_of self.old)) }
        ensures same { OnErr result (caller_of self.new ≡ caller_of self.old) }
        ensures shape { self.new.shape ≡ self.old.shape }
    {
        let generation = self.generation;
        self.taken.push(Taken {
            generation,
            how,
            by,
        })?;
        self.stage = Stage::Idle;
        Ok(())
    }

    pub(crate) fn sees_mark(&mut self, at: u32, mark: u32)
        requires { at ≤ CLOCK_MARK }
        ensures part { caller_of self.new ≡ caller_sees_mark (caller_of self.old) at mark }
        ensures shape { self.new.shape ≡ self.old.shape }
    {
        let seen = was_seen(mark == self.generation, self.seen[at as usize]);
        self.seen[at as usize] = seen;
        self.stage = stage_of_marks(is_all_seen(&self.description, &self.seen));
        forget(&mut self.readings);
    }
}

/// The stage of an owner after the last reading of its check.
fn stage_of_check(answerable: bool) -> Stage
    ensures { result ≡ (if answerable then Checking else Waiting) }
{
    if answerable {
        Stage::Checking
    } else {
        Stage::Waiting
    }
}

/// Whether an owner is in its check.
fn is_checking(stage: Stage) -> bool
    ensures { result ≡ is_checking stage }
{
    match stage {
        Stage::Checking => true,
        Stage::Idle | Stage::Listing | Stage::Waiting | Stage::Over { how: _, by: _ } => false,
    }
}

/// Whether a mark was seen: it shows now, or did before.
fn was_seen(shows: bool, before: bool) -> bool
    ensures { result ≡ (if shows then true else before) }
{
    shows || before
}

/// The stage of an owner after a look at a mark: it waits for the others, or begins its check.
fn stage_of_marks(all: bool) -> Stage
    ensures { result ≡ (if all then Checking else Listing) }
{
    if all { Stage::Checking } else { Stage::Listing }
}

/// Forgets which marks were seen.
fn unsee(seen: &mut [bool])
    ensures none { table seen.new false ≡ (λ i. false) }
    ensures length { length seen.new ≡ length seen.old }
{
    seen.fill(false);
}

/// Whether the first n marks were seen.
fn is_all_below(seen: &[bool], n: u64) -> bool
    ensures { result ≡ all_below (table seen.now false) n }
{
    if n > seen.len() as u64 {
        return false;
    }
    for i in 0..n as usize {
        if !seen[i] {
            return false;
        }
    }
    true
}

/// Whether every mark of the operation was seen.
fn is_all_seen(description: &[u64], seen: &[bool]) -> bool
    requires words { length description.now ≡ DESCRIPTION_WORDS }
    requires marks { length seen.now ≡ MARKS }
    ensures { result ≡ all_seen (table description.now 0) (table seen.now false) }
{
    is_all_below(seen, description[NEEDS_WORD as usize]) && seen[CLOCK_MARK as usize]
}
