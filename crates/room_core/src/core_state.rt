//! The whole room as tables, and `step`, which makes any event on it: the steps of gauges are here, those of passes and scanners
//! in `pass_steps` and `scan_steps`. `run_events` and tests call it; no other program does.
ghost use Rattle.std.specs.Prelude.{◌≡◌, ◌↔◌, IfOk, IsTrue, All, false, length, replicate, slice_get};
ghost use Rattle.room_core.specs.declared.parts.Phase.TheVariants.{Idle};
ghost use Rattle.std.specs.Result.{OnErr};
ghost use Rattle.std.specs.Bool.{OnFalse, OnTrue};
ghost use Rattle.room_core.specs.declared.event.CoreEvent.TheVariants.{Read, Leave, Win};
ghost use Rattle.room_core.specs.CallerTables.{caller_of};
ghost use Rattle.room_core.specs.Gauges.{IsScanner, IsShape};
ghost use Rattle.room_core.specs.Start.{idle_caller, idle_scanner, start_of};
ghost use Rattle.room_core.specs.ScannerTables.{scanner_at, scanner_of as shown_by};
ghost use Rattle.room_core.specs.Step.{IsAllowed, changed};
ghost use Rattle.room_core.specs.Scans.{CanAsk, CanBegin, CanHear, CanHush, CanRelieve, CanStore, HasNoDuty, IsHeard, asking, beginning, hearing, hushing, relieving, source_hushes, storing};
ghost use Rattle.room_core.specs.Sizes.{AreSized};
ghost use Rattle.room_core.specs.WordSizes.{WordsAreSized};
ghost use Rattle.room_core.specs.Words.{IsWord, word_at};

use crate::caller_part::CallerPart;
use crate::description::DESCRIPTION_WORDS;
use crate::duties::is_free;
use crate::event::{CoreEvent, How, Party};
use crate::gauges::{is_scanner, scanner_of};
use crate::numbers::{MARKS, SCANNER_NUMBERS};
use crate::parts::{Phase, Session, Source};
use crate::scanner_part::ScannerPart;
use crate::shape::Shape;
use crate::word::Word;
use kbytes::NoMemory;
use std::alloc::Global;

/// The state of the room: a table by number for each kind of word, and for each kind of part.
#[derive(Drop)]
pub struct CoreState {
    pub(crate) shape: Shape,
    pub(crate) value: Vec<u64>,
    pub(crate) asked: Vec<u64>,
    pub(crate) begun: Vec<u64>,
    pub(crate) session: Vec<Session>,
    pub(crate) description: Vec<Vec<u64>>,
    pub(crate) marks: Vec<Vec<u32>>,
    pub(crate) source: Vec<Source>,
    pub(crate) caller: Vec<CallerPart>,
    pub(crate) scanner: Vec<ScannerPart>,
    ghost sized: { AreSized shape value asked begun source caller scanner },
    ghost words: { WordsAreSized shape session description marks },
}

/// What a source knows after it has seen up to which value a scan is asked for.
fn hushed(source: Source, asked: u64) -> Source
    ensures { result ≡ source_hushes source asked }
{
    Source {
        stored: source.stored,
        loud: source.stored > asked && source.loud,
    }
}

fn idle_sessions(alloc: Global, shape: Shape) -> Result<Vec<Session>, NoMemory>
    ensures { IfOk result (λ v. v.items ≡ replicate shape.passes (record { generation = 0; phase = Idle })) }
{
    let idle = Session {
        generation: 0,
        phase: Phase::Idle,
    };
    Ok(vec![in alloc; idle; shape.passes as usize]?)
}

fn no_words(alloc: Global) -> Result<Vec<u64>, NoMemory>
    ensures { IfOk result (λ v. v.items ≡ replicate DESCRIPTION_WORDS 0) }
{
    Ok(vec![in alloc; 0; DESCRIPTION_WORDS as usize]?)
}

fn no_marks(alloc: Global) -> Result<Vec<u32>, NoMemory>
    ensures { IfOk result (λ v. v.items ≡ replicate MARKS 0) }
{
    Ok(vec![in alloc; 0; MARKS as usize]?)
}

/// The words of each pass's description, all zero.
fn word_rows(alloc: Global, shape: Shape) -> Result<Vec<Vec<u64>>, NoMemory>
    ensures size { IfOk result (λ v. length v.items ≡ shape.passes) }
    ensures rows { IfOk result (λ v. All (λ row. row.items ≡ replicate DESCRIPTION_WORDS 0) v.items) }
{
    let mut rows = Vec::new(alloc);
    for _pass in 0..shape.passes {
        rows.push(no_words(alloc)?)?;
    }
    Ok(rows)
}

/// The marks of each pass, all zero.
fn mark_rows(alloc: Global, shape: Shape) -> Result<Vec<Vec<u32>>, NoMemory>
    ensures size { IfOk result (λ v. length v.items ≡ shape.passes) }
    ensures rows { IfOk result (λ v. All (λ row. row.items ≡ replicate MARKS 0) v.items) }
{
    let mut rows = Vec::new(alloc);
    for _pass in 0..shape.passes {
        rows.push(no_marks(alloc)?)?;
    }
    Ok(rows)
}

fn quiet_sources(alloc: Global, shape: Shape) -> Result<Vec<Source>, NoMemory>
    ensures { IfOk result (λ v. v.items ≡ replicate shape.gauges (record { stored = 0; loud = false })) }
{
    let quiet = Source {
        stored: 0,
        loud: false,
    };
    Ok(vec![in alloc; quiet; shape.gauges as usize]?)
}

fn idle_callers(alloc: Global, shape: Shape) -> Result<Vec<CallerPart>, NoMemory>
    ensures size { IfOk result (λ v. length v.items ≡ shape.passes) }
    ensures shape { IfOk result (λ v. All (λ c. c.shape ≡ shape) v.items) }
    ensures idle { IfOk result (λ v. All (λ c. caller_of c ≡ idle_caller) v.items) }
{
    let mut callers = Vec::new(alloc);
    for _pass in 0..shape.passes {
        callers.push(CallerPart::idle(alloc, shape)?)?;
    }
    Ok(callers)
}

fn idle_scanners(alloc: Global, shape: Shape) -> Result<Vec<ScannerPart>, NoMemory>
    ensures size { IfOk result (λ v. length v.items ≡ SCANNER_NUMBERS) }
    ensures shape { IfOk result (λ v. All (λ c. c.shape ≡ shape) v.items) }
    ensures idle { IfOk result (λ v. All (λ c. shown_by c ≡ idle_scanner) v.items) }
{
    let mut scanners = Vec::new(alloc);
    for _scanner in 0..SCANNER_NUMBERS {
        scanners.push(ScannerPart::idle(alloc, shape)?)?;
    }
    Ok(scanners)
}

impl CoreState {
    ghost use Rattle.room_core.specs.Tables.{state_of};

    /// The room at its start: zeros, no source loud, and every pass idle.
    pub fn start(alloc: Global, shape: Shape) -> Result<CoreState, NoMemory>
        requires { IsShape shape }
        ensures { IfOk result (λ s. state_of s ≡ start_of shape) }
    {
        let gauges = shape.gauges as usize;
        Ok(CoreState {
            shape,
            value: vec![in alloc; 0; gauges]?,
            asked: vec![in alloc; 0; gauges]?,
            begun: vec![in alloc; 0; gauges]?,
            session: idle_sessions(alloc, shape)?,
            description: word_rows(alloc, shape)?,
            marks: mark_rows(alloc, shape)?,
            source: quiet_sources(alloc, shape)?,
            caller: idle_callers(alloc, shape)?,
            scanner: idle_scanners(alloc, shape)?,
        })
    }

    /// One of the room's words, as a number.
    pub fn word(&self, at: Word) -> u64
        requires { IsWord self.now.shape at }
        ensures { result ≡ word_at (state_of self.now) at }
    {
        match at {
            Word::Value { gauge } => self.value[gauge as usize],
            Word::Asked { gauge } => self.asked[gauge as usize],
            Word::Begun { gauge } => self.begun[gauge as usize],
            Word::Session { pass } => self.session[pass as usize].packed(),
            Word::Description { pass, at } => self.description[pass as usize][at as usize],
            Word::Mark { pass, at } => u64::from(self.marks[pass as usize][at as usize]),
        }
    }

    /// Makes an event. True: it is allowed, and the room is changed by it. False: it isn't allowed, and nothing changed. If memory
    /// runs out, the room shows what it showed before.
    pub fn step(&mut self, event: CoreEvent) -> Result<bool, NoMemory>
        ensures allowed { IfOk result (λ made. IsTrue made ↔ IsAllowed (state_of self.old) event) }
        ensures yes { IfOk result (λ made. OnTrue made (state_of self.new ≡ changed (state_of self.old) event)) }
        ensures no { IfOk result (λ made. OnFalse made (self.new ≡ self.old)) }
        ensures refused { OnErr result (state_of self.new ≡ state_of self.old) }
    {
        Ok(match event {
            CoreEvent::Store { gauge, value } => self.store(gauge, value),
            CoreEvent::Ask { pass, gauge, value } => self.ask(pass, gauge, value),
            CoreEvent::Hush { gauge } => self.hush(gauge),
            CoreEvent::Hear { scanner, gauge } => self.hear(scanner, gauge),
            CoreEvent::Begin { scanner, gauge } => self.begin(scanner, gauge),
            CoreEvent::Relieve { pass, gauge } => self.relieve(pass, gauge),
            CoreEvent::Describe { pass, at, word } => self.describe(pass, at, word),
            CoreEvent::Open { pass } => self.open(pass),
            CoreEvent::Meet { scanner, pass } => self.meet(scanner, pass),
            CoreEvent::Learn { scanner, pass, at } => self.learn(scanner, pass, at),
            CoreEvent::Mark { scanner, pass, at } => self.mark(scanner, pass, at),
            CoreEvent::Marked { pass, at } => self.see_mark(pass, at),
            CoreEvent::Read { who, gauge } => self.read(who, gauge),
            CoreEvent::Leave { who, pass, gauge } => self.leave(who, pass, gauge),
            CoreEvent::Win { who, pass, how } => self.win(who, pass, how)?,
            CoreEvent::Peek { pass } => self.peek(pass),
            CoreEvent::Idle { pass } => self.idle(pass)?,
            CoreEvent::Part => true,
        })
    }

    fn read(&mut self, who: Party, gauge: u32) -> bool
        ensures allowed { IsTrue result ↔ IsAllowed (state_of self.old) (Read who gauge) }
        ensures yes { OnTrue result (state_of self.new ≡ changed (state_of self.old) (Read who gauge)) }
        ensures no { OnFalse result (self.new ≡ self.old) }
    {
        match who {
            Party::Pass(pass) => self.read_by_pass(pass, gauge),
            Party::Scanner(scanner) => self.read_by_scanner(scanner, gauge),
        }
    }

    fn leave(&mut self, who: Party, pass: u32, gauge: u32) -> bool
        ensures allowed { IsTrue result ↔ IsAllowed (state_of self.old) (Leave who pass gauge) }
        ensures yes { OnTrue result (state_of self.new ≡ changed (state_of self.old) (Leave who pass gauge)) }
        ensures no { OnFalse result (self.new ≡ self.old) }
    {
        match who {
            Party::Pass(own) => own == pass && self.leave_by_pass(pass, gauge),
            Party::Scanner(scanner) => self.leave_by_scanner(scanner, pass, gauge),
        }
    }

    fn win(&mut self, who: Party, pass: u32, how: How) -> Result<bool, NoMemory>
        ensures allowed { IfOk result (λ made. IsTrue made ↔ IsAllowed (state_of self.old) (Win who pass how)) }
        ensures yes { IfOk result (λ made. OnTrue made (state_of self.new ≡ changed (state_of self.old) (Win who pass how))) }
        ensures no { IfOk result (λ made. OnFalse made (self.new ≡ self.old)) }
        ensures refused { OnErr result (state_of self.new ≡ state_of self.old) }
    {
        match who {
            Party::Pass(own) => {
                if own != pass {
                    return Ok(false);
                }
                self.win_by_pass(pass, how)
            }
            Party::Scanner(scanner) => self.win_by_scanner(scanner, pass, how),
        }
    }

    fn store(&mut self, gauge: u32, value: u64) -> bool
        ensures allowed { IsTrue result ↔ CanStore (state_of self.old) gauge value }
        ensures yes { OnTrue result (state_of self.new ≡ storing (state_of self.old) gauge value) }
        ensures no { OnFalse result (self.new ≡ self.old) }
    {
        if gauge >= self.shape.gauges {
            return false;
        }
        let source = self.source[gauge as usize];
        if source.loud || value < source.stored {
            return false;
        }
        self.value[gauge as usize] = value;
        self.source[gauge as usize] = Source {
            stored: value,
            loud: true,
        };
        true
    }

    fn hush(&mut self, gauge: u32) -> bool
        ensures allowed { IsTrue result ↔ CanHush (state_of self.old) gauge }
        ensures yes { OnTrue result (state_of self.new ≡ hushing (state_of self.old) gauge) }
        ensures no { OnFalse result (self.new ≡ self.old) }
    {
        if gauge >= self.shape.gauges {
            return false;
        }
        let source = hushed(self.source[gauge as usize], self.asked[gauge as usize]);
        self.source[gauge as usize] = source;
        true
    }

    fn ask(&mut self, pass: u32, gauge: u32, value: u64) -> bool
        ensures allowed { IsTrue result ↔ CanAsk (state_of self.old) pass gauge value }
        ensures yes { OnTrue result (state_of self.new ≡ asking (state_of self.old) pass gauge value) }
        ensures no { OnFalse result (self.new ≡ self.old) }
    {
        if pass >= self.shape.passes || gauge >= self.shape.gauges {
            return false;
        }
        if value > self.caller[pass as usize].greatest[gauge as usize] {
            return false;
        }
        let caller = &mut self.caller[pass as usize];
        caller.asks(gauge, value);
        let asked = self.asked[gauge as usize];
        self.asked[gauge as usize] = asked.max(value);
        true
    }

    /// Whether a scanner of the room has no duty.
    fn has_no_duty(&self, scanner: u32) -> bool
        requires { IsScanner self.now.shape scanner }
        ensures { IsTrue result ↔ HasNoDuty (scanner_at (slice_get self.now.scanner.items scanner)) }
    {
        is_free(&self.scanner[scanner as usize].duties)
    }

    /// Whether a scanner of the room has heard the gauge last.
    fn has_heard(&self, scanner: u32, gauge: u32) -> bool
        requires { IsScanner self.now.shape scanner }
        ensures { IsTrue result ↔ IsHeard (scanner_at (slice_get self.now.scanner.items scanner)).heard gauge }
    {
        self.scanner[scanner as usize].has_heard(gauge)
    }

    fn can_hear(&self, scanner: u32, gauge: u32) -> bool
        ensures { IsTrue result ↔ CanHear (state_of self.now) scanner gauge }
    {
        is_scanner(self.shape, scanner)
            && gauge < self.shape.gauges
            && scanner_of(self.shape, gauge) == scanner
            && self.has_no_duty(scanner)
    }

    fn can_begin(&self, scanner: u32, gauge: u32) -> bool
        ensures { IsTrue result ↔ CanBegin (state_of self.now) scanner gauge }
    {
        is_scanner(self.shape, scanner)
            && gauge < self.shape.gauges
            && self.has_heard(scanner, gauge)
            && self.has_no_duty(scanner)
    }

    fn hear(&mut self, scanner: u32, gauge: u32) -> bool
        ensures allowed { IsTrue result ↔ CanHear (state_of self.old) scanner gauge }
        ensures yes { OnTrue result (state_of self.new ≡ hearing (state_of self.old) scanner gauge) }
        ensures no { OnFalse result (self.new ≡ self.old) }
    {
        if !self.can_hear(scanner, gauge) {
            return false;
        }
        let asked = self.asked[gauge as usize];
        let part = &mut self.scanner[scanner as usize];
        part.hears(gauge, asked);
        true
    }

    fn begin(&mut self, scanner: u32, gauge: u32) -> bool
        ensures allowed { IsTrue result ↔ CanBegin (state_of self.old) scanner gauge }
        ensures yes { OnTrue result (state_of self.new ≡ beginning (state_of self.old) scanner gauge) }
        ensures no { OnFalse result (self.new ≡ self.old) }
    {
        if !self.can_begin(scanner, gauge) {
            return false;
        }
        let begun = self.begun[gauge as usize];
        let number = self.scanner[scanner as usize].number_heard();
        let part = &mut self.scanner[scanner as usize];
        part.begins(gauge, begun);
        self.begun[gauge as usize] = begun.max(number);
        true
    }

    fn relieve(&mut self, pass: u32, gauge: u32) -> bool
        ensures allowed { IsTrue result ↔ CanRelieve (state_of self.old) pass gauge }
        ensures yes { OnTrue result (state_of self.new ≡ relieving (state_of self.old) pass gauge) }
        ensures no { OnFalse result (self.new ≡ self.old) }
    {
        if pass >= self.shape.passes || gauge >= self.shape.gauges {
            return false;
        }
        let begun = self.begun[gauge as usize];
        let caller = &mut self.caller[pass as usize];
        caller.relieves(gauge, begun);
        true
    }
}
