//! Reading a text as the lines of a trace: what a part of it has, and what all of it so far comes to.

ghost use Rattle.std.specs.Prelude.{Bool, ◌≡◌, ◌≤◌, ◌<◌, ◌++◌, ◌∷◌, [], ℕ, length, is_some, IfOk, IfErr, OnOk, OnErr, List as Items};
ghost use Rattle.std.specs.List.{flat_map};
ghost use Rattle.trace_file.specs.declared.line.Line.{Line};
ghost use Rattle.trace_file.specs.declared.line.LineKind.TheVariants as kinds;
ghost use Rattle.trace_file.specs.Contents.{configuration_of, topic_in};
ghost use Rattle.trace_file.specs.IsInOrder.{AreNewTopics};
ghost use Rattle.trace_file.specs.LineFaults.{IsNewLine};
ghost use Rattle.trace_file.specs.FirstBad.{IsTooLong, IsTraceRead, TellsFirstBad};
ghost use Rattle.trace_file.specs.Refusals.{Tells};
ghost use Rattle.trace_file.specs.Trace.{pieces_of};
ghost use Rattle.trace_file.specs.TextRead.{AreLinesOf, HasRead, feeds_in};

use crate::digit_values::DigitValues;
use crate::line::{Line, LineFault, LineKind, MOST_TRACE_BYTES, REPLAY_PORT, TraceFault};
use crate::order::Order;
use crate::pieces::next_piece;
use crate::read_line::read_line;
use crate::refusal::Refusal;
use kbytes::{List, NoMemory};
use kwire::Config;
use std::alloc::Global;

/// The lines of a part of a text, up to the first whose text is bad, whatever their order.
#[derive(Drop)]
pub struct PartLines {
    lines: List<Line>,
    /// What is wrong with the line after these.
    fault: Option<LineKind>,
}

/// Reads the lines of a part that begins where a line does.
pub fn part_lines(alloc: Global, values: &DigitValues, part: &[u8]) -> Result<PartLines, NoMemory>
    ensures { IfOk result (AreLinesOf (pieces_of part.now)) }
{
    let mut lines = List::new(alloc);
    let mut rest = part;
    while let Some((piece, after)) = next_piece(rest) {
        match read_line(alloc, values, piece) {
            Ok(line) => lines.push(line)?,
            Err(Refusal::Bad(kind)) => {
                return Ok(PartLines {
                    lines,
                    fault: Some(kind),
                });
            }
            Err(Refusal::NoMemory) => return Err(NoMemory),
        }
        rest = after;
    }
    Ok(PartLines { lines, fault: None })
}

/// What was read of a text so far: its lines up to the first bad one, and what is wrong with that.
#[derive(Drop)]
pub struct Reading {
    only_topics: bool,
    lines: List<Line>,
    /// What is wrong with the line after these.
    fault: Option<LineKind>,
    config: Config,
    order: Order,
    values: DigitValues,
}

// Declares the topic of a line, if it is one.
fn declare(config: &mut Config, line: &Line) -> Result<(), Refusal>
    ensures added { OnOk result (config.new ≡ record config.old { topics = config.old.topics ++ topic_in line.now }) }
    ensures allowed { OnOk result ((before : Items Line) → config.old.topics ≡ flat_map topic_in before → IsNewLine before line.now) }
    ensures fault { IfErr result (λ e. Tells e (λ kind. (kind ≡ kinds.BadTopic)
        × ((before : Items Line) → config.old.topics ≡ flat_map topic_in before → IsNewLine before line.now → ⊥))) }
    ensures refused { OnErr result (config.new ≡ config.old) }
{
    let Line::Topic {
        name,
        partitions,
        followers,
        min_insync,
    } = line
    else {
        return Ok(());
    };
    match config.add(name.as_slice(), *partitions, *followers, *min_insync) {
        Ok(()) => Ok(()),
        Err(fault) => Err(Refusal::from(fault)),
    }
}

impl Reading {
    ghost use Rattle.trace_file.specs.LineFaults.{IsPlaceFault};
    ghost use Rattle.trace_file.specs.Sees.{AreRead, NamesOne};

    /// Nothing was read. With `only_topics` the lines are to be those of a server's topics.
    pub fn new(alloc: Global, only_topics: bool) -> Reading
        ensures read { HasRead only_topics [] result }
    {
        Reading {
            only_topics,
            lines: List::new(alloc),
            fault: None,
            config: Config::new(alloc, REPLAY_PORT),
            order: Order::new(),
            values: DigitValues::make(),
        }
    }

    /// The values of digits, by which lines are read.
    pub fn values(&self) -> &DigitValues {
        &self.values
    }

    /// How many lines there are before the first bad one.
    pub fn len(&self) -> usize
        ensures { result ≡ length self.now.lines }
    {
        self.lines.len()
    }

    /// Whether a line is bad.
    pub fn is_bad(&self) -> bool
        ensures { result ≡ is_some self.now.fault }
    {
        self.fault.is_some()
    }

    // Takes the next line, or answers what is wrong with its place.
    fn add(&mut self, line: Line) -> Result<(), Refusal>
        requires read { AreRead self.old.only_topics self.old }
        requires named { NamesOne line }
        ensures read { OnOk result (AreRead self.new.only_topics self.new) }
        ensures line { OnOk result (self.new.lines ≡ self.old.lines ++ line ∷ []) }
        ensures same { (self.new.only_topics ≡ self.old.only_topics) × (self.new.fault ≡ self.old.fault) }
        ensures fault { IfErr result (λ e. Tells e (IsPlaceFault self.old.only_topics self.old.lines line)) }
        ensures refused { IfErr result (λ e. Tells e (λ kind. self.new ≡ self.old)) }
    {
        if !self.order.allows(self.only_topics, &line) {
            return Err(Refusal::Bad(LineKind::Order));
        }
        declare(&mut self.config, &line)?;
        self.order.pass(&line);
        self.lines.push(line)?;
        Ok(())
    }

    // Keeps what is wrong with the next line, if it is bad.
    fn stop(&mut self, fault: Option<LineKind>)
        ensures { self.new ≡ record self.old { fault = fault } }
    {
        self.fault = fault;
    }

    /// Takes the lines of the part that comes next, up to the first bad one. Out of memory, it may only be dropped.
    pub fn take(&mut self, part: PartLines) -> Result<(), NoMemory>
        requires read { AreRead self.old.only_topics self.old }
        requires part { (pieces : Items (Items ℕ)) × AreLinesOf pieces part }
        ensures read { OnOk result (AreRead self.new.only_topics self.new) }
        ensures taken { OnOk result ((only_topics : Bool) (before pieces : Items (Items ℕ)) → HasRead only_topics before self.old → AreLinesOf pieces part
            → HasRead only_topics (before ++ pieces) self.new) }
    {
        if self.fault.is_some() {
            return Ok(());
        }
        for line in part.lines.into_vec() {
            match self.add(line) {
                Ok(()) => {}
                Err(Refusal::Bad(kind)) => {
                    self.stop(Some(kind));
                    return Ok(());
                }
                Err(Refusal::NoMemory) => return Err(NoMemory),
            }
        }
        self.stop(part.fault);
        Ok(())
    }

    /// Reads the part that comes next, which begins where a line does, up to the first bad line. Out of memory, it may only be dropped.
    pub fn read(&mut self, alloc: Global, part: &[u8]) -> Result<(), NoMemory>
        requires { AreRead self.old.only_topics self.old }
        ensures read { OnOk result (AreRead self.new.only_topics self.new) }
        ensures taken { OnOk result ((only_topics : Bool) (before : Items (Items ℕ)) → HasRead only_topics before self.old
            → HasRead only_topics (before ++ pieces_of part.now) self.new) }
    {
        let lines = part_lines(alloc, &self.values, part)?;
        self.take(lines)
    }

    /// The lines, if none is bad and the last of them is the end, or else the first bad one. No more lines come.
    pub fn ended(self) -> Result<List<Line>, TraceFault>
        requires { (only_topics : Bool) × (text : Items ℕ) × (length text ≤ MOST_TRACE_BYTES) × HasRead only_topics (pieces_of text) self }
        ensures trace { IfOk result (λ lines. (only_topics : Bool) (text : Items ℕ) → length text ≤ MOST_TRACE_BYTES → HasRead only_topics (pieces_of text) self
            → IsTraceRead text only_topics lines) }
        ensures bad { IfErr result (λ fault. (only_topics : Bool) (text : Items ℕ) → length text ≤ MOST_TRACE_BYTES → HasRead only_topics (pieces_of text) self
            → TellsFirstBad text only_topics fault) }
    {
        let line = self.lines.len() as u32 + 1;
        if let Some(kind) = self.fault {
            return Err(TraceFault::Bad(LineFault { line, kind }));
        }
        if !self.order.is_ended() {
            let kind = LineKind::NoEnd;
            return Err(TraceFault::Bad(LineFault { line, kind }));
        }
        Ok(self.lines)
    }
}

/// How many lines of a text are ended.
pub fn line_feeds(text: &[u8]) -> usize
    ensures { result ≡ feeds_in text.now }
{
    text.iter().filter(|byte| **byte == b'\n').count()
}

// The line that goes past the limit.
fn too_long(text: &[u8]) -> LineFault
    requires { MOST_TRACE_BYTES < length text.now }
    ensures { IsTooLong text.now result }
{
    LineFault {
        line: line_feeds(&text[..MOST_TRACE_BYTES]) as u32 + 1,
        kind: LineKind::TooLong,
    }
}

/// Reads the text of a trace, or with `only_topics` that of a server's topics, which has only lines `topic` and `end`. It
/// answers `Bad`, with the first bad line, exactly where the text is no such trace.
pub fn read_trace(alloc: Global, text: &[u8], only_topics: bool) -> Result<List<Line>, TraceFault>
    ensures trace { IfOk result (IsTraceRead text.now only_topics) }
    ensures bad { IfErr result (TellsFirstBad text.now only_topics) }
{
    if text.len() > MOST_TRACE_BYTES {
        return Err(TraceFault::Bad(too_long(text)));
    }
    let mut reading = Reading::new(alloc, only_topics);
    reading.read(alloc, text)?;
    reading.ended()
}

/// The configuration that the lines of a trace declare, with this port.
pub fn config_of(alloc: Global, lines: &[Line], port: u16) -> Result<Config, NoMemory>
    requires { AreNewTopics lines.now }
    ensures { IfOk result (λ config. config ≡ configuration_of port lines.now) }
{
    let mut config = Config::new(alloc, port);
    for line in lines {
        match declare(&mut config, line) {
            Ok(()) => {}
            Err(Refusal::NoMemory) => return Err(NoMemory),
            Err(Refusal::Bad(_)) => unreachable!(),
        }
    }
    Ok(config)
}
