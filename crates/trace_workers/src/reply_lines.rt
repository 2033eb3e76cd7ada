//! The printed lines of a session's replies, kept as it is answered. A session of a trace has them if its run is printed session by session.
ghost use Rattle.std.specs.Prelude.{◌≡◌, ◌++◌, [], OnOk, IfOk, is_some};
ghost use Rattle.audit.specs.declared.account.Account.{Account};
ghost use Rattle.audit.specs.broker.GoesOn.{Carried};
ghost use Rattle.shared_broker.specs.Finding.{HasCaughtUp};
ghost use Rattle.shared_broker.specs.Passes.{made_with};
ghost use Rattle.trace_workers.specs.Telling.{HasPut, IsFresh, frame_line, joined, part_text};

use crate::print_part::PrintPart;
use crate::stored::find_stored;
use kbytes::{Bytes, List, NoMemory};
use shared_broker::{Broker, Pass};
use std::alloc::Global;
use std::marker::Model;
use std::mem;
use std::sync::Wait;
use trace_file::Digits;

/// The most bytes of a block of lines, where no line is longer.
const BLOCK: usize = 65_536;

/// The bytes of the first block of lines, and of the first one after a frame that is kept as it is.
const FIRST_BLOCK: usize = 256;

/// More bytes than the line of a reply has beside the digits of its frame.
const BESIDE_DIGITS: usize = 32;

/// A frame of more bytes is kept as it is, or without the records that stand in a log.
const LONG_FRAME: usize = 512;

/// The lines of the replies so far, one after the other. Those of short frames are in blocks, so that none is moved as more come; a long frame is
/// kept as it is, in its own memory, or without the records that stand in a log (`shorten`).
#[derive(Drop)]
pub struct ReplyLines {
    alloc: Global,
    digits: Digits,
    parts: List<PrintPart>,
    // the block of lines after these parts, and for how many bytes it was made
    last: Bytes,
    room: usize,
}

impl Model for ReplyLines {
    ghost use Rattle.std.specs.Prelude.{[], ◌∷◌, ◌++◌, List};
    ghost use Rattle.trace_workers.specs.declared.print_part.PrintPart.{PrintPart};

    ghost Value = { List PrintPart };

    ghost view = { λ l. l.parts ++ PrintPart.Text l.last ∷ [] };
}

// Puts a block of lines after the parts, if it has any.
fn end_block(parts: &mut List<PrintPart>, block: Bytes) -> Result<(), NoMemory>
    ensures { OnOk result ((account : Account) → joined account parts.new ≡ joined account parts.old ++ block) }
{
    if block.is_empty() {
        return Ok(());
    }
    parts.push(PrintPart::Text(block))
}

// A part without the records that stand in a log, if it is a reply's with such records.
fn shorter(
    rt: &impl Wait,
    alloc: Global,
    broker: &Broker,
    pass: &mut Pass,
    part: PrintPart,
) -> Result<PrintPart, NoMemory>
    requires made { made_with pass.old ≡ broker.now }
    ensures others { HasCaughtUp pass.old pass.new }
    ensures same { IfOk result (λ now. Carried pass.new.config pass.new.logs.parts pass.new.logs.clock (λ account. part_text account now ≡ part_text account part)) }
{
    let PrintPart::Reply { session, frame } = part else {
        return Ok(part);
    };
    let Some(stored) = find_stored(rt, broker, pass, frame.as_slice()) else {
        return Ok(PrintPart::Reply { session, frame });
    };
    let mut head = Bytes::new(alloc);
    head.extend(&frame.as_slice()[..stored.head])?;
    Ok(PrintPart::Stored {
        session,
        head,
        range: stored.range,
    })
}

impl ReplyLines {
    /// No lines yet.
    pub fn make(alloc: Global) -> Result<ReplyLines, NoMemory>
        ensures { IfOk result (λ lines. (account : Account) → joined account lines ≡ []) }
    {
        let digits = Digits::make(alloc)?;
        Ok(ReplyLines {
            alloc,
            digits,
            parts: List::new(alloc),
            last: Bytes::new(alloc),
            room: 0,
        })
    }

    // Begins another block, twice as long as the last one, with room for a line of this length.
    fn begin_block(&mut self, line: usize) -> Result<(), NoMemory>
        ensures { OnOk result ((account : Account) → joined account self.new ≡ joined account self.old) }
    {
        let twice = self.room.saturating_add(self.room);
        self.room = twice.max(FIRST_BLOCK).min(BLOCK).max(line);
        let mut block = Bytes::new(self.alloc);
        block.reserve(self.room)?;
        let full = mem::replace(&mut self.last, block);
        end_block(&mut self.parts, full)
    }

    // Begins another block if this one has no room for a line of this length.
    fn make_room(&mut self, line: usize) -> Result<(), NoMemory>
        ensures { OnOk result ((account : Account) → joined account self.new ≡ joined account self.old) }
    {
        if self.last.len().saturating_add(line) > self.room {
            self.begin_block(line)
        } else {
            Ok(())
        }
    }

    // Adds the line of a frame.
    fn put_short(&mut self, session: u32, frame: &[u8]) -> Result<(), NoMemory>
        ensures { OnOk result ((account : Account) → joined account self.new ≡ joined account self.old ++ frame_line session frame.now) }
    {
        let digits = frame.len().saturating_add(frame.len());
        self.make_room(digits.saturating_add(BESIDE_DIGITS))?;
        self.digits.put_reply_line(&mut self.last, session, frame)
    }

    // Keeps a frame as it is.
    fn put_long(&mut self, session: u32, frame: Bytes) -> Result<(), NoMemory>
        ensures { OnOk result ((account : Account) → joined account self.new ≡ joined account self.old ++ frame_line session frame) }
    {
        let full = mem::replace(&mut self.last, Bytes::new(self.alloc));
        end_block(&mut self.parts, full)?;
        self.room = 0;
        self.parts.push(PrintPart::Reply { session, frame })
    }

    /// Adds the line of a session's reply, whose frame this is. If memory runs out, it may only be dropped. Apart from the session's step, which
    /// most sessions leave at once.
    #[inline(never)]
    pub fn put(&mut self, session: u32, frame: Bytes) -> Result<(), NoMemory>
        ensures { OnOk result ((account : Account) → joined account self.new ≡ joined account self.old ++ frame_line session frame) }
    {
        if frame.len() > LONG_FRAME {
            self.put_long(session, frame)
        } else {
            self.put_short(session, frame.as_slice())
        }
    }

    /// Gives back the records of the last reply if it is long and they stand in a log: they are then read there, in the account of the run. If memory
    /// runs out, it may only be dropped.
    pub fn shorten(
        &mut self,
        rt: &impl Wait,
        broker: &Broker,
        pass: &mut Pass,
    ) -> Result<(), NoMemory>
        requires made { made_with pass.old ≡ broker.now }
        ensures others { HasCaughtUp pass.old pass.new }
        ensures same { OnOk result (Carried pass.new.config pass.new.logs.parts pass.new.logs.clock (λ account. joined account self.new ≡ joined account self.old)) }
    {
        if !self.last.is_empty() {
            return Ok(());
        }
        let Some(part) = self.parts.pop() else {
            return Ok(());
        };
        let part = shorter(rt, self.alloc, broker, pass, part)?;
        self.parts.push(part)
    }

    /// The lines, in parts.
    pub fn into_parts(self) -> Result<List<PrintPart>, NoMemory>
        ensures { IfOk result (λ parts. (account : Account) → joined account parts ≡ joined account self) }
    {
        let ReplyLines {
            mut parts,
            last,
            ..
        } = self;
        parts.push(PrintPart::Text(last))?;
        Ok(parts)
    }
}

/// No lines yet, if a session is to keep them.
pub fn lines_if(alloc: Global, keeps_lines: bool) -> Result<Option<ReplyLines>, NoMemory>
    ensures fresh { IfOk result IsFresh }
    ensures kept { IfOk result (λ lines. is_some lines ≡ keeps_lines) }
{
    if !keeps_lines {
        return Ok(None);
    }
    Ok(Some(ReplyLines::make(alloc)?))
}

/// Adds the line of a reply, if lines are kept.
pub fn put_line(kept: &mut Option<ReplyLines>, session: u32, frame: Bytes) -> Result<(), NoMemory>
    ensures line { OnOk result (HasPut session frame kept.old kept.new) }
    ensures still { is_some kept.new ≡ is_some kept.old }
{
    match kept {
        Some(lines) => lines.put(session, frame),
        None => Ok(()),
    }
}
