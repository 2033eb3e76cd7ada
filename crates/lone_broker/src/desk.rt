//! What the one-thread broker keeps of a session: `Engine` has a desk for each session that there can be.

ghost use Rattle.std.specs.Prelude.{◌≡◌, ℕ, ◌<◌, ◌≤◌, ◌∷◌, [], ◌++◌, length, drop, true, Some, None, if◌then◌else◌, count_by, IfOk, OnOk};
ghost use Rattle.audit.specs.IsLawful.{is_won_by};
ghost use Rattle.audit.specs.declared.account.TheConstants.{MOST_CALLS};
ghost use Rattle.audit.specs.broker.Acting.{has_ended, has_work};
ghost use Rattle.audit.specs.broker.Board.{empty_seat, new_transcript};
ghost use Rattle.audit.specs.broker.Completing.{finish_last};
ghost use Rattle.lone_broker.specs.Desks.{front_body, next_of, transcript_of};
ghost use Rattle.lone_broker.specs.Kept.{last_frame};
ghost use Rattle.lone_broker.specs.Steps.{last_points};
ghost use Rattle.kwire.specs.Frames.{next_frame_of};

use audit::{Call, CallHow, Point, SessionEnd, Transcript};
use kbytes::{Bytes, List, NoMemory, copied};
use kwire::{Frame, Inbox, next_frame};
use std::alloc::Global;
use std::marker::Model;

/// What a session received that isn't handled yet, whether its input has ended, and what it did, once a line named it.
#[derive(Drop)]
pub struct Desk {
    alloc: Global,
    inbox: Inbox,
    is_shut: bool,
    transcript: Option<Transcript>,
}

impl Model for Desk {
    ghost use Rattle.audit.specs.broker.Board.{Seat};
    ghost use Rattle.lone_broker.specs.Desks.{IsNumbered};

    ghost Value = { Seat };

    ghost view = { λ d. record { inbox = d.inbox; is_shut = d.is_shut; transcript = d.transcript } };

    ghost invariant = { λ d. IsNumbered d.transcript };
}

// Sets how the last of these calls ended.
fn finish_call(calls: &mut List<Call>, finish: List<Point>, how: CallHow) -> Result<(), NoMemory>
    ensures calls { OnOk result (calls.new ≡ finish_last finish how calls.old) }
    ensures count { length calls.new ≤ length calls.old }
{
    let Some(call) = calls.pop() else {
        return Ok(());
    };
    calls.push(Call {
        frame: call.frame,
        accept: call.accept,
        finish,
        how,
    })
}

// Whether the one winner completed the call.
fn is_won(call: &Call) -> bool
    ensures { result ≡ is_won_by 0 call.now }
{
    matches!(
        call.how,
        CallHow::Satisfied { by: 0 } | CallHow::Expired { by: 0 } | CallHow::Cut { won: Some(0) }
    )
}

// How many of these calls the one winner completed.
fn won(calls: &[Call]) -> u64
    ensures { result ≡ count_by (is_won_by 0) calls.now }
{
    let mut count = 0;
    for call in calls {
        if is_won(call) {
            count += 1;
        }
    }
    count
}

impl Desk {
    /// A session that no line has named. It takes no memory.
    pub fn new(alloc: Global) -> Desk
        ensures { result ≡ empty_seat }
    {
        Desk {
            alloc,
            inbox: Inbox::new(alloc),
            is_shut: false,
            transcript: None,
        }
    }

    // Gives the session, which has this number and is named now, a transcript if it has none.
    fn open(&mut self, session: u32)
        ensures { self.new ≡ record {
          inbox = self.old.inbox;
          is_shut = self.old.is_shut;
          transcript = Some (transcript_of session self.old);
        } }
    {
        if self.transcript.is_none() {
            self.transcript = Some(Transcript {
                number: u64::from(session),
                first: 0,
                calls: List::new(self.alloc),
                end: None,
            });
        }
    }

    fn has_ended(&self) -> bool
        ensures { result ≡ has_ended self.now.transcript }
    {
        match &self.transcript {
            None => false,
            Some(transcript) => transcript.end.is_some(),
        }
    }

    /// A line names the session, which has this number, and brings it these bytes. They are dropped if the session has ended. If
    /// memory runs out, it counts as named, and gets none of the bytes.
    pub fn feed(&mut self, session: u32, bytes: &[u8]) -> Result<(), NoMemory>
        ensures { OnOk result (self.new ≡ record {
          inbox = if has_ended self.old.transcript then self.old.inbox else self.old.inbox ++ bytes.now;
          is_shut = self.old.is_shut;
          transcript = Some (transcript_of session self.old);
        }) }
    {
        self.open(session);
        if self.has_ended() {
            return Ok(());
        }
        self.inbox.feed(bytes)
    }

    /// A line names the session, which has this number, and ends its input.
    pub fn shut(&mut self, session: u32)
        ensures { self.new ≡ record {
          inbox = self.old.inbox;
          is_shut = true;
          transcript = Some (transcript_of session self.old);
        } }
    {
        self.open(session);
        self.is_shut = true;
    }

    /// The frame at the front of the bytes that it received.
    pub fn front(&self) -> Frame
        ensures { result ≡ next_frame_of self.now.inbox }
    {
        next_frame(self.inbox.bytes())
    }

    /// Whether it has something to do: it hasn't ended, and there is a whole frame at the front, or one that is too long, or no
    /// more input comes.
    pub fn has_work(&self) -> bool
        ensures { result ≡ has_work self.now }
    {
        if self.has_ended() {
            return false;
        }
        match self.front() {
            Frame::Whole { .. } | Frame::TooLong { .. } => true,
            Frame::NotYet => self.is_shut,
        }
    }

    /// The bytes that it received and that aren't handled yet.
    pub fn left(&self) -> &[u8]
        ensures { result.now ≡ self.now.inbox }
    {
        self.inbox.bytes()
    }

    /// The body of the frame at the front, which ends before the place `end`.
    pub fn body(&self, alloc: Global, end: usize) -> Result<Bytes, NoMemory>
        requires least { 4 ≤ end }
        requires within { end ≤ length self.now.inbox }
        ensures { IfOk result (λ body. body ≡ front_body self.now end) }
    {
        copied(alloc, &self.inbox.bytes()[4..end])
    }

    /// The number of its next call.
    pub fn next_call(&self) -> usize
        ensures number { (session : ℕ) → result ≡ next_of session self.now }
        ensures few { result ≤ MOST_CALLS }
    {
        match &self.transcript {
            None => 0,
            Some(transcript) => transcript.calls.len(),
        }
    }

    /// Records that the frame at the front was handled as this call of the session, which was named and has room for a call. If
    /// memory runs out, the frame is gone and the call isn't there, so the session may only be dropped.
    pub fn note(&mut self, session: u32, end: usize, call: Call) -> Result<(), NoMemory>
        requires within { end ≤ length self.old.inbox }
        requires room { next_of session self.old < MOST_CALLS }
        ensures { OnOk result (self.new ≡ record {
          inbox = drop end self.old.inbox;
          is_shut = self.old.is_shut;
          transcript = Some (record (transcript_of session self.old) { calls = (transcript_of session self.old).calls ++ call ∷ [] });
        }) }
    {
        self.inbox.drop_front(end);
        self.open(session);
        if let Some(transcript) = &mut self.transcript {
            transcript.calls.push(call)?;
        }
        Ok(())
    }

    /// The body of its last call's frame, and no bytes if there is no call.
    pub fn last_frame(&self) -> &[u8]
        ensures { (session : ℕ) → result.now ≡ last_frame (transcript_of session self.now).calls }
    {
        let Some(transcript) = &self.transcript else {
            return &[];
        };
        match transcript.calls.as_slice().last() {
            None => &[],
            Some(call) => call.frame.as_slice(),
        }
    }

    /// The points of the entries that its last call left when it was accepted, and none if there is no call.
    pub fn last_points(&self) -> &[Point]
        ensures { (session : ℕ) → result.now ≡ last_points (transcript_of session self.now).calls }
    {
        let Some(transcript) = &self.transcript else {
            return &[];
        };
        match transcript.calls.as_slice().last() {
            None => &[],
            Some(call) => call.accept.as_slice(),
        }
    }

    /// Sets how the last call of the session, which was named, ended. If memory runs out, the call is gone, so the session may
    /// only be dropped.
    pub fn finish(
        &mut self,
        session: u32,
        finish: List<Point>,
        how: CallHow,
    ) -> Result<(), NoMemory>
        ensures { OnOk result (self.new ≡ record {
          inbox = self.old.inbox;
          is_shut = self.old.is_shut;
          transcript = Some (record (transcript_of session self.old) {
            calls = finish_last finish how (transcript_of session self.old).calls;
          });
        }) }
    {
        self.open(session);
        if let Some(transcript) = &mut self.transcript {
            finish_call(&mut transcript.calls, finish, how)?;
        }
        Ok(())
    }

    /// How many of its calls were completed after they had waited.
    pub fn completed(&self) -> u64
        ensures count { (session : ℕ) → result ≡ count_by (is_won_by 0) (transcript_of session self.now).calls }
        ensures few { result ≤ MOST_CALLS }
    {
        match &self.transcript {
            None => 0,
            Some(transcript) => won(transcript.calls.as_slice()),
        }
    }

    /// Sets how the session, which was named, ended. Bytes that it received and that aren't handled stay where they are.
    pub fn end(&mut self, session: u32, end: SessionEnd)
        ensures { self.new ≡ record {
          inbox = self.old.inbox;
          is_shut = self.old.is_shut;
          transcript = Some (record (transcript_of session self.old) { end = Some end });
        } }
    {
        self.open(session);
        if let Some(transcript) = &mut self.transcript {
            transcript.end = Some(end);
        }
    }

    /// What it did, if a line named it.
    pub fn into_transcript(self) -> Option<Transcript>
        ensures { result ≡ self.transcript }
    {
        self.transcript
    }
}
