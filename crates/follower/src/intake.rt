//! What has come from the leader and isn't taken yet, and the buffer into which it is read.
ghost use Rattle.std.specs.Prelude.{◌≡◌, ◌≤◌, ◌++◌, [], ℕ, List, IfErr, IfOk, drop, length, vec_len};
ghost use Rattle.kwire.specs.Frames.{IsFrameBody, framed, next_frame_of};
ghost use Rattle.kwire.specs.declared.frame.Frame.TheVariants.{NotYet, Whole};
ghost use Rattle.follower.specs.Flows.{link_of};
ghost use Rattle.follower.specs.Rounds.{HasFilled, HasRead, IsOver};
ghost use Rattle.follower.specs.declared.intake.TheConstants.{MOST_READ};

use crate::fault::FollowEnd;
use kbytes::NoMemory;
use kwire::{Frame, Inbox, next_frame};
use outside::Link;
use std::alloc::{AllocError, Global};

/// The most bytes that are read from a link at a time.
pub(crate) const MOST_READ: usize = 65_536;

/// The bytes that came and aren't taken, and the buffer for those that come next.
#[derive(Drop)]
pub(crate) struct Intake {
    pub(crate) inbox: Inbox,
    buffer: Vec<u8>,
    ghost full: { vec_len buffer ≡ MOST_READ },
}

// The body of the frame at the front, which ends before the place `end`.
fn front_body(bytes: &[u8], end: usize) -> &[u8]
    requires { next_frame_of bytes.now ≡ Whole end }
    ensures small { IsFrameBody result.now }
    ensures parts { bytes.now ≡ framed result.now ++ drop end bytes.now }
{
    &bytes[4..end]
}

// Room for what is read at a time.
fn buffer(alloc: Global) -> Result<Vec<u8>, AllocError>
    ensures { IfOk result (λ buffer. vec_len buffer ≡ MOST_READ) }
{
    vec![in alloc; 0u8; MOST_READ]
}

// How following ends where no more comes after these bytes.
fn end_after(inbox: &[u8]) -> FollowEnd
    requires { next_frame_of inbox.now ≡ NotYet }
    ensures { IsOver result inbox.now }
{
    match inbox.len() {
        0 => FollowEnd::Closed,
        got => FollowEnd::Truncated { got: got as u32 },
    }
}

impl Intake {
    /// Nothing has come.
    pub(crate) fn new(alloc: Global) -> Result<Intake, NoMemory>
        ensures { IfOk result (λ intake. intake.inbox ≡ []) }
    {
        Ok(Intake {
            inbox: Inbox::new(alloc),
            buffer: buffer(alloc)?,
        })
    }

    /// What stands at the front.
    pub(crate) fn next(&self) -> Frame
        ensures { result ≡ next_frame_of self.now.inbox }
    {
        next_frame(self.inbox.bytes())
    }

    /// The body of the frame at the front, which ends before the place `end`.
    pub(crate) fn body(&self, end: usize) -> &[u8]
        requires { next_frame_of self.now.inbox ≡ Whole end }
        ensures small { IsFrameBody result.now }
        ensures parts { self.now.inbox ≡ framed result.now ++ drop end self.now.inbox }
    {
        front_body(self.inbox.bytes(), end)
    }

    /// The frame at the front, which ends before the place `end`, was taken.
    pub(crate) fn pass(&mut self, end: usize)
        requires { end ≤ length self.old.inbox }
        ensures { self.new.inbox ≡ drop end self.old.inbox }
    {
        self.inbox.drop_front(end);
    }

    // Reads once. Answers how following is to end where the read failed, where the input has ended, and where memory runs out.
    fn read<L: Link>(&mut self, link: &mut L) -> Option<FollowEnd>
        requires { next_frame_of self.old.inbox ≡ NotYet }
        ensures { HasRead result self.old.inbox self.new.inbox
            (link_of (L.taken link.old) (L.left link.old) (L.written link.old) (L.faults link.old))
            (link_of (L.taken link.new) (L.left link.new) (L.written link.new) (L.faults link.new)) }
    {
        match link.read(&mut self.buffer[..]) {
            Ok(0) => Some(end_after(self.inbox.bytes())),
            Ok(count) => match self.inbox.feed(&self.buffer[..count]) {
                Ok(()) => None,
                Err(NoMemory) => Some(FollowEnd::NoMemory),
            },
            Err(_) => Some(FollowEnd::ReadFault),
        }
    }

    /// Reads until a whole frame stands at the front, and answers where it ends; or how following is to end.
    pub(crate) fn fill<L: Link>(&mut self, link: &mut L) -> Result<usize, FollowEnd>
        ensures { HasFilled result self.old.inbox self.new.inbox
            (link_of (L.taken link.old) (L.left link.old) (L.written link.old) (L.faults link.old))
            (link_of (L.taken link.new) (L.left link.new) (L.written link.new) (L.faults link.new)) }
    {
        loop {
            match self.next() {
                Frame::Whole { end } => return Ok(end),
                Frame::TooLong { size } => return Err(FollowEnd::FrameTooLong { size }),
                Frame::NotYet => if let Some(end) = self.read(link) {
                    return Err(end);
                },
            }
        }
    }
}
