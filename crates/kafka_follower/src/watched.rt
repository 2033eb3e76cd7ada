//! What a follower says on a terminal while it copies: how far its copy is, once a second. `main` puts the dial and the link of this file
//! around the real ones: a request that goes out names the offset of the next record that the copy lacks.

ghost use Rattle.std.specs.Prelude.{◌≡◌, None};

use follower::Dial;
use outside::{Failed, Link};
use std::time::{Clock, Duration, Instant};

// For so many seconds it says nothing in between.
const PAUSE: u64 = 1;

// In a request for one partition the offset stands before the most bytes, which come last.
const OFFSET_BEFORE_END: usize = 12;

/// A link that says how far the copy is.
#[derive(Drop)]
pub struct WatchedLink<'a, R, L: Drop> {
    inner: L,
    rt: &'a R,
    // when it said so last, or was made; `None` where it says nothing
    said: Option<Instant>,
}

// The offset that a whole request asks for.
fn offset_of(request: &[u8]) -> Option<i64> {
    let at = request.len().checked_sub(OFFSET_BEFORE_END)?;
    let (offset, _) = request[at..].split_first_chunk::<8>()?;
    Some(i64::from_be_bytes(*offset))
}

impl<R: Clock + Eprint, L: Link + Drop> WatchedLink<'_, R, L> {
    // A request went out whole: says how far the copy is, where it is time for that.
    fn say(&mut self, request: &[u8])
        ensures { self.new.inner ≡ self.old.inner }
    {
        let Some(said) = self.said else {
            return;
        };
        let Ok(passed) = said.elapsed(self.rt) else {
            return;
        };
        if passed < Duration::from_secs(PAUSE) {
            return;
        }
        if let Some(offset) = offset_of(request) {
            let _ = self.rt.eprintln(format_args!(
                "kafka_follower: the copy ends at offset {offset}"
            ));
        }
        self.said = Instant::now(self.rt).ok();
    }
}

impl<R: Clock + Eprint, L: Link + Drop> Link for WatchedLink<'_, R, L> {
    ghost taken = { λ l. L.taken l.inner };

    ghost left = { λ l. L.left l.inner };

    ghost written = { λ l. L.written l.inner };

    ghost faults = { λ l. L.faults l.inner };

    ghost is_shut = { λ l. L.is_shut l.inner };

    fn read(&mut self, into: &mut [u8]) -> Result<usize, Failed> {
        self.inner.read(into)
    }

    fn write(&mut self, part: &[u8]) -> Result<usize, Failed> {
        match self.inner.write(part) {
            Ok(count) => {
                if count == part.len() {
                    self.say(part);
                }
                Ok(count)
            }
            Err(failed) => Err(failed),
        }
    }

    fn shut(&mut self) {
        self.inner.shut();
    }
}

/// A dial whose links say how far the copy is, if anybody is there to see it. It tells no retired links.
#[derive(Drop)]
pub struct WatchedDial<'a, R, D: Drop> {
    inner: D,
    rt: &'a R,
    is_seen: bool,
}

impl<'a, R: Clock + Eprint, D: Dial + Drop> WatchedDial<'a, R, D> {
    /// A dial over this one. Its links say nothing unless they are seen.
    pub fn new(rt: &'a R, inner: D, is_seen: bool) -> WatchedDial<'a, R, D>
        ensures { result.inner ≡ inner }
    {
        WatchedDial { inner, rt, is_seen }
    }
}

impl<'a, R: Clock + Eprint, D: Dial + Drop> Dial for WatchedDial<'a, R, D>
where
    D::Link: Drop,
{
    type Link = WatchedLink<'a, R, D::Link>;

    ghost faults = { λ d. D.faults d.inner };

    ghost dialled = { λ d. D.dialled d.inner };

    ghost retired = { λ _. None };

    fn dial(&mut self, port: u16) -> Result<WatchedLink<'a, R, D::Link>, Failed> {
        match self.inner.dial(port) {
            Ok(inner) => {
                let said = if self.is_seen {
                    Instant::now(self.rt).ok()
                } else {
                    None
                };
                Ok(WatchedLink {
                    inner,
                    rt: self.rt,
                    said,
                })
            }
            Err(failed) => Err(failed),
        }
    }

    fn retire(&mut self, link: WatchedLink<'a, R, D::Link>) {
        let WatchedLink {
            inner,
            rt: _,
            said: _,
        } = link;
        self.inner.retire(inner);
    }
}
