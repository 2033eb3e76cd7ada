//! A port of links that give their bytes later.
ghost use Rattle.std.specs.Prelude.{◌≡◌, false, None, Some};

use crate::slow_link::SlowLink;
use outside::{Failed, Port};
use std::alloc::Global;
use std::time::Clock;

// A link that was handed back.
#[derive(Drop)]
struct Back<'a, R> {
    number: u64,
    link: SlowLink<'a, R>,
}

/// A port in memory that gives these links, the last first, and keeps those that come back.
#[derive(Drop)]
pub(crate) struct SlowPort<'a, R> {
    waiting: Vec<SlowLink<'a, R>>,
    back: Vec<Back<'a, R>>,
    number: Option<u16>,
    given: u64,
    is_ended: bool,
    retired: u64,
}

impl<'a, R> SlowPort<'a, R> {
    pub(crate) fn new(alloc: Global, waiting: Vec<SlowLink<'a, R>>) -> SlowPort<'a, R>
        ensures number { result.number ≡ None }
        ensures given { result.given ≡ 0 }
        ensures ended { result.is_ended ≡ false }
        ensures retired { result.retired ≡ 0 }
    {
        SlowPort {
            waiting,
            back: Vec::new(alloc),
            number: None,
            given: 0,
            is_ended: false,
            retired: 0,
        }
    }

    /// Whether a link came back under this number, to which just these bytes were written.
    pub(crate) fn was_sent(&self, number: u64, bytes: &[u8]) -> bool {
        self.back.iter().any(|back| back.number == number && back.link.inner.bytes() == bytes)
    }
}

impl<'a, R: Clock> Port for SlowPort<'a, R> {
    type Link = SlowLink<'a, R>;

    ghost faults = { λ _. 0 };

    ghost opened_with = { λ p. p.number };

    ghost given = { λ p. p.given };

    ghost is_ended = { λ p. p.is_ended };

    ghost retired_count = { λ p. p.retired };

    ghost retired = { λ _. None };

    fn open(&mut self, number: u16) -> Result<(), Failed> {
        self.number = Some(number);
        Ok(())
    }

    fn accept(&mut self) -> Result<Option<SlowLink<'a, R>>, Failed> {
        if self.is_ended {
            return Ok(None);
        }
        match self.waiting.pop() {
            // one that was used before is none
            Some(link) if link.faults == 0 && !link.inner.was_shut() => {
                self.given = self.given.saturating_add(1);
                Ok(Some(link))
            }
            _ => {
                self.is_ended = true;
                Ok(None)
            }
        }
    }

    fn retire(&mut self, number: u64, link: SlowLink<'a, R>) {
        self.retired = self.retired.saturating_add(1);
        let _ = self.back.push(Back { number, link });
    }
}
