//! A link that gives its bytes later.
ghost use Rattle.std.specs.Prelude.{◌≡◌, ◌≤◌, None};
ghost use Rattle.std.specs.Io.{ReadsAtMost, WritesAtMost};
ghost use Rattle.outside.specs.Count.{one_more};

use outside::{Failed, Link, MemLink};
use std::sync::atomic::{AtomicBool, Ordering};
use std::thread;
use std::time::{Clock, Duration};

const TRIES: u32 = 20_000;

/// A link in memory that gives no bytes before `is_due`. Where that takes too long, its read fails.
#[derive(Drop)]
pub(crate) struct SlowLink<'a, R> {
    pub(crate) rt: &'a R,
    pub(crate) inner: MemLink,
    pub(crate) is_due: &'a AtomicBool,
    pub(crate) faults: u64,
}

impl<R: Clock> SlowLink<'_, R> {
    fn fail(&mut self) -> Failed
        ensures later { self.old.faults ≤ self.new.faults }
        ensures counted { one_more self.old.faults ≤ self.new.faults }
        ensures shut { self.new.inner.is_shut ≡ self.old.inner.is_shut }
    {
        self.faults = self.faults.saturating_add(1);
        Failed
    }

    fn comes(&self) -> bool {
        for _ in 0..TRIES {
            if self.is_due.load(Ordering::SeqCst) {
                return true;
            }
            thread::sleep(self.rt, Duration::from_millis(1));
        }
        false
    }
}

impl<R: Clock> Link for SlowLink<'_, R> {
    ghost taken = { λ _. None };

    ghost left = { λ _. None };

    ghost written = { λ _. None };

    ghost faults = { λ l. l.faults };

    ghost is_shut = { λ l. l.inner.is_shut };

    fn read(&mut self, into: &mut [u8]) -> Result<usize, Failed> {
        if !self.comes() {
            return Err(self.fail());
        }
        match self.inner.read(into) {
            Ok(count) => Ok(count),
            Err(_) => Err(self.fail()),
        }
    }

    fn write(&mut self, part: &[u8]) -> Result<usize, Failed> {
        match self.inner.write(part) {
            Ok(count) => Ok(count),
            Err(_) => Err(self.fail()),
        }
    }

    fn shut(&mut self) {
        self.inner.shut();
    }
}
