//! What a pass owes, for `Owner` alone: the values that contracts know, and the range of gauges that settling has to look at.
ghost use Rattle.std.specs.Prelude.{◌≡◌, ◌≤◌, ◌<◌, All, IfOk, length, max, set, slice_index};
ghost use Rattle.room_core.specs.Numbers.{most_gauges};
ghost use Rattle.purgatory.specs.Owing.{AreDebts};

use kbytes::NoMemory;
use std::alloc::Global;
use std::marker::Model;

/// By gauge: up to which value a pass owes a scan, 0 for none. It owes nothing of the gauges below `from`, nor of those from `upto` on.
/// So settling looks at few gauges, since most calls raise those of one partition.
#[derive(Drop)]
pub(crate) struct Debts {
    owed: Vec<u64>,
    from: u32,
    upto: u32,
}

impl Model for Debts {
    ghost use Rattle.std.specs.Prelude.{ℕ, List};
    ghost use Rattle.purgatory.specs.Owing.{AreDebts};

    ghost Value = { List ℕ };

    ghost view = { λ d. d.owed.items };

    ghost invariant = { λ d. AreDebts d.from d.upto d.owed.items };
}

impl Debts {
    /// No debts, for this many gauges.
    pub(crate) fn none(alloc: Global, gauges: u32) -> Result<Debts, NoMemory>
        requires { gauges ≤ most_gauges }
        ensures all { IfOk result (λ debts. length debts ≡ gauges) }
        ensures none { IfOk result (λ debts. All (λ debt. debt ≡ 0) debts) }
    {
        let owed = vec![in alloc; 0; gauges as usize]?;
        Ok(Debts {
            owed,
            from: 0,
            upto: 0,
        })
    }

    /// What it owes of a gauge.
    pub(crate) fn of(&self, gauge: u32) -> u64
        requires { gauge < length self.now }
        ensures { result ≡ slice_index self.now gauge }
    {
        self.owed[gauge as usize]
    }

    /// The gauges of which it may owe something: from the first number up to, and without, the second.
    pub(crate) fn span(&self) -> (u32, u32)
        ensures there { result.1 ≤ length self.now }
        ensures others { AreDebts result.0 result.1 self.now }
    {
        (self.from, self.upto)
    }

    /// It owes a scan of the gauge up to the value, or past it if it did before.
    pub(crate) fn add(&mut self, gauge: u32, value: u64)
        requires { gauge < length self.old }
        ensures { self.new ≡ set self.old gauge (max (slice_index self.old gauge) value) }
    {
        let owed = self.owed[gauge as usize];
        self.owed[gauge as usize] = owed.max(value);
        if self.upto <= self.from {
            self.from = gauge;
            self.upto = gauge + 1;
        } else {
            self.from = self.from.min(gauge);
            self.upto = self.upto.max(gauge + 1);
        }
    }

    /// It owes nothing of the gauge any more.
    pub(crate) fn clear(&mut self, gauge: u32)
        requires { gauge < length self.old }
        ensures { self.new ≡ set self.old gauge 0 }
    {
        self.owed[gauge as usize] = 0;
    }

    /// It owes nothing of any gauge.
    pub(crate) fn close(&mut self)
        requires { All (λ debt. debt ≡ 0) self.old }
        ensures { self.new ≡ self.old }
    {
        self.from = 0;
        self.upto = 0;
    }
}
