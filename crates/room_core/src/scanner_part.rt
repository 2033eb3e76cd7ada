//! What a scanner knows, which no other thread sees. `CoreState` keeps one for each scanner; hearing and beginning are here, its
//! other steps in `scanner_acts`, `scanner_checks` and `scanner_wins`.
ghost use Rattle.std.specs.Prelude.{◌≡◌, ◌↔◌, ◌<◌, IfOk, IsTrue, length, All, replicate, None};
ghost use Rattle.room_core.specs.Scans.{IsHeard, number_heard, scanner_begins, scanner_hears};
ghost use Rattle.room_core.specs.ScannerSize.{ScannerIsSized};

use crate::description::DESCRIPTION_WORDS;
use crate::duties::make_duties;
use crate::empty::{forget, nothing_read};
use crate::parts::{Duty, Entry, Heard, Meeting, Prize};
use crate::shape::Shape;
use kbytes::NoMemory;
use std::alloc::Global;

/// A scanner's part, with a table by number for each thing that it knows.
#[derive(Drop)]
pub(crate) struct ScannerPart {
    pub(crate) shape: Shape,
    pub(crate) heard: Option<Heard>,
    pub(crate) began: Vec<u64>,
    pub(crate) listing: Vec<Vec<Option<Entry>>>,
    pub(crate) duties: Vec<Option<Duty>>,
    pub(crate) meeting: Option<Meeting>,
    pub(crate) learned: Vec<Option<u64>>,
    pub(crate) readings: Vec<Option<u64>>,
    pub(crate) wins: Vec<Prize>,
    ghost sized: { ScannerIsSized shape began listing duties learned readings },
}

/// A row for each gauge, with nothing listed.
fn empty_rows(alloc: Global, shape: Shape) -> Result<Vec<Vec<Option<Entry>>>, NoMemory>
    ensures size { IfOk result (λ v. length v.items ≡ shape.gauges) }
    ensures rows { IfOk result (λ v. All (λ row. row.items ≡ replicate shape.passes None) v.items) }
{
    let mut rows = Vec::new(alloc);
    for _gauge in 0..shape.gauges {
        rows.push(vec![in alloc; None; shape.passes as usize]?)?;
    }
    Ok(rows)
}

/// A table with no duty for any pass.
fn no_duties(alloc: Global, shape: Shape) -> Result<Vec<Option<Duty>>, NoMemory>
    ensures { IfOk result (λ v. v.items ≡ replicate shape.passes None) }
{
    Ok(vec![in alloc; None; shape.passes as usize]?)
}

impl ScannerPart {
    ghost use Rattle.room_core.specs.ScannerTables.{scanner_of};
    ghost use Rattle.room_core.specs.Start.{idle_scanner};

    pub(crate) fn idle(alloc: Global, shape: Shape) -> Result<ScannerPart, NoMemory>
        ensures part { IfOk result (λ c. scanner_of c ≡ idle_scanner) }
        ensures shape { IfOk result (λ c. c.shape ≡ shape) }
    {
        let gauges = shape.gauges as usize;
        Ok(ScannerPart {
            shape,
            heard: None,
            began: vec![in alloc; 0; gauges]?,
            listing: empty_rows(alloc, shape)?,
            duties: no_duties(alloc, shape)?,
            meeting: None,
            learned: nothing_read(alloc, DESCRIPTION_WORDS as usize)?,
            readings: nothing_read(alloc, gauges)?,
            wins: Vec::new(alloc),
        })
    }

    /// Whether the gauge is the one that the scanner has heard last.
    pub(crate) fn has_heard(&self, gauge: u32) -> bool
        ensures { IsTrue result ↔ IsHeard self.now.heard gauge }
    {
        match self.heard {
            Some(heard) => heard.gauge == gauge,
            None => false,
        }
    }

    pub(crate) fn number_heard(&self) -> u64
        ensures { result ≡ number_heard self.now.heard }
    {
        match self.heard {
            Some(heard) => heard.number,
            None => 0,
        }
    }

    pub(crate) fn hears(&mut self, gauge: u32, asked: u64)
        ensures part { scanner_of self.new ≡ scanner_hears (scanner_of self.old) gauge asked }
        ensures shape { self.new.shape ≡ self.old.shape }
    {
        self.heard = Some(Heard {
            gauge,
            number: asked,
        });
    }

    pub(crate) fn begins(&mut self, gauge: u32, begun: u64)
        requires { gauge < self.old.shape.gauges }
        ensures part { scanner_of self.new ≡ scanner_begins self.old.shape (scanner_of self.old) gauge begun }
        ensures shape { self.new.shape ≡ self.old.shape }
    {
        let number = self.number_heard();
        let shape = self.shape;
        self.began[gauge as usize] = begun.max(number);
        self.meeting = None;
        forget(&mut self.learned);
        forget(&mut self.readings);
        make_duties(
            &mut self.duties,
            &self.listing[gauge as usize],
            shape,
            gauge,
            begun,
            number,
        );
    }
}
