//! What is behind the lock of a shared port: `SharedPort` asks it in its turns.
ghost use Rattle.std.specs.Prelude.{◌≡◌, ◌<◌, ◌≤◌, ◌++◌, [], ◌∷◌, OnErr, OnOk, length};
ghost use Rattle.std.specs.Vec.{vec_capacity, vec_len};
ghost use Rattle.outside.specs.NewLink.{IsNewLink};
ghost use Rattle.turn_lock.specs.AddedBy.{AddedBy};
ghost use Rattle.outside.specs.shared.port.Asked.{IfLink, IsAnswer, accept_entries, open_entries};
ghost use Rattle.outside.specs.shared.port.Entries.{HasRetired, entered_by};
ghost use Rattle.outside.specs.shared.port.History.{IsHistory, IsNewPort};

use crate::Port;
use crate::shared::port::accepting::Accepting;
use crate::shared::port::opening::Opening;
use crate::shared::port::port_entry::PortEntry;
use kbytes::NoMemory;
use std::alloc::Global;
use std::marker::Model;
use std::snapshot::Snapshot;

/// A port, and the history of what happened at it.
#[derive(Drop)]
pub struct PortDesk<P: Port> {
    port: P,
    // the port as it was handed in
    start: Snapshot<P>,
    // the most links that it may give
    most: u64,
    entries: Vec<PortEntry<P::Link>>,
    given: u64,
    retired: u64,
    is_ended: bool,
    is_faulted: bool,
}

impl<P: Port> Model for PortDesk<P> {
    ghost use Rattle.outside.specs.shared.port.Desk.{Desk};
    ghost use Rattle.outside.specs.shared.port.Tallies.{Keeps};

    ghost Value = { Desk P P.Link };

    ghost view = { λ d. record { port = d.port; entries = d.entries.items; terms = record { before = P.faults d.start.value; most = d.most } } };

    ghost invariant = { λ d. Keeps
        (record { before = P.faults d.start.value; most = d.most })
        (record { faults = P.faults d.port; opened_with = P.opened_with d.port; given = P.given d.port; is_ended = P.is_ended d.port; retired_count = P.retired_count d.port; retired = P.retired d.port })
        d.entries.items
        (record { given = d.given; retired = d.retired; is_ended = d.is_ended; is_faulted = d.is_faulted }) };
}

// Enters what happened, where there is memory for it.
fn enter<L>(entries: &mut Vec<PortEntry<L>>, entry: PortEntry<L>)
    requires room { vec_len entries.old < vec_capacity entries.old }
    ensures entered { entries.new.items ≡ entries.old.items ++ entry ∷ [] }
    ensures room { vec_capacity entries.old ≤ vec_capacity entries.new }
{
    let Ok(()) = entries.push(entry) else {
        unreachable!()
    };
}

impl<P: Port> PortDesk<P> {
    pub(crate) fn new(alloc: Global, port: P, most: u64) -> PortDesk<P>
        requires new { IsNewPort (record { faults = P.faults port; opened_with = P.opened_with port; given = P.given port; is_ended = P.is_ended port; retired_count = P.retired_count port; retired = P.retired port }) }
        ensures { result ≡ record { port = port; entries = []; terms = record { before = P.faults port; most = most } } }
    {
        PortDesk {
            start: Snapshot::of(&port),
            port,
            most,
            entries: Vec::new(alloc),
            given: 0,
            retired: 0,
            is_ended: false,
            is_faulted: false,
        }
    }

    /// Opens the port under a number.
    pub(crate) fn open(&mut self, by: u32, number: u16) -> Opening
        ensures entered { self.new.entries ≡ self.old.entries ++ open_entries result by number }
        ensures terms { self.new.terms ≡ self.old.terms }
        ensures added { AddedBy entered_by by self.old.entries self.new.entries }
    {
        if self.entries.reserve(1).is_err() {
            return Opening::NoMemory;
        }
        match self.port.open(number) {
            Ok(()) => {
                enter(&mut self.entries, PortEntry::Opened { by, number });
                Opening::Opened
            }
            Err(_) => {
                self.is_faulted = true;
                enter(&mut self.entries, PortEntry::Faulted { by });
                Opening::Faulted
            }
        }
    }

    /// Asks the port for its next link, unless none may come any more.
    pub(crate) fn accept(&mut self, by: u32) -> Accepting<P::Link>
        ensures entered { self.new.entries ≡ self.old.entries ++ accept_entries result by self.old.entries }
        ensures terms { self.new.terms ≡ self.old.terms }
        ensures added { AddedBy entered_by by self.old.entries self.new.entries }
        ensures answer { IsAnswer self.new.terms.most result self.new.entries }
        ensures link { IfLink result (λ link. IsNewLink (P.Link.taken link) (P.Link.written link) (P.Link.faults link) (P.Link.is_shut link)) }
    {
        if self.given == self.most {
            return Accepting::Full;
        }
        if self.is_ended {
            return Accepting::Ended;
        }
        if self.is_faulted {
            return Accepting::Faulted;
        }
        // for this entry, and for those of the retirements to come
        let out = self.given.saturating_sub(self.retired) as usize;
        if self.entries.reserve(out.saturating_add(2)).is_err() {
            return Accepting::NoMemory;
        }
        match self.port.accept() {
            Ok(Some(link)) => {
                let number = self.given;
                self.given += 1;
                enter(&mut self.entries, PortEntry::Accepted { by, number });
                Accepting::Link { number, link }
            }
            Ok(None) => {
                self.is_ended = true;
                enter(&mut self.entries, PortEntry::Ended { by });
                Accepting::Ended
            }
            Err(_) => {
                self.is_faulted = true;
                enter(&mut self.entries, PortEntry::Faulted { by });
                Accepting::Faulted
            }
        }
    }

    /// Hands a link back to the port. If memory runs out it is dropped, and nothing is entered.
    pub(crate) fn retire(&mut self, by: u32, number: u64, link: P::Link) -> Result<(), NoMemory>
    where
        P::Link: Drop,
        ensures retired { OnOk result (HasRetired by number link self.old.entries self.new.entries) }
        ensures refused { OnErr result (self.new ≡ self.old) }
        ensures terms { self.new.terms ≡ self.old.terms }
        ensures added { AddedBy entered_by by self.old.entries self.new.entries }
    {
        let retired = self.retired.checked_add(1).ok_or(NoMemory)?;
        self.entries.push(PortEntry::Retired {
            by,
            number,
            link: Snapshot::of(&link),
        })?;
        self.retired = retired;
        self.port.retire(number, link);
        Ok(())
    }

    pub(crate) fn len(&self) -> u64
        ensures { result ≡ length self.now.entries }
    {
        self.entries.len() as u64
    }

    pub(crate) fn into_port(self) -> P
        ensures { IsHistory self.terms (record { faults = P.faults result; opened_with = P.opened_with result; given = P.given result; is_ended = P.is_ended result; retired_count = P.retired_count result; retired = P.retired result }) self.entries }
    {
        let PortDesk {
            port,
            start: _,
            most: _,
            entries: _,
            given: _,
            retired: _,
            is_ended: _,
            is_faulted: _,
        } = self;
        port
    }
}
