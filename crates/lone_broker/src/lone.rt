//! The one-thread broker that callers make: `Watched`, and whether memory ran out in the middle of a line.

ghost use Rattle.std.specs.Prelude.{◌≡◌, true, false, IfOk, OnErr, OnOk};
ghost use Rattle.audit.specs.broker.Board.{Board, account_of, opening};
ghost use Rattle.audit.specs.broker.Play.{PlaysLine};
ghost use Rattle.lone_broker.specs.Kept.{IsPlayable, StandsFor, TurnsBy};
ghost use Rattle.lone_broker.specs.Held.{IsSound};

use crate::watched::Watched;
use audit::Account;
use kbytes::{Bytes, NoMemory};
use kwire::Config;
use std::alloc::Global;
use std::marker::Model;
use trace_file::Line;

/// The one-thread broker. A contract sees what it keeps, which stands for a board of the definition, and whether memory ran out in
/// the middle of a line. After that it is poisoned: it takes no line and gives no account.
#[derive(Drop)]
pub struct Lone {
    watched: Watched,
    is_poisoned: bool,
}

impl Model for Lone {
    ghost use Rattle.std.specs.Prelude.{◌≡◌, false};
    ghost use Rattle.lone_broker.specs.Held.{Held};
    ghost use Rattle.lone_broker.specs.Watching.{IsWatched};

    ghost Value = { Held };

    ghost view = { λ l. record { kept = l.watched.engine; is_poisoned = l.is_poisoned } };

    ghost invariant = { λ l. l.is_poisoned ≡ false → IsWatched l.watched };
}

impl Lone {
    /// A broker with these topics, before the first line.
    pub fn make(alloc: Global, config: Config) -> Result<Lone, NoMemory>
        ensures stands { IfOk result (λ lone. StandsFor lone.kept (opening config)) }
        ensures sound { IfOk result (λ lone. lone.is_poisoned ≡ false) }
    {
        let watched = Watched::make(alloc, config)?;
        Ok(Lone {
            watched,
            is_poisoned: false,
        })
    }

    /// Takes one line of a trace, and puts what it prints at the end of `out`. If memory runs out it is poisoned, and answers each
    /// later line with `NoMemory`.
    pub fn event(&mut self, line: &Line, out: &mut Bytes) -> Result<(), NoMemory>
        requires { IsPlayable line.now }
        ensures plays { OnOk result (TurnsBy (λ board. PlaysLine board line.now) self.old.kept self.new.kept out.old out.new) }
        ensures sound { OnOk result (IsSound self.old) }
        ensures goes_on { OnOk result (self.new.is_poisoned ≡ false) }
        ensures poisoned { OnErr result (self.new.is_poisoned ≡ true) }
    {
        if self.is_poisoned {
            return Err(NoMemory);
        }
        self.is_poisoned = true;
        self.watched.event(line, out)?;
        self.is_poisoned = false;
        Ok(())
    }

    /// The account of what was done so far. One that is poisoned has none.
    pub fn close(self) -> Result<Account, NoMemory>
        ensures account { IfOk result (λ account. (board : Board) → StandsFor self.kept board → account ≡ account_of board) }
        ensures sound { IfOk result (λ account. IsSound self) }
    {
        if self.is_poisoned {
            return Err(NoMemory);
        }
        self.watched.close()
    }
}
