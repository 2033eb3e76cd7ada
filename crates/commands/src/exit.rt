//! How a run ended: what stopped it, its exit code, and what the code means. The program ends with the code that `run` answers.

ghost use Rattle.std.specs.Prelude.{◌≡◌, Some, None};
ghost use Rattle.commands.specs.declared.exit.Stop.TheVariants.{WriteFault, NoMemory as OutOfMemory};
ghost use Rattle.commands.specs.declared.exit.Unfinished.TheVariants.{Stopped};
ghost use Rattle.commands.specs.Codes.{exit_code_of, bad_line_of, stop_of, stop_in, account_in};

use audit::Account;
use kbytes::NoMemory;
use outside::Failed;
use std::alloc::AllocError;
use trace_file::{LineFault, TraceFault};

/// What stopped a run.
#[derive(Clone, Copy, PartialEq, Eq)]
pub enum Stop {
    /// The words say no command.
    Usage,
    /// The text isn't a trace: its first bad line.
    BadLine(LineFault),
    /// A read of the source failed.
    ReadFault,
    /// A write to the sink failed.
    WriteFault,
    NoMemory,
}

impl Stop {
    /// The exit code.
    pub fn code(self) -> u8
        ensures { result ≡ exit_code_of self }
    {
        match self {
            Stop::Usage => 1,
            Stop::BadLine(_) => 2,
            Stop::ReadFault => 3,
            Stop::WriteFault => 4,
            Stop::NoMemory => 6,
        }
    }

    /// The first bad line, if that stopped the run.
    pub(crate) fn bad_line(self) -> Option<LineFault>
        ensures { result ≡ bad_line_of self }
    {
        match self {
            Stop::BadLine(fault) => Some(fault),
            Stop::Usage | Stop::ReadFault | Stop::WriteFault | Stop::NoMemory => None,
        }
    }
}

impl From<TraceFault> for Stop {
    ghost from_gives = { λ fault e. e ≡ stop_of fault };

    fn from(fault: TraceFault) -> Stop {
        match fault {
            TraceFault::Bad(fault) => Stop::BadLine(fault),
            TraceFault::NoMemory => Stop::NoMemory,
        }
    }
}

impl From<NoMemory> for Stop {
    ghost from_gives = { λ _ e. e ≡ OutOfMemory };

    fn from(_refused: NoMemory) -> Stop {
        Stop::NoMemory
    }
}

impl From<AllocError> for Stop {
    ghost from_gives = { λ _ e. e ≡ OutOfMemory };

    fn from(_refused: AllocError) -> Stop {
        Stop::NoMemory
    }
}

// A sink's failure. A source's is reported as `ReadFault` where it is read.
impl From<Failed> for Stop {
    ghost from_gives = { λ _ e. e ≡ WriteFault };

    fn from(_failed: Failed) -> Stop {
        Stop::WriteFault
    }
}

/// Why a replay on workers didn't finish.
#[derive(Drop)]
pub enum Unfinished {
    /// This stopped it before anything was written.
    Stopped(Stop),
    /// The run was done and has this account, but a write failed: only a prefix of its text was written.
    Unwritten(Account),
}

impl From<Stop> for Unfinished {
    ghost from_gives = { λ stop e. e ≡ Stopped stop };

    fn from(stop: Stop) -> Unfinished {
        Unfinished::Stopped(stop)
    }
}

impl From<NoMemory> for Unfinished {
    ghost from_gives = { λ _ e. e ≡ Stopped OutOfMemory };

    fn from(_refused: NoMemory) -> Unfinished {
        Unfinished::Stopped(Stop::NoMemory)
    }
}

/// What a run answers. The port and the clock are those that were handed in, as the run left them.
#[derive(Drop)]
pub struct Exit<P: Drop, C: Drop> {
    /// 0 done, 1 a faulty command line, 2 a bad line, 3 a read fault, 4 a write fault, 5 a port fault, 6 out of memory.
    pub code: u8,
    /// The first bad line, only with code 2.
    pub line: Option<LineFault>,
    /// With codes 0 and 5, and with code 4 if the run was done on several threads before its text was written.
    pub account: Option<Account>,
    /// `None` only with code 6, where memory ran out while connections were served.
    pub port: Option<P>,
    pub clock: Option<C>,
}

impl<P: Drop, C: Drop> Exit<P, C> {
    /// All was done and written.
    pub(crate) fn done(account: Account, port: P, clock: C) -> Exit<P, C>
        ensures { result ≡ record { code = 0; line = None; account = Some account; port = Some port; clock = Some clock } }
    {
        Exit {
            code: 0,
            line: None,
            account: Some(account),
            port: Some(port),
            clock: Some(clock),
        }
    }

    /// The run was stopped, with no account.
    pub(crate) fn stopped(stop: Stop, port: P, clock: C) -> Exit<P, C>
        ensures { result ≡ record { code = exit_code_of stop; line = bad_line_of stop; account = None; port = Some port; clock = Some clock } }
    {
        Exit {
            code: stop.code(),
            line: stop.bad_line(),
            account: None,
            port: Some(port),
            clock: Some(clock),
        }
    }

    /// The run was done, and then a write failed.
    pub(crate) fn unwritten(account: Account, port: P, clock: C) -> Exit<P, C>
        ensures { result ≡ record { code = 4; line = None; account = Some account; port = Some port; clock = Some clock } }
    {
        Exit {
            code: Stop::WriteFault.code(),
            line: None,
            account: Some(account),
            port: Some(port),
            clock: Some(clock),
        }
    }

    /// The port failed: what was served until then has this account.
    pub(crate) fn port_failed(account: Account, port: P, clock: C) -> Exit<P, C>
        ensures { result ≡ record { code = 5; line = None; account = Some account; port = Some port; clock = Some clock } }
    {
        Exit {
            code: 5,
            line: None,
            account: Some(account),
            port: Some(port),
            clock: Some(clock),
        }
    }

    /// Memory ran out while connections were served, and what served them is gone.
    pub(crate) fn lost() -> Exit<P, C>
        ensures { result ≡ record { code = 6; line = None; account = None; port = None; clock = None } }
    {
        Exit {
            code: Stop::NoMemory.code(),
            line: None,
            account: None,
            port: None,
            clock: None,
        }
    }

    /// The run didn't finish.
    pub(crate) fn unfinished(why: Unfinished, port: P, clock: C) -> Exit<P, C>
        ensures { result ≡ record { code = exit_code_of (stop_in why); line = bad_line_of (stop_in why); account = account_in why; port = Some port; clock = Some clock } }
    {
        match why {
            Unfinished::Stopped(stop) => Exit::stopped(stop, port, clock),
            Unfinished::Unwritten(account) => Exit::unwritten(account, port, clock),
        }
    }
}

/// What a code means, in one line, for standard error.
pub fn exit_text(code: u8) -> &'static str {
    match code {
        0 => "done",
        1 => "the command line is faulty",
        2 => "the input is no trace",
        3 => "the input can't be read",
        4 => "the output can't be written",
        5 => "the port failed",
        _ => "out of memory",
    }
}
