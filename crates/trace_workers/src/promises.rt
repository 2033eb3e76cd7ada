//! Laws of runs, for the crates above to cite. The functions do nothing.
ghost use Rattle.std.specs.Prelude.{◌≡◌, ℕ, Bool, List, false};
ghost use Rattle.audit.specs.declared.account.Account.{Account};
ghost use Rattle.trace_workers.specs.declared.played.Played.{Played};
ghost use Rattle.shared_broker.specs.Passes.{BrokerView};
ghost use Rattle.trace_file.specs.Contents.{configuration_of, sessions_of};
ghost use Rattle.trace_file.specs.declared.line.Line.{Line};
ghost use Rattle.trace_workers.specs.Closed.{CameTo};
ghost use Rattle.trace_workers.specs.WorkerRun.{IsWorkerRun};
ghost use Rattle.trace_workers.specs.Playable.{AreTraced};

/// Law: if joined sessions are closed once nobody can act after the lines of a trace, their account is that of a run of these lines.
pub fn joined_accounts_are_runs()
    ensures { (broker : BrokerView) (lines : List Line) (port count : ℕ) (drain : Bool) (played : Played) → AreTraced lines → count ≡ sessions_of lines
        → broker.config ≡ configuration_of port lines → CameTo broker lines count drain played → IsWorkerRun lines port drain played.account }
{}

/// Law: the lines of every trace have an account of a run on workers, with any port. One is that of playing them, with the clock's pass after the
/// sessions' and a winner for each scanner and each pass.
pub fn traces_have_runs()
    ensures { (lines : List Line) (port : ℕ) → AreTraced lines → (account : Account) × IsWorkerRun lines port false account }
{}
