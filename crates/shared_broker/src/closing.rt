//! `Broker::close`, by which the thread that has all passes ends a run: it closes the logs and the room below, and makes one account of what the
//! passes did.
ghost use Rattle.std.specs.Prelude.{◌≡◌, ◌<◌, ◌==◌, ℕ, All, IfOk, count_by, length, map, slice_set};
ghost use Rattle.std.specs.List.{AllZip};
ghost use Rattle.audit.specs.declared.account.Account.{Account as AccountView};
ghost use Rattle.audit.specs.broker.books.Told.{last_is_cut, told};
ghost use Rattle.audit.specs.Histories.{part_account};
ghost use Rattle.shared_broker.specs.Closed.{IsJoined, IsPutFrom, gathered, transcripts_in};
ghost use Rattle.shared_broker.specs.Closing.{HasClosed};
ghost use Rattle.shared_broker.specs.Passes.{made_with};
ghost use Rattle.shared_broker.specs.declared.closing.Sheet.{Sheet as SheetView};

use crate::broker::Broker;
use crate::parked::Parked;
use crate::pass::Pass;
use audit::{Account, Call, CallHow, SessionEnd, Transcript, part_accounts};
use kbytes::{List, NoMemory};
use kwire::Config;
use shared_logs::{ClosedLogs, LogPass, LogsEnd};
use std::alloc::Global;
use std::snapshot::Snapshot;
use std::sync::Wait;

/// How a broker ended.
#[derive(Drop)]
pub enum BrokerEnd {
    /// The account of the run.
    Closed(Account),
    /// A request that waited was won, and its reply is still to be collected. The broker and the passes are handed back as they were.
    Untaken { broker: Broker, passes: List<Pass> },
    /// Memory ran out. Nothing is handed back.
    NoMemory,
}

// A pass without what it has of the logs.
#[derive(Drop)]
struct Sheet {
    number: u32,
    config: Snapshot<Config>,
    ended: List<Transcript>,
    going: Option<Transcript>,
    waits: Option<Parked>,
    first: u32,
}

// What the passes have of the logs, and their sheets, in the order of the passes.
fn take_apart(alloc: Global, passes: List<Pass>) -> Result<(List<LogPass>, List<Sheet>), NoMemory>
    ensures passes { IfOk result (λ apart. passes ≡ gathered apart.0 apart.1) }
    ensures joined { IfOk result (λ apart. AllZip IsJoined apart.0 apart.1) }
{
    let mut logs = List::new(alloc);
    let mut sheets = List::new(alloc);
    for pass in passes.into_vec() {
        let Pass {
            config,
            logs: seat,
            ended,
            going,
            waits,
            first,
        } = pass;
        sheets.push(Sheet {
            number: seat.number(),
            config,
            ended,
            going,
            waits,
            first,
        })?;
        logs.push(seat)?;
    }
    Ok((logs, sheets))
}

// The passes again.
fn put_together(
    alloc: Global,
    logs: List<LogPass>,
    sheets: List<Sheet>,
) -> Result<List<Pass>, NoMemory>
    requires { AllZip IsJoined logs sheets }
    ensures { IfOk result (λ passes. passes ≡ gathered logs sheets) }
{
    let mut passes = List::new(alloc);
    let mut left = sheets.into_vec().into_iter();
    for seat in logs.into_vec() {
        let Some(sheet) = left.next() else {
            unreachable!()
        };
        let Sheet {
            number: _,
            config,
            ended,
            going,
            waits,
            first,
        } = sheet;
        passes.push(Pass {
            config,
            logs: seat,
            ended,
            going,
            waits,
            first,
        })?;
    }
    Ok(passes)
}

// Whether the last of these calls was cut off.
fn is_cut_last(calls: &[Call]) -> bool
    ensures { result ≡ last_is_cut calls.now }
{
    match calls.last() {
        None => false,
        Some(call) => matches!(call.how, CallHow::Cut { .. }),
    }
}

// The transcript as the account has it: if its last call was cut off and it has no end, it ends because memory ran out.
fn told(transcript: Transcript) -> Transcript
    ensures { result ≡ told transcript }
{
    let cut = is_cut_last(transcript.calls.as_slice());
    let Transcript {
        number,
        first,
        calls,
        end,
    } = transcript;
    let end = match end {
        Some(end) => Some(end),
        None if cut => Some(SessionEnd::NoMemory),
        None => None,
    };
    Transcript {
        number,
        first,
        calls,
        end,
    }
}

// The same of each, in order.
fn all_told(alloc: Global, transcripts: List<Transcript>) -> Result<List<Transcript>, NoMemory>
    ensures { IfOk result (λ all. all ≡ map told transcripts) }
{
    let mut all = List::new(alloc);
    for transcript in transcripts.into_vec() {
        all.push(told(transcript))?;
    }
    Ok(all)
}

// The transcripts of a pass, the open one as the last.
fn transcripts_of(alloc: Global, sheet: Sheet) -> Result<List<Transcript>, NoMemory>
    ensures { IfOk result (λ all. all ≡ map told (transcripts_in sheet)) }
{
    let Sheet {
        number: _,
        config: _,
        ended,
        going,
        waits: _,
        first: _,
    } = sheet;
    let mut transcripts = ended;
    if let Some(going) = going {
        transcripts.push(going)?;
    }
    all_told(alloc, transcripts)
}

// That many empty lists.
fn no_transcripts(alloc: Global, count: usize) -> Result<List<List<Transcript>>, NoMemory>
    ensures { IfOk result (λ passes. length passes ≡ count) }
{
    let mut passes = List::new(alloc);
    for _pass in 0..count {
        passes.push(List::new(alloc))?;
    }
    Ok(passes)
}

fn put_at(passes: &mut List<List<Transcript>>, number: usize, transcripts: List<Transcript>)
    requires { number < length passes.old }
    ensures { passes.new ≡ slice_set passes.old number transcripts }
{
    passes.as_mut_slice()[number] = transcripts;
}

// The transcripts of each pass, by the passes' numbers. There is one pass of each number.
fn by_number(alloc: Global, sheets: List<Sheet>) -> Result<List<List<Transcript>>, NoMemory>
    requires numbers { All (λ (sheet : SheetView). sheet.number < length sheets) sheets }
    requires one { (number : ℕ) → number < length sheets → count_by (λ (sheet : SheetView). sheet.number == number) sheets ≡ 1 }
    ensures size { IfOk result (λ passes. length passes ≡ length sheets) }
    ensures each { IfOk result (λ passes. All (IsPutFrom passes) sheets) }
{
    let mut passes = no_transcripts(alloc, sheets.len())?;
    for sheet in sheets.into_vec() {
        let number = sheet.number as usize;
        put_at(&mut passes, number, transcripts_of(alloc, sheet)?);
    }
    Ok(passes)
}

// The account of these logs and sheets.
fn account(
    alloc: Global,
    config: Config,
    closed: ClosedLogs,
    sheets: List<Sheet>,
) -> Result<Account, NoMemory>
    requires numbers { All (λ (sheet : SheetView). sheet.number < length sheets) sheets }
    requires one { (number : ℕ) → number < length sheets → count_by (λ (sheet : SheetView). sheet.number == number) sheets ≡ 1 }
    ensures histories { IfOk result (λ (account : AccountView). (account.parts ≡ map part_account closed.parts) × (account.clock ≡ closed.clock)) }
    ensures config { IfOk result (λ (account : AccountView). account.config ≡ config) }
    ensures wins { IfOk result (λ (account : AccountView). account.wins ≡ closed.wins) }
    ensures size { IfOk result (λ (account : AccountView). length account.passes ≡ length sheets) }
    ensures each { IfOk result (λ (account : AccountView). All (IsPutFrom account.passes) sheets) }
{
    let ClosedLogs { parts, clock, wins } = closed;
    let parts = part_accounts(alloc, parts)?;
    let passes = by_number(alloc, sheets)?;
    Ok(Account {
        config,
        parts,
        clock: clock.into_events(),
        passes,
        wins,
    })
}

impl Broker {
    /// Closes the broker, if everything that was won has been collected. All passes are given back, in any order.
    pub fn close(self, rt: &impl Wait, passes: List<Pass>) -> BrokerEnd
        requires all { length passes ≡ self.logs.room.table.shape.passes }
        requires made { All (λ pass. made_with pass ≡ self) passes }
        ensures { HasClosed self passes result }
    {
        let Broker {
            alloc,
            config,
            logs,
        } = self;
        let Ok((seats, sheets)) = take_apart(alloc, passes) else {
            return BrokerEnd::NoMemory;
        };
        match logs.close(rt, seats) {
            LogsEnd::Closed(closed) => match account(alloc, config, closed, sheets) {
                Ok(account) => BrokerEnd::Closed(account),
                Err(NoMemory) => BrokerEnd::NoMemory,
            },
            LogsEnd::Untaken {
                logs,
                passes: seats,
            } => match put_together(alloc, seats, sheets) {
                Ok(passes) => BrokerEnd::Untaken {
                    broker: Broker {
                        alloc,
                        config,
                        logs,
                    },
                    passes,
                },
                Err(NoMemory) => BrokerEnd::NoMemory,
            },
            LogsEnd::NoMemory => BrokerEnd::NoMemory,
        }
    }
}
