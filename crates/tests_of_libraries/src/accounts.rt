//! What is printed of the worked account of three calls that waited, put together by hand.
ghost use Rattle.std.specs.Prelude.{◌≡◌, ◌∷◌, [], IfOk};
ghost use Rattle.audit.specs.retelling.Tellable.{IsTellable};
ghost use Rattle.audit.specs.Printable.{IsPrintable};
ghost use Rattle.audit.specs.Worked.{cut_call, expired_call, parked_call, three_waits, two_parts};

use audit::retelling::print_workers;
use audit::{
    Account, CLOCK_PART, Call, CallHow, PartAccount, Point, SessionEnd, Transcript, print_serve,
    worked_account, worked_requests,
};
use kbytes::{Bytes, List, NoMemory, copied};
use kwire::Config;
use partlog::{ClockEvent, PartEvent};
use std::alloc::Global;
use std::test::*;

// Each call as that of a link. The first two have no end.
const AS_LINKS: &str = "\
link 0 calls 1 replies 1
link 1 calls 1 replies 0
link 2 calls 1 replies 0 no-memory
part 0 end 0 high 0 batches 0 bytes 0
part 1 end 0 high 0 batches 0 bytes 0
done
";

// A fetch, version 4, with correlation id 7 and no client: a consumer asks partition 0 of `t` from its start for 1,000 bytes at
// most, and waits 100 milliseconds for one.
const FETCH_ONE: [u8; 54] = [
    0, 1, 0, 4, 0, 0, 0, 7, 255, 255, 255, 255, 255, 255, 0, 0, 0, 100, 0, 0, 0, 1, 0, 0, 3, 232,
    0, 0, 0, 0, 1, 0, 1, 116, 0, 0, 0, 1, 0, 0, 0, 0, 0, 0, 0, 0, 0, 0, 0, 0, 0, 0, 3, 232,
];

// The same of partitions 0 and 1.
const FETCH_BOTH: [u8; 70] = [
    0, 1, 0, 4, 0, 0, 0, 7, 255, 255, 255, 255, 255, 255, 0, 0, 0, 100, 0, 0, 0, 1, 0, 0, 3, 232,
    0, 0, 0, 0, 1, 0, 1, 116, 0, 0, 0, 2, 0, 0, 0, 0, 0, 0, 0, 0, 0, 0, 0, 0, 0, 0, 3, 232, 0, 0,
    0, 1, 0, 0, 0, 0, 0, 0, 0, 0, 0, 0, 3, 232,
];

// The reply to the call that expired has 49 bytes after its size, and no records.
const PRINTED: &str = "\
reply 0 000000310000000700000000000000010001740000000100000000000000000000000000000000000000000000ffffffff00000000
end 2 no-memory
part 0 end 0 high 0 batches 0 bytes 0
part 1 end 0 high 0 batches 0 bytes 0
session 0 calls 1 replies 1 parked 0
session 1 calls 1 replies 0 parked 1
session 2 calls 1 replies 0 parked 0
done
";

fn listed<T: Copy + Drop>(alloc: Global, items: &[T]) -> Result<List<T>, NoMemory>
    ensures { IfOk result (λ list. list ≡ items.now) }
{
    let mut list = List::new(alloc);
    for item in items {
        list.push(*item)?;
    }
    Ok(list)
}

fn alone<T: Drop>(alloc: Global, item: T) -> Result<List<T>, NoMemory>
    ensures { IfOk result (λ list. list ≡ item ∷ []) }
{
    let mut list = List::new(alloc);
    list.push(item)?;
    Ok(list)
}

fn at(part: u32, place: u64) -> Point
    ensures { result ≡ record { part = part; place = place } }
{
    Point { part, place }
}

fn call_of(
    alloc: Global,
    frame: &[u8],
    accept: &[Point],
    finish: &[Point],
    how: CallHow,
) -> Result<Call, NoMemory>
    ensures { IfOk result (λ call. call ≡ record { frame = frame.now; accept = accept.now; finish = finish.now; how = how }) }
{
    Ok(Call {
        frame: copied(alloc, frame)?,
        accept: listed(alloc, accept)?,
        finish: listed(alloc, finish)?,
        how,
    })
}

// A pass with one session, and with one call of it.
fn pass_of(
    alloc: Global,
    number: u64,
    call: Call,
    end: Option<SessionEnd>,
) -> Result<List<Transcript>, NoMemory>
    ensures { IfOk result (λ pass. pass ≡ record { number = number; first = 0; calls = call ∷ []; end = end } ∷ []) }
{
    let calls = alone(alloc, call)?;
    alone(
        alloc,
        Transcript {
            number,
            first: 0,
            calls,
            end,
        },
    )
}

// An empty partition without followers.
fn part_of(alloc: Global, events: &[PartEvent]) -> Result<PartAccount, NoMemory>
    ensures { IfOk result (λ part. part ≡ record { followers = 0; log = []; events = events.now }) }
{
    Ok(PartAccount {
        followers: 0,
        log: Bytes::new(alloc),
        events: listed(alloc, events)?,
    })
}

fn config(alloc: Global) -> Result<Config, NoMemory>
    ensures { IfOk result (λ config. config ≡ two_parts) }
{
    let mut config = Config::new(alloc, 9092);
    match config.add(b"t", 2, 0, 1) {
        Ok(()) => Ok(config),
        Err(_) => Err(NoMemory),
    }
}

fn look(by: u32) -> PartEvent
    ensures { result ≡ PartEvent.Look by 0 }
{
    PartEvent::Look { by, seq: 0 }
}

fn parts(alloc: Global) -> Result<List<PartAccount>, NoMemory>
    ensures { IfOk result (λ parts. parts ≡ (three_waits FETCH_ONE FETCH_BOTH).parts) }
{
    let mut parts = List::new(alloc);
    parts.push(part_of(alloc, &[look(0), look(2), look(0), look(2), look(1)])?)?;
    parts.push(part_of(alloc, &[look(2)])?)?;
    Ok(parts)
}

fn look_at_clock(by: u32) -> ClockEvent
    ensures { result ≡ ClockEvent.Look by 0 }
{
    ClockEvent::Look { by, seq: 0 }
}

fn clock(alloc: Global) -> Result<List<ClockEvent>, NoMemory>
    ensures { IfOk result (λ clock. clock ≡ (three_waits FETCH_ONE FETCH_BOTH).clock) }
{
    let look = look_at_clock;
    listed(
        alloc,
        &[
            look(0),
            look(2),
            ClockEvent::Tick { t: 100 },
            look(0),
            look(2),
            look(1),
        ],
    )
}

fn expired(alloc: Global) -> Result<Call, NoMemory>
    ensures { IfOk result (λ call. call ≡ expired_call FETCH_ONE) }
{
    call_of(
        alloc,
        &FETCH_ONE,
        &[at(0, 0), at(CLOCK_PART, 0)],
        &[at(CLOCK_PART, 3), at(0, 2)],
        CallHow::Expired { by: 0 },
    )
}

fn parked(alloc: Global) -> Result<Call, NoMemory>
    ensures { IfOk result (λ call. call ≡ parked_call FETCH_ONE) }
{
    call_of(
        alloc,
        &FETCH_ONE,
        &[at(0, 4), at(CLOCK_PART, 5)],
        &[],
        CallHow::Parked,
    )
}

fn cut(alloc: Global) -> Result<Call, NoMemory>
    ensures { IfOk result (λ call. call ≡ cut_call FETCH_BOTH) }
{
    call_of(
        alloc,
        &FETCH_BOTH,
        &[at(0, 1), at(1, 0), at(CLOCK_PART, 1)],
        &[at(CLOCK_PART, 4), at(0, 3)],
        CallHow::Cut { won: Some(0) },
    )
}

fn passes(alloc: Global) -> Result<List<List<Transcript>>, NoMemory>
    ensures { IfOk result (λ passes. passes ≡ (three_waits FETCH_ONE FETCH_BOTH).passes) }
{
    let mut passes = List::new(alloc);
    passes.push(pass_of(alloc, 0, expired(alloc)?, None)?)?;
    passes.push(pass_of(alloc, 1, parked(alloc)?, None)?)?;
    passes.push(pass_of(alloc, 2, cut(alloc)?, Some(SessionEnd::NoMemory))?)?;
    Ok(passes)
}

fn account(alloc: Global) -> Result<Account, NoMemory>
    ensures { IfOk result (λ account. account ≡ three_waits FETCH_ONE FETCH_BOTH) }
{
    Ok(Account {
        config: config(alloc)?,
        parts: parts(alloc)?,
        clock: clock(alloc)?,
        passes: passes(alloc)?,
        wins: alone(alloc, 2)?,
    })
}

// The same, of which laws say that it can be told.
fn tellable(alloc: Global) -> Result<Account, NoMemory>
    ensures told { IfOk result IsTellable }
    ensures printed { IfOk result IsPrintable }
{
    worked_requests();
    worked_account();
    let account = account(alloc)?;
    Ok(account)
}

fn is_told(alloc: Global, account: &Account) -> bool
    requires { IsTellable account.now }
{
    let mut out = Bytes::new(alloc);
    print_workers(alloc, account, &mut out).is_ok() && out.as_slice() == PRINTED.as_bytes()
}

fn is_told_as_links(alloc: Global, account: &Account) -> bool
    requires { IsPrintable account.now }
{
    let mut out = Bytes::new(alloc);
    print_serve(alloc, account, &mut out).is_ok() && out.as_slice() == AS_LINKS.as_bytes()
}

#[test]
fn a_worked_account_is_told(rt: HostRuntime) {
    let account = tellable(rt.alloc()).expect(&rt, "memory");
    assert!(rt; is_told(rt.alloc(), &account) && is_told_as_links(rt.alloc(), &account));
}
