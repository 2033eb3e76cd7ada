//! Times the parts that a broker's speed rests on, each beside a baseline of the same run.
//!
//! With the word `measure` it prints figures. With no word it makes a tiny run and prints what is measured, so that
//! what it writes is the same each time.
#![tactic(auto)]

mod deed;
mod fault;
mod figure;
mod operation;
mod parts;
mod plain_room;
mod room_seat;
mod size;
mod waiter;

use deed::DEEDS;
use fault::Fault;
use figure::Figure;
use kbytes::List;
use size::Size;
use std::alloc::Global;
use std::process::ExitCode;
use std::sync::Wait;
use std::thread::Threads;
use std::time::Clock;
use std::{env, io};

// Whether the one word of the command line is `measure`, and whether it has no word.
fn asked(rt: &HostRuntime) -> io::Result<Option<Size>> {
    let mut words = env::args(rt)?.skip(1);
    let Some(word) = words.next() else {
        return Ok(Some(Size::Tiny));
    };
    let is_last = words.next().is_none();
    Ok(if is_last && word.as_str() == "measure" {
        Some(Size::Whole)
    } else {
        None
    })
}

fn run<R: Threads + Wait + Clock + Sync>(
    rt: &R,
    alloc: Global,
    size: Size,
) -> Result<List<Figure>, Fault> {
    let mut figures = List::new(alloc);
    for entries in [80, 1_000, 100_000] {
        figures.push(parts::timers(rt, alloc, size, entries)?)?;
    }
    figures.push(parts::watchers(rt, alloc, size)?)?;
    figures.push(parts::checksum(rt, alloc, size)?)?;
    for deed in DEEDS {
        figures.push(deed.figure(rt, alloc, size)?)?;
    }
    Ok(figures)
}

fn show(rt: &HostRuntime, size: Size, figures: &[Figure]) -> Result<(), Fault> {
    let mut came_to: u64 = 0;
    for figure in figures {
        came_to ^= figure.ours.came_to ^ figure.theirs.came_to;
        match size {
            Size::Tiny => println!(rt; "{}: ok", figure.name)?,
            Size::Whole => println!(rt; "{figure}")?,
        }
    }
    if size == Size::Whole {
        println!(rt; "the steps came to {came_to}")?;
    }
    Ok(())
}

fn main(rt: HostRuntime) -> ExitCode {
    let Ok(Some(size)) = asked(&rt) else {
        let _ = rt.eprintln(format_args!("bench_parts: the only word is `measure`"));
        return ExitCode::from(2);
    };
    let shown = run(&rt, rt.alloc(), size).and_then(|figures| show(&rt, size, figures.as_slice()));
    if let Err(fault) = shown {
        let _ = rt.eprintln(format_args!("bench_parts: {fault}"));
        return ExitCode::FAILURE;
    }
    ExitCode::SUCCESS
}
