//! Printing what became of links that were served: a line for each in rising number, every partition, and `done`.

ghost use Rattle.std.specs.Prelude.{◌≡◌, ◌++◌, IfOk, OnOk, OnErr, List as Items, ℕ};
ghost use Rattle.std.specs.List.{flat_map};
ghost use Rattle.audit.specs.Links.{lent};
ghost use Rattle.audit.specs.Printable.{IsPrintable};
ghost use Rattle.audit.specs.Printed.{link_line};
ghost use Rattle.audit.specs.ServePrint.{AreRisingLinks, IsServePrint};

use crate::account::{Account, Transcript};
use crate::ending::put_end;
use crate::summary::{put_number, put_parts};
use crate::tally::reply_count;
use kbytes::{Bytes, List, NoMemory};
use kwire::MOST_PARTITIONS;
use std::alloc::Global;

// Adds the line of a link at the end. One that has no end has no word for it.
fn put_link(out: &mut Bytes, link: &Transcript) -> Result<(), NoMemory>
    ensures { OnOk result (out.new ≡ out.old ++ link_line link.now) }
{
    let calls = link.calls.as_slice();
    put_number(out, b"link ", link.number)?;
    put_number(out, b" calls ", calls.len() as u64)?;
    put_number(out, b" replies ", reply_count(calls) as u64)?;
    match &link.end {
        Some(end) => {
            out.push(b' ')?;
            put_end(out, end)
        }
        None => out.push(b'\n'),
    }
}

fn put_links(out: &mut Bytes, links: &[&Transcript]) -> Result<(), NoMemory>
    ensures { OnOk result (out.new ≡ out.old ++ flat_map link_line (lent links.now)) }
{
    for link in links {
        put_link(out, link)?;
    }
    Ok(())
}

// Adds the transcripts of a pass at the end.
fn push_all<'a>(
    links: &mut Vec<&'a Transcript>,
    transcripts: &'a [Transcript],
) -> Result<(), NoMemory>
    ensures { OnOk result (lent links.new.items ≡ lent links.old.items ++ transcripts.now) }
{
    for transcript in transcripts {
        links.push(transcript)?;
    }
    Ok(())
}

fn transcripts_of<'a>(
    alloc: Global,
    passes: &'a [List<Transcript>],
) -> Result<Vec<&'a Transcript>, NoMemory>
    ensures { IfOk result (λ links. lent links.items ≡ flat_map (λ transcripts. transcripts) passes.now) }
{
    let mut links = Vec::new(alloc);
    for transcripts in passes {
        push_all(&mut links, transcripts.as_slice())?;
    }
    Ok(links)
}

// The transcripts of an account, in rising number.
fn rising_links<'a>(alloc: Global, account: &'a Account) -> Result<Vec<&'a Transcript>, NoMemory>
    requires { IsPrintable account.now }
    ensures { IfOk result (λ links. AreRisingLinks account.now (lent links.items)) }
{
    let mut links = transcripts_of(alloc, account.passes.as_slice())?;
    links.sort_unstable_by_key(|link| link.number);
    Ok(links)
}

/// Adds what is printed of links that were served: a line for each in rising number, each partition, and `done`. If memory
/// runs out, the bytes are as before.
pub fn print_serve(alloc: Global, account: &Account, out: &mut Bytes) -> Result<(), NoMemory>
    requires { IsPrintable account.now }
    ensures ok { OnOk result ((text : Items ℕ) × IsServePrint account.now text × (out.new ≡ out.old ++ text)) }
    ensures err { OnErr result (out.new ≡ out.old) }
{
    // there are too few partitions for one to have the clock's number
    prove!(account.config.parts() <= MOST_PARTITIONS);
    let links = rising_links(alloc, account)?;
    let mut text = Bytes::new(alloc);
    put_links(&mut text, links.as_slice())?;
    put_parts(alloc, &mut text, account.parts.as_slice())?;
    text.extend(b"done\n".as_slice())?;
    out.extend(text.as_slice())
}
