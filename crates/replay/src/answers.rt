// Answers (docs/HISTORY.md, "Calls and their answers"): a line that begins with document 01's number, a list's entries below it.
use crate::{blocks, lists, reasons, write};
use amount::{Amount, Reading};
use block::{Choice, Counted, Done, Listed, Outcome, Planned, Refusal, Shown, Tip, Worth};
use std::io;

// ---- lines that begin with a question mark ----

pub fn no_call(rt: &impl Print) -> io::Result<()> {
    println!(rt; "? no call")
}

pub fn too_long(rt: &impl Print) -> io::Result<()> {
    println!(rt; "? the line is too long")
}

pub fn no_start(rt: &impl Print) -> io::Result<()> {
    println!(rt; "? no start was accepted yet")
}

// ---- refusals ----

// The library's other calls answer 1 of a memory that no start laid out.
fn refused(rt: &impl Print, x: Refusal) -> io::Result<()> {
    match block::numbers::refusal_number(x) {
        1 => no_start(rt),
        n => rt.println(n),
    }
}

// ---- what the calls give back ----

// Of start.
pub fn begun(rt: &impl Print, x: Done) -> io::Result<()> {
    rt.println(block::numbers::done_number(x))
}

pub fn done(rt: &impl Print, x: Done) -> io::Result<()> {
    match x {
        Done::Done => println!(rt; "0"),
        Done::Refused(y) => refused(rt, y),
    }
}

pub fn counted(rt: &impl Print, x: Counted) -> io::Result<()> {
    match x {
        Counted::Count(n) => println!(rt; "0 {n}"),
        Counted::Refused(y) => refused(rt, y),
    }
}

fn none(rt: &impl Print) -> io::Result<()> {
    println!(rt; "0 none")
}

pub fn shown(rt: &impl Print, x: Shown) -> io::Result<()> {
    match x {
        Shown::Block(b) => {
            print!(rt; "0 ")?;
            blocks::write(rt, b)?;
            println!(rt)
        }
        Shown::None => none(rt),
        Shown::Refused(y) => refused(rt, y),
    }
}

// AMOUNT ok, or AMOUNT no.
fn work(rt: &impl Print, w: Amount, ok: bool) -> io::Result<()> {
    write::amount(rt, w)?;
    if ok {
        println!(rt; " ok")
    } else {
        println!(rt; " no")
    }
}

pub fn worth(rt: &impl Print, x: Worth) -> io::Result<()> {
    match x {
        Worth::Linked(w, ok) => {
            print!(rt; "0 ")?;
            work(rt, w, ok)
        }
        Worth::None => none(rt),
        Worth::Refused(y) => refused(rt, y),
    }
}

pub fn tip(rt: &impl Print, x: Tip) -> io::Result<()> {
    match x {
        Tip::Best(b, w, ok) => {
            print!(rt; "0 ")?;
            write::hash(rt, b.header.hash)?;
            print!(rt; " ")?;
            work(rt, w, ok)
        }
        Tip::None => none(rt),
        Tip::Refused(y) => refused(rt, y),
    }
}

pub fn reading(rt: &impl Print, r: Reading) -> io::Result<()> {
    print!(rt; "0 ")?;
    write::reading(rt, r)?;
    println!(rt)
}

pub fn chosen(rt: &impl Print, c: Choice) -> io::Result<()> {
    match c.outcome {
        Outcome::Equal => print!(rt; "0 equal ")?,
        Outcome::KeepLocal => print!(rt; "0 local ")?,
        Outcome::AdoptPeer => print!(rt; "0 remote ")?,
    }
    reasons::write(rt, c.reason)?;
    println!(rt)
}

pub fn planned(rt: &impl Print, x: Planned, entries: &[u64]) -> io::Result<()> {
    match x {
        Planned::Scan => println!(rt; "0 scan"),
        Planned::Apply(changed, n) => {
            println!(rt; "0 apply {changed} {n}")?;
            lists::entries(rt, entries, n)
        }
        Planned::Refused(y) => refused(rt, y),
    }
}

pub fn listed(rt: &impl Print, x: Listed, list: &[u8]) -> io::Result<()> {
    match x {
        Listed::Count(n) => {
            println!(rt; "0 {n}")?;
            lists::hashes(rt, list, n)
        }
        Listed::None => none(rt),
        Listed::Refused(y) => refused(rt, y),
    }
}
