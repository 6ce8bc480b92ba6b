// A block (docs/HISTORY.md, "Words"): HASH INDEX EPOCH PREV TARGET ACTUAL FLAGS TIME REASON OTHER. In a call the two amounts are
// TEXTs, in an answer AMOUNTs.
use crate::{reasons, words, write};
use block::{Block, Competing, Copy, Header, Why};
use std::io;

// ---- reading ----

pub fn read(words: &[&[u8]]) -> Option<Block> {
    let [
        hash,
        index,
        epoch,
        prev,
        target,
        actual,
        flags,
        time,
        reason,
        other,
    ] = words
    else {
        return None;
    };
    let header = Header {
        hash: words::hash(hash)?,
        index: words::number(index)?,
        epoch: words::number(epoch)?,
        prev: words::hash(prev)?,
        target: words::text(target)?,
        actual: words::text(actual)?,
    };
    let (orphaned, canonical) = words::flags(flags)?;
    let copy = Copy {
        orphaned,
        canonical,
        time: words::time(time)?,
        reason: reasons::read(reason)?,
        competing: words::other(other)?,
    };
    Some(Block { header, copy })
}

// ---- writing ----

fn flags(orphaned: bool, canonical: bool) -> &'static str {
    match (orphaned, canonical) {
        (false, false) => "-",
        (true, false) => "o",
        (false, true) => "c",
        (true, true) => "oc",
    }
}

fn why(rt: &impl Print, w: Why) -> io::Result<()> {
    match w {
        Why::None => print!(rt; "-"),
        Why::Because(reason) => reasons::write(rt, reason),
    }
}

fn other(rt: &impl Print, x: Competing) -> io::Result<()> {
    match x {
        Competing::None => print!(rt; "-"),
        Competing::With(h) => write::hash(rt, h),
    }
}

fn write_header(rt: &impl Print, h: Header) -> io::Result<()> {
    let index = h.index;
    let epoch = h.epoch;
    write::hash(rt, h.hash)?;
    print!(rt; " {index} {epoch} ")?;
    write::hash(rt, h.prev)?;
    print!(rt; " ")?;
    write::reading(rt, h.target)?;
    print!(rt; " ")?;
    write::reading(rt, h.actual)
}

// FLAGS TIME REASON OTHER
pub fn write_copy(rt: &impl Print, c: Copy) -> io::Result<()> {
    let flags = flags(c.orphaned, c.canonical);
    print!(rt; "{flags} ")?;
    write::time(rt, c.time)?;
    print!(rt; " ")?;
    why(rt, c.reason)?;
    print!(rt; " ")?;
    other(rt, c.competing)
}

pub fn write(rt: &impl Print, b: Block) -> io::Result<()> {
    write_header(rt, b.header)?;
    print!(rt; " ")?;
    write_copy(rt, b.copy)
}
