// REASON (docs/HISTORY.md, "Words"): a kind of sentence, and behind colons the numbers that it prints; read, and written.
use crate::{words, write};
use amount::Amount;
use block::{Reason, Why};
use hash::Hash;
use std::io;

// ---- reading ----

// An AMOUNT as it would be answered: no leading zero but the one of zero itself.
fn amount(word: &[u8]) -> Option<Amount> {
    let digits = word.strip_prefix(b"0x")?;
    match digits {
        [] | [b'0', _, ..] => return None,
        _ => {}
    }
    let (before, low) = words::last_word(digits)?;
    let (before, high) = words::last_word(before)?;
    before.is_empty().then_some(amount::from_words(low, high))
}

// A kind, and at most two numbers.
fn reason(word: &[u8]) -> Option<Reason> {
    let mut room: [&[u8]; 3] = [b""; 3];
    let n = words::split(word, b':', &mut room)?;
    Some(match &room[..n] {
        [b"neither"] => Reason::Neither,
        [b"peer-hash"] => Reason::PeerHash,
        [b"local-hash"] => Reason::LocalHash,
        [b"off-spine"] => Reason::OffSpine,
        [b"competing"] => Reason::CompetingFork,
        [b"stale"] => Reason::StaleFork,
        [b"same-tip", hash] => Reason::SameTip(words::hash(hash)?),
        [b"peer-only", work] => Reason::PeerOnly(amount(work)?),
        [b"local-only", work] => Reason::LocalOnly(amount(work)?),
        [b"peer-work", remote, local] => Reason::PeerWork(amount(remote)?, amount(local)?),
        [b"local-work", local, remote] => Reason::LocalWork(amount(local)?, amount(remote)?),
        [b"peer-tip", remote, local] => {
            Reason::PeerTip(words::number(remote)?, words::number(local)?)
        }
        [b"local-tip", local, remote] => {
            Reason::LocalTip(words::number(local)?, words::number(remote)?)
        }
        _ => return None,
    })
}

pub fn read(word: &[u8]) -> Option<Why> {
    match word {
        b"-" => Some(Why::None),
        _ => reason(word).map(Why::Because),
    }
}

// ---- writing ----

fn kind(reason: Reason) -> &'static str {
    match reason {
        Reason::SameTip(_) => "same-tip",
        Reason::Neither => "neither",
        Reason::PeerOnly(_) => "peer-only",
        Reason::LocalOnly(_) => "local-only",
        Reason::PeerWork(_, _) => "peer-work",
        Reason::LocalWork(_, _) => "local-work",
        Reason::PeerTip(_, _) => "peer-tip",
        Reason::LocalTip(_, _) => "local-tip",
        Reason::PeerHash => "peer-hash",
        Reason::LocalHash => "local-hash",
        Reason::OffSpine => "off-spine",
        Reason::CompetingFork => "competing",
        Reason::StaleFork => "stale",
    }
}

fn work(rt: &impl Print, a: Amount) -> io::Result<()> {
    print!(rt; ":")?;
    write::amount(rt, a)
}

fn works(rt: &impl Print, a: Amount, b: Amount) -> io::Result<()> {
    work(rt, a)?;
    work(rt, b)
}

fn tip(rt: &impl Print, h: Hash) -> io::Result<()> {
    print!(rt; ":")?;
    write::hash(rt, h)
}

pub fn write(rt: &impl Print, reason: Reason) -> io::Result<()> {
    rt.print(kind(reason))?;
    match reason {
        Reason::SameTip(h) => tip(rt, h),
        Reason::PeerOnly(a) | Reason::LocalOnly(a) => work(rt, a),
        Reason::PeerWork(a, b) | Reason::LocalWork(a, b) => works(rt, a, b),
        Reason::PeerTip(i, j) | Reason::LocalTip(i, j) => print!(rt; ":{i}:{j}"),
        Reason::Neither | Reason::PeerHash | Reason::LocalHash => Ok(()),
        Reason::OffSpine | Reason::CompetingFork | Reason::StaleFork => Ok(()),
    }
}
