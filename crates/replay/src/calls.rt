// The calls (docs/HISTORY.md, "Calls and their answers"), as a line says them.
use crate::{blocks, words};
use amount::Reading;
use block::{Block, Side, Work};
use hash::Hash;
use walks::Floor;

// Of the two plans: FLOOR N CLOCK.
#[derive(Clone, Copy)]
pub struct Terms {
    pub floor: Floor,
    pub n: u64,
    pub clock: i64,
}

#[derive(Clone, Copy)]
pub enum Call {
    Start {
        hashes: u64,
        journal: u64,
        generation: u64,
        version: u64,
    },
    Reload {
        generation: u64,
        version: u64,
    },
    Load(u64, Block),
    Put(u64, Block),
    Remove(u64, Hash),
    Answer(Hash, u64),
    Sync,
    Leaves,
    Changes {
        generation: u64,
        version: u64,
    },
    Select(Terms),
    Adopt(Terms),
    Lend(u64),
    Ask(Question),
}

// What writes no memory and needs no list.
#[derive(Clone, Copy)]
pub enum Question {
    Count,
    Generation,
    Version,
    Live,
    CanonicalCount,
    Best,
    CanonicalBest,
    Effective(Hash),
    Node(Hash),
    Parent(Hash),
    Linked(Hash),
    CanonicalLinked(Hash),
    Choose(Side, Side),
    Amount(Reading),
}

// `?` for unknown, or a TEXT; an unreadable one counts as unknown.
fn work(word: &[u8]) -> Option<Work> {
    if let b"?" = word {
        return Some(Work::Unknown);
    }
    match words::text(word)? {
        Reading::Readable(a) => Some(Work::Known(a)),
        Reading::Unreadable => Some(Work::Unknown),
    }
}

fn side(worth: &[u8], index: &[u8], hash: &[u8]) -> Option<Side> {
    Some(Side {
        work: work(worth)?,
        index: words::number(index)?,
        hash: words::hash(hash)?,
    })
}

// `-`, or a NUMBER.
fn floor(word: &[u8]) -> Option<Floor> {
    match word {
        b"-" => Some(Floor::None),
        _ => words::number(word).map(Floor::At),
    }
}

fn read_terms(lowest: &[u8], n: &[u8], clock: &[u8]) -> Option<Terms> {
    Some(Terms {
        floor: floor(lowest)?,
        n: words::number(n)?,
        clock: words::signed(clock)?,
    })
}

// `-` for as long as could be needed, or a NUMBER.
fn length(word: &[u8]) -> Option<u64> {
    match word {
        b"-" => Some(u64::MAX),
        _ => words::number(word),
    }
}

fn read_question(words: &[&[u8]]) -> Option<Question> {
    Some(match words {
        [b"count"] => Question::Count,
        [b"generation"] => Question::Generation,
        [b"version"] => Question::Version,
        [b"live"] => Question::Live,
        [b"ccount"] => Question::CanonicalCount,
        [b"best"] => Question::Best,
        [b"cbest"] => Question::CanonicalBest,
        [b"effective", hash] => Question::Effective(words::hash(hash)?),
        [b"node", hash] => Question::Node(words::hash(hash)?),
        [b"parent", hash] => Question::Parent(words::hash(hash)?),
        [b"linked", hash] => Question::Linked(words::hash(hash)?),
        [b"clinked", hash] => Question::CanonicalLinked(words::hash(hash)?),
        [b"choose", a, b, c, d, e, f] => Question::Choose(side(a, b, c)?, side(d, e, f)?),
        [b"amount", text] => Question::Amount(words::text(text)?),
        _ => return None,
    })
}

fn read_call(words: &[&[u8]]) -> Option<Call> {
    Some(match words {
        [b"start", hashes, journal, generation, version] => Call::Start {
            hashes: words::number(hashes)?,
            journal: words::number(journal)?,
            generation: words::number(generation)?,
            version: words::number(version)?,
        },
        [b"reload", generation, version] => Call::Reload {
            generation: words::number(generation)?,
            version: words::number(version)?,
        },
        [b"load", store, block @ ..] => Call::Load(words::store(store)?, blocks::read(block)?),
        [b"put", store, block @ ..] => Call::Put(words::store(store)?, blocks::read(block)?),
        [b"remove", store, hash] => Call::Remove(words::store(store)?, words::hash(hash)?),
        [b"answer", hash, value] => Call::Answer(words::hash(hash)?, words::number(value)?),
        [b"sync"] => Call::Sync,
        [b"leaves"] => Call::Leaves,
        [b"changes", generation, version] => Call::Changes {
            generation: words::number(generation)?,
            version: words::number(version)?,
        },
        [b"select", floor, n, clock] => Call::Select(read_terms(floor, n, clock)?),
        [b"adopt", floor, n, clock] => Call::Adopt(read_terms(floor, n, clock)?),
        [b"lend", places] => Call::Lend(length(places)?),
        _ => Call::Ask(read_question(words)?),
    })
}

// No call has more than twelve words.
pub fn read(line: &[u8]) -> Option<Call> {
    let mut room: [&[u8]; 12] = [b""; 12];
    let n = words::split(line, b' ', &mut room)?;
    read_call(&room[..n])
}
