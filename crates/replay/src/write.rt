// Words of an answer (docs/HISTORY.md, "Words"), on standard output: hashes, amounts, times.
use amount::{Amount, Reading};
use block::Time;
use hash::Hash;
use std::io;

// The hexadecimal digits of a number whose upper words come first: no leading zero but the one of zero itself.
fn hex(rt: &impl Print, words: &[u64]) -> io::Result<()> {
    let Some(zeros) = words.iter().position(|word| *word != 0) else {
        return print!(rt; "0");
    };
    let first = words[zeros];
    print!(rt; "{first:x}")?;
    for word in &words[zeros + 1..] {
        print!(rt; "{word:016x}")?;
    }
    Ok(())
}

pub fn hash(rt: &impl Print, h: Hash) -> io::Result<()> {
    hex(rt, &[h.first, h.second, h.third, h.fourth])
}

pub fn amount(rt: &impl Print, a: Amount) -> io::Result<()> {
    let words = amount::to_words(a);
    print!(rt; "0x")?;
    hex(rt, &[words.second, words.first])
}

pub fn reading(rt: &impl Print, r: Reading) -> io::Result<()> {
    match r {
        Reading::Readable(a) => amount(rt, a),
        Reading::Unreadable => print!(rt; "?"),
    }
}

pub fn time(rt: &impl Print, t: Time) -> io::Result<()> {
    match t {
        Time::None => print!(rt; "-"),
        Time::At(x) => rt.print(x),
    }
}
