// The lists that are lent (docs/HISTORY.md, `lend`), outside of the library's memory: to changes and leaves 32 bytes a hash, to the plans
// sixteen words an entry.
ghost use Rattle.std.specs.Prelude.{◌≤◌};

use crate::{blocks, write};
use block::Kept;
use hash::Hash;
use std::io;

// The bytes of a list of so many hashes, at most those that there are.
pub fn lent_bytes(room: usize, lent: u64) -> usize
    ensures { result ≤ room }
{
    32 * (room / 32).min(lent as usize)
}

// The words of a list of so many entries, at most those that there are.
pub fn lent_words(room: usize, lent: u64) -> usize
    ensures { result ≤ room }
{
    16 * (room / 16).min(lent as usize)
}

// Writes the first n hashes, a line each.
pub fn hashes(rt: &impl Print, list: &[u8], n: usize) -> io::Result<()> {
    let mut rest = list;
    for _ in 0..n {
        let Some((bytes, more)) = rest.split_first_chunk::<32>() else {
            return Ok(());
        };
        print!(rt; "  ")?;
        write::hash(rt, hash::from_bytes(bytes))?;
        println!(rt)?;
        rest = more;
    }
    Ok(())
}

// HASH FLAGS TIME REASON OTHER
fn entry(rt: &impl Print, words: &[u64; 16]) -> io::Result<()> {
    let h = Hash {
        first: words[0],
        second: words[1],
        third: words[2],
        fourth: words[3],
    };
    write::hash(rt, h)?;
    print!(rt; " ")?;
    match rows::read_copy(words, 4) {
        Kept::Copy(c) => blocks::write_copy(rt, c),
        Kept::None => Ok(()),
    }
}

// Writes the first n entries, a line each.
pub fn entries(rt: &impl Print, list: &[u64], n: usize) -> io::Result<()> {
    let mut rest = list;
    for _ in 0..n {
        let Some((words, more)) = rest.split_first_chunk::<16>() else {
            return Ok(());
        };
        print!(rt; "  ")?;
        entry(rt, words)?;
        println!(rt)?;
        rest = more;
    }
    Ok(())
}
