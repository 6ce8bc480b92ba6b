// Replays a history (docs/HISTORY.md) on the library: calls on standard input, a line each, and their answers on
// standard output. This file reads the lines; `calls` tells the calls apart, and `words`, `reasons` and `blocks` read
// what stands in a line; `lent` and `questions` make the calls, and `answers`, `lists` and `write` write.
#![tactic(auto)]

mod answers;
mod blocks;
mod calls;
mod lent;
mod lists;
mod questions;
mod reasons;
mod words;
mod write;

ghost use Rattle.std.specs.Prelude.{◌≤◌, length, IfOk, IfSome};

use lent::Lent;
use std::io;
use std::io::Read;

// The greatest length of a line and its end, in bytes.
const TEXT: usize = 65536;

// The lent memory, in words: 64 + 81 n + 8 j of them (docs/MEMORY.md), for 4,096 hashes and 4,096 journal entries.
const WORDS: usize = 364608;

// The lent list, in bytes: no start that the memory has room for takes more than 45,557 journal entries, and changes names a hash for
// each at most.
const LIST: usize = 1457824;

// The lent list of entries, in words: sixteen for each live block, and no start that the memory has room for takes more than 4,500 hashes.
const ENTRIES: usize = 72000;

// Answers the lines that end in the text, and says how far that is.
fn answer_lines(rt: &impl Print, text: &[u8], lent: &mut Lent) -> io::Result<usize>
    ensures { IfOk result (λ to. to ≤ length text.now) }
{
    let Some(last) = text.iter().rposition(|byte| *byte == b'\n') else {
        return Ok(0);
    };
    for line in text[..last].split(|byte| *byte == b'\n') {
        lent.answer(rt, line)?;
    }
    Ok(last + 1)
}

// Where the first line that is answered begins: behind what is left of a line that was too long, where that ends.
fn first_line(text: &[u8], long: bool) -> Option<usize>
    ensures { IfSome result (λ from. from ≤ length text.now) }
{
    if !long {
        return Some(0);
    }
    let end = text.iter().position(|byte| *byte == b'\n')?;
    Some(end + 1)
}

// A line that does not fit the text is said to be too long, and the rest of it is passed over. The last line needs no
// newline.
// (A proved loop ends, and nothing says that an input does: the turns are as many as no run uses up.)
fn replay(
    rt: &impl Print,
    input: &mut impl Read,
    text: &mut [u8],
    lent: &mut Lent,
) -> io::Result<()> {
    // So many bytes of a line that has not ended yet stand at the front of the text.
    let mut held = 0;
    // Whether what comes belongs to a line that was too long.
    let mut long = false;
    for _ in 0..u64::MAX {
        let got = input.read(&mut text[held..])?;
        if got == 0 {
            break;
        }
        let have = held + got;
        if let Some(from) = first_line(&text[..have], long) {
            let to = from + answer_lines(rt, &text[from..have], lent)?;
            text.copy_within(to..have, 0);
            held = have - to;
            long = false;
        }
        if held == text.len() {
            answers::too_long(rt)?;
            held = 0;
            long = true;
        }
    }
    if long {
        return Ok(());
    }
    lent.answer(rt, &text[..held])
}

// (Arrays of a known length are made slices here, where nothing counts their elements.)
fn replay_in(
    rt: &impl Print,
    input: &mut impl Read,
    text: &mut [u8; TEXT],
    mem: &mut [u64; WORDS],
    list: &mut [u8; LIST],
    entries: &mut [u64; ENTRIES],
) -> io::Result<()> {
    let mut lent = Lent {
        mem,
        list,
        entries,
        length: u64::MAX,
    };
    replay(rt, input, text, &mut lent)
}

fn main(rt: HostRuntime) -> io::Result<()> {
    let mut text = [0u8; TEXT];
    let mut mem = [0u64; WORDS];
    let mut list = [0u8; LIST];
    let mut entries = [0u64; ENTRIES];
    let mut input = rt.reader();
    replay_in(
        &rt,
        &mut input,
        &mut text,
        &mut mem,
        &mut list,
        &mut entries,
    )
}
