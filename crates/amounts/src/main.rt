// Each line of standard input is read as an amount text (document 01, "Amounts"), and answered by a line: its value in hexadecimal, or
// `?` where it is unreadable. A line may be empty and may hold any byte but a newline, and the last one needs no newline.
// What it writes is compared with the answers of Rust's own `u128`.
#![tactic(auto)]

ghost use Rattle.std.specs.Prelude.{◌≤◌, IfOk, length};

use amount::{Amount, Reading};
use std::io;
use std::io::Read;

// The input is shorter: where the buffer is full there may be more.
const ROOM: usize = 65536;

// The second word is the upper one, and is written where it is not zero.
fn print(rt: &impl Print, a: Amount) -> io::Result<()> {
    let words = amount::to_words(a);
    let low = words.first;
    match words.second {
        0 => println!(rt; "0x{low:x}"),
        high => println!(rt; "0x{high:x}{low:016x}"),
    }
}

fn answer(rt: &impl Print, text: &[u8]) -> io::Result<()> {
    match amount::read(text) {
        Reading::Readable(a) => print(rt, a),
        Reading::Unreadable => println!(rt; "?"),
    }
}

fn answer_lines(rt: &impl Print, text: &[u8]) -> io::Result<()> {
    for line in text.split_inclusive(|b| *b == b'\n') {
        answer(rt, line.strip_suffix(b"\n").unwrap_or(line))?;
    }
    Ok(())
}

// Fills the buffer as far as the input goes, and answers how many bytes that is. (By a loop of its own, since no call of the standard
// library does this and allocates nothing.)
fn read_full(input: &mut impl Read, buf: &mut [u8]) -> io::Result<usize>
    ensures { IfOk result (λ n. n ≤ length buf.old) }
{
    let mut n = 0;
    while n < buf.len() {
        let got = input.read(&mut buf[n..])?;
        if got == 0 {
            return Ok(n);
        }
        n += got;
    }
    Ok(n)
}

fn main(rt: HostRuntime) -> io::Result<()> {
    let mut buf = [0u8; ROOM];
    let mut input = rt.reader();
    let n = read_full(&mut input, &mut buf)?;
    if n < ROOM {
        answer_lines(&rt, &buf[..n])
    } else {
        println!(rt; "the input is longer than 65535 bytes")
    }
}
