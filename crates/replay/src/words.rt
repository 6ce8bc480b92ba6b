// The words of a line (docs/HISTORY.md, "Words"): where each stands, and the numbers, hashes, times and flags that it may say. Two
// spaces in a row have an empty word between them, which says nothing, so that no call has it.
ghost use Rattle.std.specs.Prelude.{ℕ, ◌<◌, ◌≡◌, ◌≢◌, ◌≤◌, IfSome, length, slice_index};

use amount::Reading;
use block::{Competing, Time};
use hash::Hash;

// ---- where words stand ----

// Where the first such byte stands, from `from` on and before `to`; `to` where there is none.
pub fn find(text: &[u8], from: usize, to: usize, byte: u8) -> usize
    requires { (from ≤ to) × (to ≤ length text.now) }
    ensures within { (from ≤ result) × (result ≤ to) }
    ensures before { (k : ℕ) → from ≤ k → k < result → slice_index text.now k ≢ byte }
    ensures found { result < to → slice_index text.now result ≡ byte }
{
    for i in from..to {
        if text[i] == byte {
            return i;
        }
    }
    to
}

// The first word, and what stands behind its separator, where there is one. A TEXT may hold the separator, so in one it is looked for
// behind the second quote.
fn cut(text: &[u8], separator: u8) -> (&[u8], Option<&[u8]>) {
    let n = text.len();
    let from = match text {
        [b'"', ..] => find(text, 1, n, b'"'),
        _ => 0,
    };
    let end = find(text, from, n, separator);
    (&text[..end], text.get(end + 1..))
}

// Puts the words into the room, and answers how many they are: none where they are more than it has places.
pub fn split<'a>(text: &'a [u8], separator: u8, room: &mut [&'a [u8]]) -> Option<usize>
    ensures { IfSome result (λ n. n ≤ length room.old) }
{
    let mut rest = text;
    for i in 0..room.len() {
        let (word, more) = cut(rest, separator);
        room[i] = word;
        let Some(more) = more else {
            return Some(i + 1);
        };
        rest = more;
    }
    None
}

// ---- numbers ----

// A capital letter is no digit.
fn digit(byte: u8, base: u64) -> Option<u64>
    ensures { IfSome result (λ d. d < base) }
{
    let value = match byte {
        b'0'..=b'9' => byte - b'0',
        b'a'..=b'f' => byte - b'a' + 10,
        _ => return None,
    };
    Some(u64::from(value)).filter(|value| *value < base)
}

// What the digits make, where it is below 2^64: 0 where there are none.
fn digits(word: &[u8], base: u64) -> Option<u64> {
    word.iter().try_fold(0u64, |sum, byte| {
        sum.checked_mul(base)?.checked_add(digit(*byte, base)?)
    })
}

pub fn number(word: &[u8]) -> Option<u64> {
    if word.is_empty() {
        return None;
    }
    digits(word, 10)
}

// STORE: a number that fits a byte.
pub fn store(word: &[u8]) -> Option<u64>
    ensures { IfSome result (λ n. n ≤ 255) }
{
    number(word).filter(|n| *n <= 255)
}

// CLOCK: a minus sign may stand before it, a plus sign may not.
pub fn signed(word: &[u8]) -> Option<i64> {
    match word.strip_prefix(b"-") {
        Some(digits) => 0i64.checked_sub_unsigned(number(digits)?),
        None => i64::try_from(number(word)?).ok(),
    }
}

pub fn time(word: &[u8]) -> Option<Time> {
    match word {
        b"-" => Some(Time::None),
        _ => signed(word).map(Time::At),
    }
}

// ---- hexadecimal ----

// What the last 16 digits make, or as many as there are, and the digits before them.
pub fn last_word(word: &[u8]) -> Option<(&[u8], u64)>
    ensures { IfSome result (λ r. length r.0.now ≤ length word.now) }
{
    let (before, last) = word.split_at(word.len().saturating_sub(16));
    Some((before, digits(last, 16)?))
}

pub fn hash(word: &[u8]) -> Option<Hash> {
    if word.is_empty() {
        return None;
    }
    let (before, fourth) = last_word(word)?;
    let (before, third) = last_word(before)?;
    let (before, second) = last_word(before)?;
    let (before, first) = last_word(before)?;
    before.is_empty().then_some(Hash {
        first,
        second,
        third,
        fourth,
    })
}

pub fn other(word: &[u8]) -> Option<Competing> {
    match word {
        b"-" => Some(Competing::None),
        _ => hash(word).map(Competing::With),
    }
}

// ---- texts and flags ----

// A TEXT, read as an amount: no quote stands between the two at its ends.
pub fn text(word: &[u8]) -> Option<Reading> {
    let inside = word.strip_prefix(b"\"")?.strip_suffix(b"\"")?;
    if inside.contains(&b'"') {
        return None;
    }
    Some(amount::read(inside))
}

// Orphaned, canonical.
pub fn flags(word: &[u8]) -> Option<(bool, bool)> {
    match word {
        b"-" => Some((false, false)),
        b"o" => Some((true, false)),
        b"c" => Some((false, true)),
        b"oc" => Some((true, true)),
        _ => None,
    }
}
