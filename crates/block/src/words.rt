// What a lent memory keeps of headers and copies, as words, and back (document 01, "Forms that change": a hash inside an enum goes as
// four u64). Any words decode to something, so that no function asks anything of a memory.
ghost use Rattle.amount.specs.Value.{meant, value};
ghost use Rattle.amount.specs.Choose.{◌if◌else◌};
ghost use Rattle.block.specs.Records.{competing_means, hash_means, header_means, kept_means, reason_means, time_means, why_means};
ghost use Rattle.block.specs.Words.{amount_of, competing_of, copy_of, group, hash_of, header_of, quad, reason_of, time_of, is_canonical, is_competing, is_orphaned, why_of};
ghost use Rattle.block.specs.Writing.{
  CompetingIs,
  CopyIs,
  Four,
  HashIs,
  HeaderIs,
  One,
  ReadingIs,
  ReasonIs,
  SignedIs,
  TimeIs,
  Two,
  WhyIs,
  is_with,
  state_word,
};
ghost use Rattle.std.specs.Prelude.{◌≤◌, ◌≡◌};

use crate::{Competing, Copy, CopyWords, Header, HeaderWords, Kept, Quad, Reason, Time, Why};
use amount::{Amount, Reading};
use hash::Hash;

// 2^63, what a time's word is below.
const HALF: u64 = 9223372036854775808;

#[derive(Clone, Copy)]
struct AmountWords {
    kind: u64,
    first: u64,
    second: u64,
}

#[derive(Clone, Copy)]
struct TimeWords {
    kind: u64,
    word: u64,
}

#[derive(Clone, Copy)]
struct WhyWords {
    kind: u64,
    words: Quad,
}

pub fn hash_words(h: Hash) -> Quad
    ensures { HashIs h (group result) }
{
    Quad {
        a: h.first,
        b: h.second,
        c: h.third,
        d: h.fourth,
    }
}

pub fn hash_of(words: Quad) -> Hash
    ensures { hash_means result ≡ hash_of (group words) }
{
    Hash {
        first: words.a,
        second: words.b,
        third: words.c,
        fourth: words.d,
    }
}

fn reading_words(x: Reading) -> AmountWords
    ensures { ReadingIs x result.kind result.first result.second }
{
    match x {
        Reading::Readable(a) => {
            let w = amount::to_words(a);
            AmountWords {
                kind: 1,
                first: w.first,
                second: w.second,
            }
        }
        Reading::Unreadable => AmountWords {
            kind: 0,
            first: 0,
            second: 0,
        },
    }
}

pub fn reading_of(kind: u64, first: u64, second: u64) -> Reading
    ensures { meant result ≡ amount_of kind first second }
{
    if kind == 1 {
        Reading::Readable(amount::from_words(first, second))
    } else {
        Reading::Unreadable
    }
}

fn signed_words(x: i64) -> TimeWords
    ensures { SignedIs x result.kind result.word }
{
    if x < 0 {
        TimeWords {
            kind: 2,
            word: (-1 - x) as u64,
        }
    } else {
        TimeWords {
            kind: 1,
            word: x as u64,
        }
    }
}

fn time_words(t: Time) -> TimeWords
    ensures { TimeIs t result.kind result.word }
{
    match t {
        Time::None => TimeWords { kind: 0, word: 0 },
        Time::At(x) => signed_words(x),
    }
}

fn time_of(kind: u64, word: u64) -> Time
    ensures { time_means result ≡ time_of kind word }
{
    if kind == 0 {
        return Time::None;
    }
    let x = (word % HALF) as i64;
    if kind == 1 {
        Time::At(x)
    } else {
        Time::At(-1 - x)
    }
}

// A kind and the words of two amounts.
fn two_amounts(kind: u64, x: Amount, y: Amount) -> WhyWords
    ensures { (result.kind ≡ kind) × Two (group result.words) (value x) (value y) }
{
    let v = amount::to_words(x);
    let w = amount::to_words(y);
    WhyWords {
        kind,
        words: Quad {
            a: v.first,
            b: v.second,
            c: w.first,
            d: w.second,
        },
    }
}

fn one_amount(kind: u64, x: Amount) -> WhyWords
    ensures { (result.kind ≡ kind) × One (group result.words) (value x) }
{
    let w = amount::to_words(x);
    four_words(kind, w.first, w.second, 0, 0)
}

fn four_words(kind: u64, a: u64, b: u64, c: u64, d: u64) -> WhyWords
    ensures { (result.kind ≡ kind) × Four (group result.words) a b c d }
{
    WhyWords {
        kind,
        words: Quad { a, b, c, d },
    }
}

fn reason_words(x: Reason) -> WhyWords
    ensures { ReasonIs x result.kind (group result.words) }
{
    match x {
        Reason::SameTip(h) => four_words(1, h.first, h.second, h.third, h.fourth),
        Reason::Neither => four_words(2, 0, 0, 0, 0),
        Reason::PeerOnly(w) => one_amount(3, w),
        Reason::LocalOnly(w) => one_amount(4, w),
        Reason::PeerWork(w, v) => two_amounts(5, w, v),
        Reason::LocalWork(w, v) => two_amounts(6, w, v),
        Reason::PeerTip(i, j) => four_words(7, i, j, 0, 0),
        Reason::LocalTip(i, j) => four_words(8, i, j, 0, 0),
        Reason::PeerHash => four_words(9, 0, 0, 0, 0),
        Reason::LocalHash => four_words(10, 0, 0, 0, 0),
        Reason::OffSpine => four_words(11, 0, 0, 0, 0),
        Reason::CompetingFork => four_words(12, 0, 0, 0, 0),
        Reason::StaleFork => four_words(13, 0, 0, 0, 0),
    }
}

fn why_words(x: Why) -> WhyWords
    ensures { WhyIs x result.kind (group result.words) }
{
    match x {
        Why::None => four_words(0, 0, 0, 0, 0),
        Why::Because(y) => reason_words(y),
    }
}

fn reason_of(kind: u64, a: u64, b: u64, c: u64, d: u64) -> Reason
    ensures { reason_means result ≡ reason_of kind (quad a b c d) }
{
    match kind {
        1 => Reason::SameTip(Hash {
            first: a,
            second: b,
            third: c,
            fourth: d,
        }),
        2 => Reason::Neither,
        3 => Reason::PeerOnly(amount::from_words(a, b)),
        4 => Reason::LocalOnly(amount::from_words(a, b)),
        5 => Reason::PeerWork(amount::from_words(a, b), amount::from_words(c, d)),
        6 => Reason::LocalWork(amount::from_words(a, b), amount::from_words(c, d)),
        7 => Reason::PeerTip(a, b),
        8 => Reason::LocalTip(a, b),
        9 => Reason::PeerHash,
        10 => Reason::LocalHash,
        11 => Reason::OffSpine,
        12 => Reason::CompetingFork,
        _ => Reason::StaleFork,
    }
}

fn why_of(kind: u64, words: Quad) -> Why
    ensures { why_means result ≡ why_of kind (group words) }
{
    if kind == 0 {
        return Why::None;
    }
    Why::Because(reason_of(kind, words.a, words.b, words.c, words.d))
}

fn competing_words(x: Competing) -> Quad
    ensures { CompetingIs x (group result) }
{
    match x {
        Competing::None => Quad {
            a: 0,
            b: 0,
            c: 0,
            d: 0,
        },
        Competing::With(h) => hash_words(h),
    }
}

fn competing_of(there: bool, words: Quad) -> Competing
    ensures { competing_means result ≡ competing_of there (group words) }
{
    if there {
        Competing::With(hash_of(words))
    } else {
        Competing::None
    }
}

fn is_with(x: Competing) -> bool
    ensures { result ≡ is_with x }
{
    match x {
        Competing::None => false,
        Competing::With(_) => true,
    }
}

fn part(is: bool, n: u64) -> u64
    ensures { (result ≡ (n if is else 0)) × (result ≤ n) }
{
    if is { n } else { 0 }
}

fn state_word(orphaned: bool, canonical: bool, competing: bool) -> u64
    ensures { result ≡ state_word orphaned canonical competing }
{
    1 + part(orphaned, 1) + part(canonical, 2) + part(competing, 4)
}

pub fn copy_words(x: Copy) -> CopyWords
    ensures { CopyIs x (group result.state) (group result.reason) (group result.competing) }
{
    let other = x.competing;
    let time = x.time;
    let reason = x.reason;
    let s = state_word(x.orphaned, x.canonical, is_with(other));
    let t = time_words(time);
    let w = why_words(reason);
    let words = w.words;
    CopyWords {
        state: Quad {
            a: s,
            b: t.kind,
            c: t.word,
            d: w.kind,
        },
        reason: words,
        competing: competing_words(other),
    }
}

// The flags of a state word; none where there is no copy.
pub fn is_orphaned(state: u64) -> bool
    ensures { result ≡ is_orphaned state }
{
    if state == 0 {
        return false;
    }
    (state - 1) % 2 == 1
}

pub fn is_canonical(state: u64) -> bool
    ensures { result ≡ is_canonical state }
{
    if state == 0 {
        return false;
    }
    (state - 1) / 2 % 2 == 1
}

fn is_competing(state: u64) -> bool
    ensures { result ≡ is_competing state }
{
    if state == 0 {
        return false;
    }
    (state - 1) / 4 % 2 == 1
}

pub fn copy_of(state: Quad, reason: Quad, competing: Quad) -> Kept
    ensures { kept_means result ≡ copy_of (group state) (group reason) (group competing) }
{
    let s = state.a;
    if s == 0 {
        return Kept::None;
    }
    Kept::Copy(Copy {
        orphaned: is_orphaned(s),
        canonical: is_canonical(s),
        time: time_of(state.b, state.c),
        reason: why_of(state.d, reason),
        competing: competing_of(is_competing(s), competing),
    })
}

pub fn header_words(x: Header) -> HeaderWords
    ensures { HeaderIs x (group result.hash) (group result.prev) (group result.numbers) (group result.amounts) }
{
    let target = x.target;
    let actual = x.actual;
    let t = reading_words(target);
    let a = reading_words(actual);
    HeaderWords {
        hash: hash_words(x.hash),
        prev: hash_words(x.prev),
        numbers: Quad {
            a: x.index,
            b: x.epoch,
            c: t.kind,
            d: a.kind,
        },
        amounts: Quad {
            a: t.first,
            b: t.second,
            c: a.first,
            d: a.second,
        },
    }
}

pub fn header_of(hash: Quad, prev: Quad, numbers: Quad, amounts: Quad) -> Header
    ensures { header_means result ≡ header_of (group hash) (group prev) (group numbers) (group amounts) }
{
    Header {
        hash: hash_of(hash),
        index: numbers.a,
        epoch: numbers.b,
        prev: hash_of(prev),
        target: reading_of(numbers.c, amounts.a, amounts.b),
        actual: reading_of(numbers.d, amounts.c, amounts.d),
    }
}
