// Amounts of up to 128 bits (document 01, "Amounts" and the first line of "Port order"): reading a text, comparing, adding with
// overflow, subtracting to zero. An amount is two limbs that no other crate can look into: every promise speaks of its value.
// The work is done on plain words, in a private function beside each public one.
#![tactic(auto)]

ghost use Rattle.std.specs.Prelude.{◌*◌, ◌+◌, ◌-◌, ◌<◌, ◌^◌, ◌≤◌, ◌≡◌};
ghost use Rattle.amount.specs.Amounts.{reading};
ghost use Rattle.amount.specs.Value.{Added, Ordered, Sixteenths, Worth, from_words, meant, value};

const MAX: u64 = 0xffff_ffff_ffff_ffff;

// Half of a word: 2^32.
const HALF: u64 = 4294967296;

// The largest word that is still a word with any digit written after it: ten times it and nine more is 2^64 - 7.
const SMALL: u64 = 1844674407370955160;

#[derive(Clone, Copy)]
pub struct Amount {
    limb0: u64,
    limb1: u64,
}

// An amount as it stands in a memory.
#[derive(Clone, Copy)]
pub struct Words {
    pub first: u64,
    pub second: u64,
}

#[derive(Clone, Copy)]
pub enum Sum {
    Fits(Amount),
    TooLarge,
}

#[derive(Clone, Copy)]
pub enum Order {
    Less,
    Equal,
    Greater,
}

#[derive(Clone, Copy)]
pub enum Reading {
    Readable(Amount),
    Unreadable,
}

// An amount without its last hexadecimal digit, and that digit.
#[derive(Clone, Copy)]
pub struct Split {
    pub rest: Amount,
    pub digit: u8,
}

pub fn zero() -> Amount
    ensures { Worth 0 result }
{
    from_words(0, 0)
}

// The amount of one word.
pub fn of_word(x: u64) -> Amount
    ensures { Worth x result }
{
    from_words(x, 0)
}

// The amount for which two words stand in a memory.
pub fn from_words(x: u64, y: u64) -> Amount
    ensures { Worth (from_words x y) result }
{
    Amount { limb0: x, limb1: y }
}

// The two words that stand for an amount in a memory.
pub fn to_words(a: Amount) -> Words
    ensures { from_words result.first result.second ≡ value a }
{
    Words {
        first: a.limb0,
        second: a.limb1,
    }
}

#[derive(Clone, Copy)]
struct Carried {
    word: u64,
    carry: u64,
}

// The sum of two words, and what goes over to the next.
fn low_sum(a: u64, b: u64) -> Carried
    ensures { (result.carry * 2 ^ 64 + result.word ≡ a + b) × (result.carry ≤ 1) }
{
    let room = MAX - a;
    if b <= room {
        Carried {
            word: a + b,
            carry: 0,
        }
    } else {
        Carried {
            word: b - room - 1,
            carry: 1,
        }
    }
}

fn add_words(a0: u64, a1: u64, b0: u64, b1: u64) -> Sum
    ensures { Added (from_words a0 a1 + from_words b0 b1) result }
{
    let low = low_sum(a0, b0);
    let word = low.word;
    let carry = low.carry;
    if MAX - a1 < b1 {
        return Sum::TooLarge;
    }
    let high = a1 + b1;
    if MAX - high < carry {
        return Sum::TooLarge;
    }
    Sum::Fits(from_words(word, high + carry))
}

// The sum, and too large where it has more than 128 bits.
pub fn add(a: Amount, b: Amount) -> Sum
    ensures { Added (value a + value b) result }
{
    add_words(a.limb0, a.limb1, b.limb0, b.limb1)
}

fn compare_words(a0: u64, a1: u64, b0: u64, b1: u64) -> Order
    ensures { Ordered (from_words a0 a1) (from_words b0 b1) result }
{
    if a1 < b1 {
        return Order::Less;
    }
    if b1 < a1 {
        return Order::Greater;
    }
    if a0 < b0 {
        return Order::Less;
    }
    if b0 < a0 {
        return Order::Greater;
    }
    Order::Equal
}

// How a stands to b.
pub fn compare(a: Amount, b: Amount) -> Order
    ensures { Ordered (value a) (value b) result }
{
    compare_words(a.limb0, a.limb1, b.limb0, b.limb1)
}

fn sub_words(a0: u64, a1: u64, b0: u64, b1: u64) -> Amount
    ensures { Worth (from_words a0 a1 - from_words b0 b1) result }
{
    if a1 < b1 {
        return zero();
    }
    let high = a1 - b1;
    if b0 <= a0 {
        return from_words(a0 - b0, high);
    }
    if high == 0 {
        return zero();
    }
    from_words(MAX - (b0 - a0) + 1, high - 1)
}

// What is left of a without b, and zero where b is the larger.
pub fn sub(a: Amount, b: Amount) -> Amount
    ensures { Worth (value a - value b) result }
{
    sub_words(a.limb0, a.limb1, b.limb0, b.limb1)
}

fn times_ten_words(x: u64, y: u64, digit: u8) -> Sum
    requires { digit < 10 }
    ensures { Added (from_words x y * 10 + digit) result }
{
    // nearly every amount is one word, and needs no halves
    if y == 0 {
        if x <= SMALL {
            return Sum::Fits(from_words(x * 10 + digit as u64, 0));
        }
    }
    let p = (x % HALF) * 10 + digit as u64;
    let q = (x / HALF) * 10 + p / HALF;
    let carry = q / HALF;
    if (MAX - carry) / 10 < y {
        return Sum::TooLarge;
    }
    Sum::Fits(from_words((q % HALF) * HALF + p % HALF, y * 10 + carry))
}

// Ten times a, and a digit more.
fn times_ten(a: Amount, digit: u8) -> Sum
    requires { digit < 10 }
    ensures { Added (value a * 10 + digit) result }
{
    times_ten_words(a.limb0, a.limb1, digit)
}

// One optional plus sign, then one or more digits, of a value below 2^128. A sum that is too large once stays so.
pub fn read(text: &[u8]) -> Reading
    ensures { meant result ≡ reading text.now }
{
    let mut sum = zero();
    let mut digits = false;
    let mut i = 0;
    while i < text.len() {
        let b = text[i];
        match b {
            b'0'..=b'9' => {
                match times_ten(sum, b - b'0') {
                    Sum::Fits(n) => {
                        sum = n;
                        digits = true;
                    }
                    Sum::TooLarge => {
                        return Reading::Unreadable;
                    }
                }
            }
            b'+' => {
                if i != 0 {
                    return Reading::Unreadable;
                }
            }
            _ => {
                return Reading::Unreadable;
            }
        }
        i += 1;
    }
    if digits {
        Reading::Readable(sum)
    } else {
        Reading::Unreadable
    }
}

fn sixteenth_words(x: u64, y: u64) -> Split
    ensures { Sixteenths (from_words x y) result }
{
    // 1152921504606846976 is 2^60: where the digit that comes down from the high word goes
    let rest = from_words((y % 16) * 1152921504606846976 + x / 16, y / 16);
    Split {
        rest,
        digit: (x % 16) as u8,
    }
}

// What is left of an amount without its last hexadecimal digit, and that digit.
pub fn sixteenth(a: Amount) -> Split
    ensures { Sixteenths (value a) result }
{
    sixteenth_words(a.limb0, a.limb1)
}
