// Hashes (document 01, "Taken from the repository" and "Forms that change"): 32 bytes outside, four words inside, the first the
// most significant. A hash is one number, `hash_number`, and its order is the order of its bytes and of its text.
#![tactic(auto)]

ghost use Rattle.std.specs.Prelude.{◌+◌, ◌≤◌, eqb, ltb, drop, length, take, [], ◌∷◌, ◌≡◌};
ghost use Rattle.hash.specs.Digits.{bytes_number, bytes_of, digits};
ghost use Rattle.hash.specs.Hashes.{hash_number, join};
ghost use Rattle.std.proofs.lemmas.List.Edits.{sets};

#[derive(Clone, Copy)]
pub struct Hash {
    pub first: u64,
    pub second: u64,
    pub third: u64,
    pub fourth: u64,
}

// The word of eight bytes.
fn word(a: u8, b: u8, c: u8, d: u8, e: u8, f: u8, g: u8, h: u8) -> u64
    ensures { result ≡ bytes_number (a ∷ b ∷ c ∷ d ∷ e ∷ f ∷ g ∷ h ∷ []) }
{
    let upper = ((a as u64 * 256 + b as u64) * 256 + c as u64) * 256 + d as u64;
    (((upper * 256 + e as u64) * 256 + f as u64) * 256 + g as u64) * 256 + h as u64
}

// The word of the eight bytes from the place `at` on.
fn word_at(bytes: &[u8], at: usize) -> u64
    requires { at + 8 ≤ length bytes.now }
    ensures { result ≡ bytes_number (take 8 (drop at bytes.now)) }
{
    word(
        bytes[at],
        bytes[at + 1],
        bytes[at + 2],
        bytes[at + 3],
        bytes[at + 4],
        bytes[at + 5],
        bytes[at + 6],
        bytes[at + 7],
    )
}

// (Of a slice, since the length of an array behind a reference is known only where it is made one.)
fn hash_of(bytes: &[u8]) -> Hash
    requires { length bytes.now ≡ 32 }
    ensures { hash_number result ≡ bytes_number bytes.now }
{
    let first = word_at(bytes, 0);
    let second = word_at(bytes, 8);
    let third = word_at(bytes, 16);
    let fourth = word_at(bytes, 24);
    Hash {
        first,
        second,
        third,
        fourth,
    }
}

pub fn from_bytes(bytes: &[u8; 32]) -> Hash
    ensures { hash_number result ≡ bytes_number bytes.now }
{
    hash_of(bytes)
}

// The eight bytes of a word, from the place `at` on.
fn put_word(bytes: &mut [u8], at: usize, w: u64)
    requires { at + 8 ≤ length bytes.old }
    ensures { bytes.new ≡ sets bytes.old at (digits 256 8 w []) }
{
    let x = w / 256;
    let y = x / 256;
    let z = y / 256;
    let upper = z / 256;
    let u = upper / 256;
    let v = u / 256;
    bytes[at] = (v / 256 % 256) as u8;
    bytes[at + 1] = (v % 256) as u8;
    bytes[at + 2] = (u % 256) as u8;
    bytes[at + 3] = (upper % 256) as u8;
    bytes[at + 4] = (z % 256) as u8;
    bytes[at + 5] = (y % 256) as u8;
    bytes[at + 6] = (x % 256) as u8;
    bytes[at + 7] = (w % 256) as u8;
}

// The 32 bytes of a hash of four words, from the place `at` on.
pub fn put(list: &mut [u8], at: usize, a: u64, b: u64, c: u64, d: u64)
    requires { at + 32 ≤ length list.old }
    ensures { list.new ≡ sets list.old at (bytes_of (join a b c d)) }
{
    put_word(list, at, a);
    put_word(list, at + 8, b);
    put_word(list, at + 16, c);
    put_word(list, at + 24, d);
}

fn put_words(bytes: &mut [u8], a: u64, b: u64, c: u64, d: u64)
    requires { length bytes.old ≡ 32 }
    ensures { bytes.new ≡ bytes_of (join a b c d) }
{
    put(bytes, 0, a, b, c, d);
}

pub fn to_bytes(h: Hash, bytes: &mut [u8; 32])
    ensures { bytes.new ≡ bytes_of (hash_number h) }
{
    put_words(bytes, h.first, h.second, h.third, h.fourth);
}

fn same_words(a0: u64, a1: u64, a2: u64, a3: u64, b0: u64, b1: u64, b2: u64, b3: u64) -> bool
    ensures { result ≡ eqb (join a0 a1 a2 a3) (join b0 b1 b2 b3) }
{
    if a0 != b0 {
        return false;
    }
    if a1 != b1 {
        return false;
    }
    if a2 != b2 {
        return false;
    }
    if a3 != b3 {
        return false;
    }
    true
}

pub fn same(a: Hash, b: Hash) -> bool
    ensures { result ≡ eqb (hash_number a) (hash_number b) }
{
    same_words(
        a.first, a.second, a.third, a.fourth, b.first, b.second, b.third, b.fourth,
    )
}

fn less_words(a0: u64, a1: u64, a2: u64, a3: u64, b0: u64, b1: u64, b2: u64, b3: u64) -> bool
    ensures { result ≡ ltb (join a0 a1 a2 a3) (join b0 b1 b2 b3) }
{
    if a0 != b0 {
        return a0 < b0;
    }
    if a1 != b1 {
        return a1 < b1;
    }
    if a2 != b2 {
        return a2 < b2;
    }
    a3 < b3
}

pub fn less(a: Hash, b: Hash) -> bool
    ensures { result ≡ ltb (hash_number a) (hash_number b) }
{
    less_words(
        a.first, a.second, a.third, a.fourth, b.first, b.second, b.third, b.fourth,
    )
}
