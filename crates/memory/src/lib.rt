// The lent memory: words four at a time, a stretch filled with one number, and the room that the head names. These are the few
// functions that index by an address as it is given.
#![tactic(auto)]

ghost use Rattle.std.specs.Prelude.{◌≡◌, ℕ, ◌+◌, ◌≤◌, ◌<◌, length};
ghost use Rattle.memory.specs.Words.{word, seg, Four, Filled, same_four};
ghost use Rattle.block.specs.Words.{quad};
ghost use Rattle.memory.specs.Layout.{Laid};

use block::Quad;

// Document 01, "Numbers given back": the greatest rooms that a start accepts.
pub const HASH_LIMIT: usize = 32768;

pub const JOURNAL_LIMIT: usize = 200000;

// The word at an address, as a place number.
pub fn place_at(mem: &[u64], at: usize) -> usize
    requires { at < length mem.now }
    ensures { result ≡ word mem.now at }
{
    mem[at] as usize
}

pub fn four(mem: &mut [u64], at: usize, a: u64, b: u64, c: u64, d: u64)
    requires { at + 4 ≤ length mem.old }
    ensures { Four mem.old mem.new at a b c d }
{
    mem[at] = a;
    mem[at + 1] = b;
    mem[at + 2] = c;
    mem[at + 3] = d;
}

pub fn read_four(mem: &[u64], at: usize) -> Quad
    requires { at + 4 ≤ length mem.now }
    ensures { seg mem.now at 4 ≡ quad result.a result.b result.c result.d }
{
    Quad {
        a: mem[at],
        b: mem[at + 1],
        c: mem[at + 2],
        d: mem[at + 3],
    }
}

pub fn same_four(mem: &[u64], at: usize, a: u64, b: u64, c: u64, d: u64) -> bool
    requires { at + 4 ≤ length mem.now }
    ensures { result ≡ same_four (seg mem.now at 4) (quad a b c d) }
{
    mem[at] == a && mem[at + 1] == b && mem[at + 2] == c && mem[at + 3] == d
}

// The words from `from` up to `to` become v.
pub fn fill(mem: &mut [u64], from: usize, to: usize, v: u64)
    requires { (from ≤ to) × (to ≤ length mem.old) }
    ensures { Filled mem.old mem.new from to v }
{
    mem[from..to].fill(v);
}

// How many hashes the memory has room for, by its head; 0 for a memory that is not laid out.
pub fn room(mem: &[u64]) -> usize
    ensures { ((result ≡ 0 → ⊥) → Laid mem.now result) × (Laid mem.now (word mem.now 0) → result ≡ word mem.now 0) }
{
    if mem.len() < 64 {
        return 0;
    }
    let n = mem[0] as usize;
    let j = mem[1] as usize;
    if n == 0 || HASH_LIMIT < n || j == 0 || JOURNAL_LIMIT < j || mem.len() < 64 + 81 * n + 8 * j {
        return 0;
    }
    n
}
