// The journal (document 01, "Holding blocks"): a ring of the hashes touched in the lent memory, with the index of last touches. Every
// number that is read is tested before it is a slot, so that the functions stay in bounds on any memory that is laid out.
#![tactic(auto)]

ghost use Rattle.std.specs.Prelude.{◌+◌, ◌*◌, ◌-◌, ◌%◌, ◌<◌, ◌≤◌, ltb, length, true, ◌≡◌};
ghost use Rattle.amount.specs.Choose.{◌if◌else◌};
ghost use Rattle.block.specs.Words.{quad};
ghost use Rattle.hash.specs.Hashes.{join};
ghost use Rattle.index.specs.Keys.{key_at};
ghost use Rattle.index.specs.Seeks.{Seeks};
ghost use Rattle.journal.specs.Changes.{changes_of, had_of, lasts, Aged, Later, Writes};
ghost use Rattle.journal.specs.Journal.{back, touched_at, last_at, Journaled};
ghost use Rattle.journal.specs.Steps.{Counted, Enters, Forgets, Roomy, Slot, overwritten_at};
ghost use Rattle.journal.specs.Touches.{Clears, Touches};
ghost use Rattle.memory.specs.Layout.{Laid, by_touch, ring};
ghost use Rattle.memory.specs.Words.{word};
ghost use Rattle.model.specs.Numbers.{journal_limit, max_word};

// Changes since a generation and a version: none to be had, or how many hashes.
#[derive(Clone, Copy)]
pub enum Had {
    None,
    Count(usize),
}

// The journal is empty.
pub fn clear(mem: &mut [u64], n: usize)
    requires { Laid mem.old n }
    ensures { Clears mem.old mem.new n }
{
    let j = memory::place_at(mem, 1);
    mem[4] = 0;
    mem[5] = 0;
    index::clear(mem, j, 64 + 81 * n + 5 * j);
}

// ---- touch ----

// The slot that the next entry goes to; 0 where the memory names none.
fn slot(mem: &[u64], n: usize) -> usize
    requires { Laid mem.now n }
    ensures { Slot mem.now result }
{
    let at = mem[5] as usize;
    if at < mem[1] as usize {
        return at;
    }
    0
}

// The slot of the last touch of a hash; j where the journal has none.
fn find(mem: &[u64], n: usize, j: usize, a: u64, b: u64, c: u64, d: u64) -> usize
    requires { (1 ≤ j) × Roomy mem.now n j }
    ensures { Seeks mem.now j (by_touch n j) (key_at mem.now (ring n) true) (by_touch n j + d % j) (quad a b c d) result }
{
    index::find(mem, j, 64 + 81 * n + 5 * j, 64 + 81 * n, true, a, b, c, d)
}

// Slot e, if there is one, is no last touch: it is flagged, and leaves the index.
fn forget(mem: &mut [u64], n: usize, j: usize, e: usize)
    requires { Roomy mem.old n j }
    ensures { Forgets mem.old mem.new n j e }
{
    if j <= e {
        return;
    }
    mem[64 + 81 * n + 5 * e + 4] = 1;
    index::unlink(mem, j, 64 + 81 * n + 5 * j, e);
}

// The slot whose last touch the next entry overwrites, which is in a full ring only; j where there is none.
fn overwritten(mem: &[u64], n: usize, j: usize, at: usize) -> usize
    requires { (at < j) × Roomy mem.now n j }
    ensures { result ≡ overwritten_at mem.now n j at }
{
    if (mem[4] as usize) < j || mem[64 + 81 * n + 5 * at + 4] == 1 {
        return j;
    }
    at
}

// An entry in slot `at`, which is the last touch of its hash.
fn enter(mem: &mut [u64], n: usize, j: usize, at: usize, a: u64, b: u64, c: u64, d: u64)
    requires { (at < j) × Roomy mem.old n j }
    ensures { Enters mem.old mem.new n j at a b c d }
{
    memory::four(mem, 64 + 81 * n + 5 * at, a, b, c, d);
    mem[64 + 81 * n + 5 * at + 4] = 0;
    index::link(mem, j, 64 + 81 * n + 5 * j, 64 + 81 * n, true, at);
}

// (The last version stays: no call touches there, and so nothing wraps.)
fn bump(v: u64) -> u64
    ensures { (v ≡ max_word → ⊥) → result ≡ v + 1 }
{
    if v == 18446744073709551615 {
        return v;
    }
    v + 1
}

fn grown(len: u64, j: usize) -> u64
    requires { j ≤ journal_limit }
    ensures { result ≡ (len + 1 if ltb len j else len) }
{
    if len < j as u64 {
        return len + 1;
    }
    len
}

fn after(at: usize, j: usize) -> u64
    requires { at < j }
    ensures { result ≡ (at + 1 if ltb (at + 1) j else 0) }
{
    if at + 1 < j {
        return (at + 1) as u64;
    }
    0
}

// One more version and one more entry; loading is closed, and the tree no longer fresh.
fn count(mem: &mut [u64], n: usize, j: usize, at: usize)
    requires { (at < j) × Roomy mem.old n j }
    ensures { Counted mem.old mem.new j at }
{
    let v = bump(mem[3]);
    let l = grown(mem[4], j);
    let p = after(at, j);
    mem[3] = v;
    mem[4] = l;
    mem[5] = p;
    mem[6] = 0;
    mem[7] = 0;
}

// A touch of the hash (a, b, c, d).
pub fn touch(mem: &mut [u64], n: usize, a: u64, b: u64, c: u64, d: u64)
    requires { Laid mem.old n }
    ensures { Touches mem.old mem.new n (join a b c d) }
{
    let j = memory::place_at(mem, 1);
    let at = slot(mem, n);
    let before = find(mem, n, j, a, b, c, d);
    forget(mem, n, j, before);
    let oldest = overwritten(mem, n, j, at);
    forget(mem, n, j, oldest);
    enter(mem, n, j, at, a, b, c, d);
    count(mem, n, j, at);
}

// ---- changes ----

// The slot of the entry that i others followed, in a ring of j slots whose next is `at`.
fn older(j: usize, at: usize, i: usize) -> usize
    requires { (at < j) × (i < j) × (j ≤ journal_limit) }
    ensures { (result ≡ back j at i) × (result < j) }
{
    if i < at {
        return at - i - 1;
    }
    at + j - i - 1
}

// .. of the memory; 0 for an age that no slot has.
fn slot_of(mem: &[u64], n: usize, i: usize) -> usize
    requires { Laid mem.now n }
    ensures { Aged mem.now i result }
{
    let j = memory::place_at(mem, 1);
    let at = slot(mem, n);
    if j <= i {
        return 0;
    }
    older(j, at, i)
}

// The entry that i others followed is the last touch of its hash.
pub fn is_last(mem: &[u64], n: usize, i: usize) -> bool
    requires { Laid mem.now n }
    ensures { Journaled mem.now n → i < word mem.now 4 → result ≡ last_at mem.now n i }
{
    let e = slot_of(mem, n, i);
    mem[64 + 81 * n + 5 * e + 4] != 1
}

// Its hash.
pub fn entry_words(mem: &[u64], n: usize, i: usize) -> block::Quad
    requires { Laid mem.now n }
    ensures { Journaled mem.now n → i < word mem.now 4 → join result.a result.b result.c result.d ≡ touched_at mem.now n i }
{
    let e = slot_of(mem, n, i);
    memory::read_four(mem, 64 + 81 * n + 5 * e)
}

// How many entries are later than version v, if the ring can have that many; none of them, else.
pub fn later(mem: &[u64], n: usize, v: u64) -> usize
    requires { Laid mem.now n }
    ensures { Later mem.now v result }
{
    if mem[3] < v {
        return 0;
    }
    let k = mem[3] - v;
    if mem[1] < k {
        return 0;
    }
    k as usize
}

// How many of the k newest entries are last touches.
fn count_last(mem: &[u64], n: usize, k: usize) -> usize
    requires { Laid mem.now n × (k ≤ word mem.now 1) }
    ensures { Journaled mem.now n → k ≤ word mem.now 4 → result ≡ length (lasts (touched_at mem.now n) k) }
{
    let mut r = 0;
    for i in 0..k {
        if is_last(mem, n, i) {
            r += 1;
        }
    }
    r
}

// How many hashes were touched since (g, v), if that is to be had.
pub fn changes_had(mem: &[u64], n: usize, g: u64, v: u64) -> Had
    requires { Laid mem.now n }
    ensures { Journaled mem.now n → result ≡ had_of (changes_of mem.now n g v) }
{
    if g != mem[2] || mem[3] < v || mem[4] < mem[3] - v {
        return Had::None;
    }
    let k = later(mem, n, v);
    Had::Count(count_last(mem, n, k))
}

// Puts their hashes into the list, 32 bytes each, the oldest last touch first. (A list that is too short has them up to its end.)
pub fn write_changes(mem: &[u64], n: usize, v: u64, list: &mut [u8])
    requires { Laid mem.now n }
    ensures { Writes mem.now n v list.old list.new }
{
    let k = later(mem, n, v);
    let mut at = 0;
    for i in (0..k).rev() {
        if is_last(mem, n, i) {
            if list.len() - at < 32 {
                return;
            }
            let q = entry_words(mem, n, i);
            hash::put(list, at, q.a, q.b, q.c, q.d);
            at += 32;
        }
    }
}
