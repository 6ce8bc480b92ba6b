// Chains of slots by a key of four words, in the lent memory: places by hash, places by previous hash (many share a key), the journal's
// slots by the hash of the last touch. Doubly linked, so that a slot leaves its chain with no search for it. Every number read is tested
// before it is an address and every walk counts its steps, so that no function needs the memory to hold an index in order to be safe.
#![tactic(auto)]

ghost use Rattle.std.specs.Prelude.{◌+◌, ◌*◌, ◌%◌, ◌<◌, ◌≤◌, length, ◌≡◌};
ghost use Rattle.index.specs.Keys.{Bucketed, Tests, bucket_of, key_at};
ghost use Rattle.index.specs.Seeks.{Seeks};
ghost use Rattle.index.specs.Writes.{Cleared, Linked, Unlinked};
ghost use Rattle.memory.specs.Layout.{strided};
ghost use Rattle.block.specs.Words.{quad};

// Every chain ends at its head.
pub fn clear(mem: &mut [u64], s: usize, base: usize)
    requires { base + 3 * s ≤ length mem.old }
    ensures { Cleared mem.old mem.new s base }
{
    memory::fill(mem, base, base + s, s as u64);
}

// The bucket of a key whose last word is d.
pub fn bucket(d: u64, s: usize) -> usize
    requires { 1 ≤ s }
    ensures { Bucketed d s result }
{
    (d % (s as u64)) as usize
}

// The address of the key of slot x.
fn key_at(mem: &[u64], s: usize, keys: usize, entries: bool, x: usize) -> usize
    requires { (x < s) × (keys + strided entries s ≤ length mem.now) }
    ensures { (result ≡ keys + strided entries x) × (result + 4 ≤ length mem.now) }
{
    if entries {
        return keys + 5 * x;
    }
    keys + 68 * x
}

fn has_key(
    mem: &[u64],
    s: usize,
    keys: usize,
    entries: bool,
    x: usize,
    a: u64,
    b: u64,
    c: u64,
    d: u64,
) -> bool
    requires { (x < s) × (keys + strided entries s ≤ length mem.now) }
    ensures { Tests result (key_at mem.now keys entries x ≡ quad a b c d) }
{
    let at = key_at(mem, s, keys, entries, x);
    memory::same_four(mem, at, a, b, c, d)
}

// The first slot with the key (a, b, c, d) of the chain to which the word at `at` leads; s where there is none.
pub fn seek(
    mem: &[u64],
    s: usize,
    base: usize,
    keys: usize,
    entries: bool,
    at: usize,
    a: u64,
    b: u64,
    c: u64,
    d: u64,
) -> usize
    requires { (at < length mem.now) × (base + 3 * s ≤ length mem.now) × (keys + strided entries s ≤ length mem.now) }
    ensures { Seeks mem.now s base (key_at mem.now keys entries) at (quad a b c d) result }
{
    let mut link = at;
    for _ in 0..s {
        let x = memory::place_at(mem, link);
        if s <= x {
            return s;
        }
        if has_key(mem, s, keys, entries, x, a, b, c, d) {
            return x;
        }
        link = base + s + x;
    }
    s
}

// The first slot with the key (a, b, c, d); s where there is none.
pub fn find(
    mem: &[u64],
    s: usize,
    base: usize,
    keys: usize,
    entries: bool,
    a: u64,
    b: u64,
    c: u64,
    d: u64,
) -> usize
    requires { (1 ≤ s) × (base + 3 * s ≤ length mem.now) × (keys + strided entries s ≤ length mem.now) }
    ensures { Seeks mem.now s base (key_at mem.now keys entries) (base + d % s) (quad a b c d) result }
{
    let h = bucket(d, s);
    seek(mem, s, base, keys, entries, base + h, a, b, c, d)
}

// Slot x at the head of bucket b.
fn link_at(mem: &mut [u64], s: usize, base: usize, b: usize, x: usize)
    requires { (x < s) × (b < s) × (base + 3 * s ≤ length mem.old) }
    ensures { Linked mem.old mem.new s base b x }
{
    let q = mem[base + b] as usize;
    mem[base + s + x] = q as u64;
    mem[base + 2 * s + x] = (base + b) as u64;
    mem[base + b] = x as u64;
    if q < s {
        mem[base + 2 * s + q] = (base + s + x) as u64;
    }
}

// Slot x at the head of the bucket of its key.
pub fn link(mem: &mut [u64], s: usize, base: usize, keys: usize, entries: bool, x: usize)
    requires { (x < s) × (base + 3 * s ≤ length mem.old) × (keys + strided entries s ≤ length mem.old) }
    ensures { Linked mem.old mem.new s base (bucket_of s (key_at mem.old keys entries x)) x }
{
    let at = key_at(mem, s, keys, entries, x);
    let b = bucket(mem[at + 3], s);
    link_at(mem, s, base, b, x);
}

// Slot x out of its chain.
pub fn unlink(mem: &mut [u64], s: usize, base: usize, x: usize)
    requires { (x < s) × (base + 3 * s ≤ length mem.old) }
    ensures { Unlinked mem.old mem.new s base x }
{
    let r = mem[base + 2 * s + x] as usize;
    let q = mem[base + s + x] as usize;
    if r < base || base + 2 * s <= r {
        return;
    }
    mem[r] = q as u64;
    if q < s {
        mem[base + 2 * s + q] = r as u64;
    }
}
