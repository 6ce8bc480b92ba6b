// Dense sets of places in the lent memory: leaves, vacant places. Members stand in a row, and each place knows its position there, so that
// a test, an addition and a removal are a few words each and a loop over the members passes over nothing else.
#![tactic(auto)]

ghost use Rattle.std.specs.Prelude.{◌+◌, ◌*◌, ◌<◌, ◌≤◌, length, ◌≡◌};
ghost use Rattle.memory.specs.Words.{Stored};
ghost use Rattle.roster.specs.Roster.{Lies, Member, Size, is_in};
ghost use Rattle.roster.specs.Writes.{Added, Dropped};

// How many members there are.
pub fn count(mem: &[u64], n: usize, size: usize) -> usize
    requires { size < length mem.now }
    ensures { Size mem.now n size result }
{
    let z = mem[size] as usize;
    if z <= n {
        return z;
    }
    0
}

// The i-th member.
pub fn at(mem: &[u64], n: usize, list: usize, i: usize) -> usize
    requires { (i < n) × (list + n ≤ length mem.now) }
    ensures { Member mem.now n list i result }
{
    let q = mem[list + i] as usize;
    if q < n {
        return q;
    }
    0
}

pub fn has(mem: &[u64], n: usize, list: usize, size: usize, posn: usize, p: usize) -> bool
    requires { (p < n) × Lies n list size posn (length mem.now) }
    ensures { result ≡ is_in mem.now n list size posn p }
{
    let z = count(mem, n, size);
    let i = memory::place_at(mem, posn + 68 * p);
    i < z && at(mem, n, list, i) == p
}

// Place p becomes a member, the last.
pub fn add(mem: &mut [u64], n: usize, list: usize, size: usize, posn: usize, p: usize)
    requires { (p < n) × Lies n list size posn (length mem.old) }
    ensures { Added mem.old mem.new n list size posn p }
{
    if has(mem, n, list, size, posn, p) {
        return;
    }
    let z = count(mem, n, size);
    if n <= z {
        return;
    }
    mem[list + z] = p as u64;
    mem[posn + 68 * p] = z as u64;
    mem[size] = (z + 1) as u64;
}

// Place p is no member any more: the last member takes its position.
pub fn drop(mem: &mut [u64], n: usize, list: usize, size: usize, posn: usize, p: usize)
    requires { (p < n) × Lies n list size posn (length mem.old) }
    ensures { Dropped mem.old mem.new n list size posn p }
{
    let z = count(mem, n, size);
    let i = memory::place_at(mem, posn + 68 * p);
    if z <= i || at(mem, n, list, i) != p {
        return;
    }
    let q = at(mem, n, list, z - 1);
    mem[list + i] = q as u64;
    mem[posn + 68 * q] = i as u64;
    mem[size] = (z - 1) as u64;
}

// No place is a member.
pub fn clear(mem: &mut [u64], size: usize)
    requires { size < length mem.old }
    ensures { Stored mem.old mem.new size 0 }
{
    mem[size] = 0;
}
