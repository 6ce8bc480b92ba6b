// Linked values and what follows from them at other places (document 01, "Standing in the tree"): how many linked children a place has, which
// places are leaves, and the contest for the best.
#![tactic(auto)]

ghost use Rattle.std.specs.Prelude.{◌+◌, ◌*◌, ◌<◌, ◌≤◌, ◌≡◌};
ghost use Rattle.kin.specs.Kin.{Judged, Lowered, Raised, kin_of};
ghost use Rattle.kin.specs.Relinked.{Relinked};
ghost use Rattle.memory.specs.Layout.{Laid};

use values::Value;

// The place that p is a linked child of, or n.
fn kin_of(mem: &[u64], n: usize, p: usize) -> usize
    requires { Laid mem.now n × (p < n) }
    ensures { result ≡ kin_of mem.now n p }
{
    if mem[64 + 68 * p + 56] == 0 {
        return n;
    }
    let u = mem[64 + 68 * p + 67] as usize;
    if u < n {
        return u;
    }
    n
}

// Place u, if it is one, has a linked child less. (On a memory that no call left the number stays where it would wrap.)
fn lower(mem: &mut [u64], n: usize, u: usize)
    requires { Laid mem.old n }
    ensures { Lowered mem.old mem.new n u }
{
    if n <= u {
        return;
    }
    let k = mem[64 + 68 * u + 64];
    if k == 0 {
        return;
    }
    mem[64 + 68 * u + 64] = k - 1;
}

// .. has one more.
fn raise(mem: &mut [u64], n: usize, u: usize)
    requires { Laid mem.old n }
    ensures { Raised mem.old mem.new n u }
{
    if n <= u {
        return;
    }
    let k = mem[64 + 68 * u + 64];
    if k == 18446744073709551615 {
        return;
    }
    mem[64 + 68 * u + 64] = k + 1;
}

// Place x, if it is one, is listed exactly if it is a leaf.
fn judge(mem: &mut [u64], n: usize, x: usize)
    requires { Laid mem.old n }
    ensures { Judged mem.old mem.new n x }
{
    if n <= x {
        return;
    }
    if mem[64 + 68 * x + 56] == 0 {
        roster::drop(mem, n, 64 + 79 * n, 14, 130, x);
        return;
    }
    if mem[64 + 68 * x + 64] != 0 {
        roster::drop(mem, n, 64 + 79 * n, 14, 130, x);
        return;
    }
    roster::add(mem, n, 64 + 79 * n, 14, 130, x);
}

// Place p gets the linked value v, with its parent at place q, if that is one.
pub fn relink(mem: &mut [u64], n: usize, p: usize, q: usize, v: Value)
    requires { Laid mem.old n × (p < n) }
    ensures { Relinked mem.old mem.new n p q v }
{
    let was = kin_of(mem, n, p);
    lower(mem, n, was);
    values::write(mem, 64 + 68 * p + 56, v);
    mem[64 + 68 * p + 67] = q as u64;
    let is = kin_of(mem, n, p);
    raise(mem, n, is);
    judge(mem, n, was);
    judge(mem, n, is);
    judge(mem, n, p);
    contest::update(mem, n, 0, p);
}
