// The turns of a sync (document 01, "Standing in the tree"): places are worked out by the values that stand, lowest index first, until none is
// pending. All that the values decide, both bests, children and leaves, is kept in step inside the turn.
#![tactic(auto)]

ghost use Rattle.std.specs.Prelude.{◌+◌, ◌*◌, ◌<◌, ◌≤◌};
ghost use Rattle.memory.specs.Layout.{Laid};
ghost use Rattle.relink.specs.Gathers.{Gathers, Rebuilds, Resets, Wiped};
ghost use Rattle.relink.specs.Turned.{PutCanonical, PutWinner, Settles, Turned, WorksOut};

use journal::Had;
use values::Value;

// ---- a turn ----

// Stores the linked value of p, if it is another. Tells whether it was.
fn put_winner(mem: &mut [u64], n: usize, p: usize, q: usize, v: Value) -> bool
    requires { Laid mem.old n × (p < n) }
    ensures { PutWinner mem.old mem.new n p q v result }
{
    let old = values::read(mem, 64 + 68 * p + 56);
    if values::same(old, v) {
        return false;
    }
    kin::relink(mem, n, p, q, v);
    true
}

// .. its canonical linked value.
fn put_canonical(mem: &mut [u64], n: usize, p: usize, v: Value) -> bool
    requires { Laid mem.old n × (p < n) }
    ensures { PutCanonical mem.old mem.new n p v result }
{
    let old = values::read(mem, 64 + 68 * p + 60);
    if values::same(old, v) {
        return false;
    }
    values::write(mem, 64 + 68 * p + 60, v);
    contest::update(mem, n, 1, p);
    true
}

// Works both values of p out. Tells whether one changed.
fn work_out(mem: &mut [u64], n: usize, p: usize) -> bool
    requires { Laid mem.old n × (p < n) }
    ensures { WorksOut mem.old mem.new n p result }
{
    let q = standing::parent(mem, n, p);
    let a = standing::work_out(mem, n, p, q, false);
    let b = standing::work_out(mem, n, p, q, true);
    let moved = put_winner(mem, n, p, q, a);
    let shifted = put_canonical(mem, n, p, b);
    moved || shifted
}

pub fn turn(mem: &mut [u64], n: usize, p: usize)
    requires { Laid mem.old n × (p < n) }
    ensures { Turned mem.old mem.new n p }
{
    pending::drop(mem, n, p);
    if work_out(mem, n, p) {
        pending::follow(mem, n, p);
    }
}

// ---- all turns ----

// Turns, until no place is pending. (The count is more than a memory that calls left can take, and ends the loop on any other; a first place that is not
// pending, which only such a memory has, ends it at once: it would come up again at every turn.)
pub fn settle(mem: &mut [u64], n: usize)
    requires { Laid mem.old n }
    ensures { Settles mem.old mem.new n }
{
    for _ in 0..n * n + n {
        let p = pending::first(mem, n);
        if n <= p || mem[64 + 68 * p + 59] == 0 {
            return;
        }
        turn(mem, n, p);
    }
}

// ---- what is to be worked out ----

// No row says that it has a value or children.
fn wipe(mem: &mut [u64], n: usize)
    requires { Laid mem.old n }
    ensures { Wiped mem.old mem.new n }
{
    for p in 0..n {
        mem[64 + 68 * p + 56] = 0;
        mem[64 + 68 * p + 60] = 0;
        mem[64 + 68 * p + 64] = 0;
    }
}

// There are no values, and so no leaf and no best.
fn reset(mem: &mut [u64], n: usize)
    requires { Laid mem.old n }
    ensures { Resets mem.old mem.new n }
{
    wipe(mem, n);
    roster::clear(mem, 14);
    contest::clear(mem, n, 0);
    contest::clear(mem, n, 1);
}

// Every live block is pending, and there are no values.
fn rebuild(mem: &mut [u64], n: usize)
    requires { Laid mem.old n }
    ensures { Rebuilds mem.old mem.new n }
{
    reset(mem, n);
    pending::add_live(mem, n);
}

// The hashes changed since the last sync are pending; where that is not to be had, all is built again.
pub fn gather(mem: &mut [u64], n: usize)
    requires { Laid mem.old n }
    ensures { Gathers mem.old mem.new n }
{
    if mem[8] == 0 {
        rebuild(mem, n);
        return;
    }
    let v = mem[10];
    match journal::changes_had(mem, n, mem[9], v) {
        Had::None => rebuild(mem, n),
        Had::Count(_) => pending::add_changed(mem, n, v),
    }
}
