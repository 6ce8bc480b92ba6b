// Extensions (document 01, "The two plans", Adopt): what is decided of one, over the lent memory and in the model's terms.
#![tactic(auto)]

ghost use Rattle.std.specs.Prelude.{◌&&◌, true, ◌≡◌, ◌≤◌, ◌<◌, eqb};
ghost use Rattle.amount.specs.Choose.{◌if◌else◌};
ghost use Rattle.block.specs.Answers.{choice_means};
ghost use Rattle.memory.specs.Layout.{Laid};
ghost use Rattle.model.specs.Adopt.{is_stale, ours};
ghost use Rattle.model.specs.Holding.{index_of, is_live};
ghost use Rattle.model.specs.Standing.{canonical, proofs_ok};
ghost use Rattle.model.specs.Walks.{below};
ghost use Rattle.state.specs.Sound.{SoundAt, Used, placed};
ghost use Rattle.state.specs.View.{cells_of, view_at, values_of};
ghost use Rattle.walks.specs.Asking.{floor_means};
ghost use Rattle.writing.specs.Steps.{Codes};
ghost use Rattle.extending.specs.Accepting.{Compares, Ends, accepted_to, level_from, orphan_code, promote_code, refused_to, rival_code, written_above};
ghost use Rattle.extending.specs.Judged.{Judges};
ghost use Rattle.extending.specs.Orphans.{staled};

use block::{Choice, Reason};
use sides::Extension;
use walks::Floor;

const MAX: u64 = 0xffff_ffff_ffff_ffff;

// What is decided of an extension with a safe front: refused, or accepted for the comparison's reason.
#[derive(Clone, Copy)]
pub enum Judged {
    Refused,
    Accepted(Reason),
}

// ---- stale ----

// Whether a refused extension is stale: its bottom and two epochs, each step saturating at 64 bits, are no higher than local.
fn stale(bottom: u64, local: u64, blocks: u64) -> bool
    ensures { result ≡ is_stale blocks bottom local }
{
    if MAX / 2 < blocks {
        return MAX <= local;
    }
    if MAX - bottom < 2 * blocks {
        return MAX <= local;
    }
    bottom + 2 * blocks <= local
}

// ---- what is written ----

// A stale extension is orphaned whole: code 4 from the leaf down to its ancestor, over whatever was written there.
fn orphan_stale(mem: &mut [u64], n: usize, leaf: usize)
    requires { Laid mem.old n × (leaf < n) }
    ensures { Codes mem.old mem.new n (is_live (cells_of mem.old n leaf) ≡ true) (staled (view_at mem.old n).holdings leaf) }
{
    let mut q = leaf;
    for _ in 0..n {
        if places::canonical(mem, n, q) {
            return;
        }
        writing::write(mem, n, q, 4);
        q = standing::parent(mem, n, q);
        if n <= q {
            return;
        }
    }
}

// Of a block of our walk with index i, where s is the highest block of the safe front's walk that is no higher: 7 + s where it is as high, else 6.
fn rival_code(mem: &[u64], n: usize, s: usize, i: u64) -> u64
    requires { Laid mem.now n }
    ensures some { 1 ≤ result }
    ensures right { (s < n → is_live (cells_of mem.now n s) ≡ true) → result ≡ rival_code (view_at mem.now n).holdings i (placed n s) }
{
    if n <= s {
        return 6;
    }
    if mem[64 + 68 * s + 12] == i {
        return 7 + s as u64;
    }
    6
}

// The highest block of the walk from s that is no higher than i; a number from n on where there is none, as where s is one. (Counted, so that it
// ends on any memory.)
fn level(mem: &[u64], n: usize, s: usize, i: u64) -> usize
    requires { Laid mem.now n }
    ensures { SoundAt mem.now n → (s < n → is_live (cells_of mem.now n s) ≡ true) → level_from (view_at mem.now n).holdings i (placed n s) ≡ placed n result }
{
    let mut q = s;
    for _ in 0..n {
        if n <= q {
            return n;
        }
        if mem[64 + 68 * q + 12] <= i {
            return q;
        }
        q = standing::parent(mem, n, q);
    }
    n
}

// Our walk above the ancestor f is orphaned for the comparison's reason, with the safe block of equal index, if any, as competing hash. The walk of
// the safe front's top is gone down in step with it.
fn orphan_ours(mem: &mut [u64], n: usize, local: usize, f: usize, top: usize)
    requires { Laid mem.old n × (local < n) × (f < n) × (top < n) }
    ensures { Codes mem.old mem.new n (Ends mem.old n local f top) (written_above (view_at mem.old n).holdings f local (orphan_code (view_at mem.old n).holdings top)) }
{
    let low = mem[64 + 68 * f + 12];
    let mut q = local;
    let mut s = top;
    for _ in 0..n {
        let i = mem[64 + 68 * q + 12];
        if i <= low {
            return;
        }
        s = level(mem, n, s, i);
        let c = rival_code(mem, n, s, i);
        writing::write(mem, n, q, c);
        q = standing::parent(mem, n, q);
        if n <= q {
            return;
        }
    }
}

// What is written of a block that is promoted: 1, or 5 where it was orphaned as stale before.
fn promote_code(was: u64) -> u64
    ensures some { 1 ≤ result }
    ensures right { result ≡ (5 if eqb was 4 else 1) }
{
    if was == 4 {
        return 5;
    }
    1
}

// The safe front is promoted, from its top down to the ancestor f.
fn promote_front(mem: &mut [u64], n: usize, top: usize, f: usize)
    requires { Laid mem.old n × (top < n) × (f < n) }
    ensures { Codes mem.old mem.new n (Ends mem.old n top f top) (written_above (view_at mem.old n).holdings f top promote_code) }
{
    let low = mem[64 + 68 * f + 12];
    let mut q = top;
    for _ in 0..n {
        if mem[64 + 68 * q + 12] <= low {
            return;
        }
        let c = promote_code(writing::code(mem, n, q));
        writing::write(mem, n, q, c);
        q = standing::parent(mem, n, q);
        if n <= q {
            return;
        }
    }
}

// ---- the decision about one extension ----

// Whether the floor refuses an extension: one is given, local's proofs are ok, and the ancestor f is below both floor and local.
fn held_back(mem: &[u64], n: usize, local: usize, f: usize, floor: Floor) -> bool
    requires { Laid mem.now n × (local < n) × (f < n) }
    ensures { Used mem.now local → Used mem.now f → result ≡ (proofs_ok (values_of mem.now n canonical local) && below (floor_means floor) (index_of (cells_of mem.now n f)) (index_of (cells_of mem.now n local))) }
{
    deciding::proven_at(mem, n, local)
        && walks::below(floor, mem[64 + 68 * f + 12], mem[64 + 68 * local + 12])
}

// Our walk above the ancestor f against the safe front.
fn compare(mem: &[u64], n: usize, local: usize, f: usize, top: usize, meets: bool) -> Choice
    requires { Laid mem.now n × (local < n) × (f < n) × (top < n) }
    ensures { Compares mem.now n local f top meets (choice_means result) }
{
    let ours = sides::our_side(mem, n, local, f);
    let theirs = sides::peer_side(mem, n, top, f, meets);
    choice::choose(ours, theirs)
}

// An extension that is refused is orphaned whole if it is stale.
fn refuse(mem: &mut [u64], n: usize, local: usize, leaf: usize, bottom: usize, per_epoch: u64)
    requires { Laid mem.old n × (local < n) × (leaf < n) × (bottom < n) }
    ensures { Codes mem.old mem.new n (Ends mem.old n leaf bottom local) (refused_to (view_at mem.old n).holdings leaf (is_stale per_epoch (index_of (cells_of mem.old n bottom)) (index_of (cells_of mem.old n local)))) }
{
    let low = mem[64 + 68 * bottom + 12];
    let high = mem[64 + 68 * local + 12];
    if stale(low, high, per_epoch) {
        orphan_stale(mem, n, leaf);
    }
}

// Of one that is accepted, our walk above the ancestor f is orphaned, then the safe front is promoted.
fn accept(mem: &mut [u64], n: usize, local: usize, f: usize, top: usize)
    requires { Laid mem.old n × (local < n) × (f < n) × (top < n) }
    ensures { Codes mem.old mem.new n (Ends mem.old n local f top) (accepted_to (view_at mem.old n).holdings local f top) }
{
    orphan_ours(mem, n, local, f, top);
    promote_front(mem, n, top, f);
}

// The decision about an extension with a safe front. (What it tells of places is range-checked before it is used.)
pub fn judge(
    mem: &mut [u64],
    n: usize,
    local: usize,
    leaf: usize,
    e: Extension,
    floor: Floor,
    per_epoch: u64,
) -> Judged
    requires { Laid mem.old n × (local < n) × (leaf < n) }
    ensures { Judges mem.old mem.new n local leaf e (floor_means floor) per_epoch result }
{
    let f = e.ancestor;
    let front = e.front;
    let top = front.top;
    let bottom = front.bottom;
    if n <= f {
        return Judged::Refused;
    }
    if n <= top {
        return Judged::Refused;
    }
    if n <= bottom {
        return Judged::Refused;
    }
    if held_back(mem, n, local, f, floor) {
        refuse(mem, n, local, leaf, bottom, per_epoch);
        return Judged::Refused;
    }
    let c = compare(mem, n, local, f, top, front.meets);
    if !deciding::adopted(c) {
        refuse(mem, n, local, leaf, bottom, per_epoch);
        return Judged::Refused;
    }
    let reason = c.reason;
    accept(mem, n, local, f, top);
    Judged::Accepted(reason)
}
