// The two sides of Adopt (document 01, "The two plans"): what is gathered down a walk, and the chains that are compared. A walk goes down through parents, while an
// extension is told from its bottom up: a block that does not pass drops what was gathered above it.
#![tactic(auto)]

ghost use Rattle.std.specs.Prelude.{not, ◌&&◌, ◌||◌, true, List, ◌≡◌, ℕ, ◌<◌};
ghost use Rattle.amount.specs.Choose.{◌if◌else◌};
ghost use Rattle.amount.specs.Value.{value};
ghost use Rattle.block.specs.Answers.{side_means};
ghost use Rattle.memory.specs.Layout.{Laid};
ghost use Rattle.model.specs.Adopt.{ours, peers};
ghost use Rattle.model.specs.Standing.{canonical, work_of};
ghost use Rattle.model.specs.Walks.{Asked, below, cell_covers, cell_meets};
ghost use Rattle.values.specs.Values.{spine_of, value_means};
ghost use Rattle.state.specs.Sound.{SoundAt, Used};
ghost use Rattle.state.specs.View.{cells_of, view_at, values_of};
ghost use Rattle.sides.specs.Gathered.{Passes, top_of};
ghost use Rattle.sides.specs.Sides.{Above, Peer, our_front, side_over};

use amount::Amount;
use block::{Side, Work};
use values::Value;

// What is gathered of the blocks passed, bottom first: the lowest of all; and of their longest front that passes the top, the length, and whether
// all of it meets target. A place of n is none.
#[derive(Clone, Copy)]
pub struct Front {
    pub bottom: usize,
    pub top: usize,
    pub length: usize,
    pub meets: bool,
}

// The extension of a leaf: its ancestor, a number from n on where there is none, and its safe front.
#[derive(Clone, Copy)]
pub struct Extension {
    pub ancestor: usize,
    pub front: Front,
}

// Whether the block at p meets its target.
pub fn meets_at(mem: &[u64], n: usize, p: usize) -> bool
    requires { Laid mem.now n × (p < n) }
    ensures { Used mem.now p → result ≡ cell_meets (cells_of mem.now n p) }
{
    let header = rows::read_header(mem, 64 + 68 * p + 4);
    let target = header.target;
    let actual = header.actual;
    standing::meets(target, actual)
}

// Whether the block at p may stand in a safe front: it covers, or local does not.
pub fn safe_at(mem: &[u64], n: usize, p: usize, blocks: u64, covered: bool) -> bool
    requires { Laid mem.now n × (p < n) }
    ensures { Used mem.now p → result ≡ (not covered || cell_covers blocks (cells_of mem.now n p)) }
{
    !covered || choice::covers(mem[64 + 68 * p + 12], mem[64 + 68 * p + 13], blocks)
}

// One more block below those passed.
pub fn pass(e: Front, n: usize, q: usize, safe: bool, meets: bool) -> Front
    requires { e.length < 32768 }
    ensures { Passes n q safe meets e result }
{
    if !safe {
        return Front {
            bottom: q,
            top: n,
            length: 0,
            meets: true,
        };
    }
    if e.length == 0 {
        return Front {
            bottom: q,
            top: q,
            length: 1,
            meets: meets && e.meets,
        };
    }
    Front {
        bottom: q,
        top: e.top,
        length: e.length + 1,
        meets: meets && e.meets,
    }
}

// The last block of our walk above the block f, from below up, before one misses its target; a number from n on where the first misses or there is
// none. (Counted, so that it ends on any memory.)
fn walked_tip(mem: &[u64], n: usize, local: usize, f: usize) -> usize
    requires { Laid mem.now n × (local < n) × (f < n) }
    ensures { SoundAt mem.now n → Used mem.now local → Used mem.now f → (a : Asked) → a.holdings ≡ (view_at mem.now n).holdings → result ≡ top_of n (our_front a local f) }
{
    let low = mem[64 + 68 * f + 12];
    let mut q = local;
    let mut front = Front {
        bottom: n,
        top: n,
        length: 0,
        meets: true,
    };
    for _ in 0..n {
        if mem[64 + 68 * q + 12] <= low {
            return front.top;
        }
        let meets = meets_at(mem, n, q);
        front = pass(front, n, q, meets, meets);
        q = standing::parent(mem, n, q);
        if n <= q {
            return front.top;
        }
    }
    front.top
}

// The same, by local's canonical linked value: if its proofs are ok then no block of its walk above index 0 misses, so the tip is local itself
// and there is nothing to walk.
fn our_tip(mem: &[u64], n: usize, local: usize, f: usize) -> usize
    requires { Laid mem.now n × (local < n) × (f < n) }
    ensures { SoundAt mem.now n → Used mem.now local → Used mem.now f → (a : Asked) → a.holdings ≡ (view_at mem.now n).holdings → a.values ≡ (view_at mem.now n).values → Above a canonical local f → result ≡ top_of n (our_front a local f) }
{
    if !deciding::proven_at(mem, n, local) {
        return walked_tip(mem, n, local, f);
    }
    if mem[64 + 68 * local + 12] <= mem[64 + 68 * f + 12] {
        return n;
    }
    local
}

fn work_of(v: Value) -> Amount
    ensures { value result ≡ work_of (value_means v) }
{
    match v {
        Value::None => {
            return amount::zero();
        }
        Value::Linked(work, _) => {
            return work;
        }
    }
}

// The linked work at p, the canonical one or the other; 0 where there is none.
fn work_at(mem: &[u64], n: usize, p: usize, canonical: bool) -> Amount
    requires { Laid mem.now n × (p < n) }
    ensures { value result ≡ work_of (values_of mem.now n (spine_of canonical) p) }
{
    if canonical {
        return work_of(values::read(mem, 64 + 68 * p + 60));
    }
    work_of(values::read(mem, 64 + 68 * p + 56))
}

// The side whose tip stands at `tip`: its work above the block f, the difference of two linked works, if it is known.
fn side_at(mem: &[u64], n: usize, tip: usize, f: usize, canonical: bool, sure: bool) -> Side
    requires { Laid mem.now n × (tip < n) × (f < n) }
    ensures { Used mem.now tip → side_means result ≡ side_over (cells_of mem.now n tip) (values_of mem.now n (spine_of canonical) tip) (values_of mem.now n (spine_of canonical) f) sure }
{
    let header = rows::read_header(mem, 64 + 68 * tip + 4);
    let index = header.index;
    let hash = header.hash;
    if !sure {
        return Side {
            work: Work::Unknown,
            index,
            hash,
        };
    }
    let high = work_at(mem, n, tip, canonical);
    let low = work_at(mem, n, f, canonical);
    Side {
        work: Work::Known(amount::sub(high, low)),
        index,
        hash,
    }
}

// Our side: our walk above the ancestor f, until a block misses its target; unknown, with local's tip, where there is none.
pub fn our_side(mem: &[u64], n: usize, local: usize, f: usize) -> Side
    requires { Laid mem.now n × (local < n) × (f < n) }
    ensures { SoundAt mem.now n → Used mem.now local → Used mem.now f → (a : Asked) → a.holdings ≡ (view_at mem.now n).holdings → a.values ≡ (view_at mem.now n).values → Above a canonical local f → side_means result ≡ ours a local f }
{
    let tip = our_tip(mem, n, local, f);
    if n <= tip {
        return side_at(mem, n, local, f, true, false);
    }
    side_at(mem, n, tip, f, true, true)
}

// The peer's side: the safe front with its top, above the ancestor f, unknown if any block in it misses.
pub fn peer_side(mem: &[u64], n: usize, top: usize, f: usize, meets: bool) -> Side
    requires { Laid mem.now n × (top < n) × (f < n) }
    ensures { (a : Asked) → a.holdings ≡ (view_at mem.now n).holdings → a.values ≡ (view_at mem.now n).values → (leaf local p : ℕ) → (l : List ℕ) → Used mem.now leaf → Peer a leaf local f top meets p l → side_means result ≡ peers a p l }
{
    side_at(mem, n, top, f, false, meets)
}
