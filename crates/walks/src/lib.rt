// Walks through parents (document 01, "The two plans"): the fork of two walks, and a walk noted in the rows, so that a plan can go up it and ask
// of a block whether it is on it.
#![tactic(auto)]

ghost use Rattle.std.specs.Prelude.{◌≡◌, ◌<◌};
ghost use Rattle.memory.specs.Layout.{Laid};
ghost use Rattle.model.specs.Lists.{elem};
ghost use Rattle.model.specs.Walks as model;
ghost use Rattle.model.specs.Walks.{Asked, walk};
ghost use Rattle.state.specs.Sound.{SoundAt, Used, placed};
ghost use Rattle.state.specs.View.{view_at};
ghost use Rattle.walks.specs.Asking.{floor_means};
ghost use Rattle.walks.specs.Walked.{LineOnly, Lined};

// A floor that a plan may be given.
#[derive(Clone, Copy)]
pub enum Floor {
    None,
    At(u64),
}

// ---- the floor ----

// Whether a floor is given and the index is at or below it.
pub fn under(floor: Floor, index: u64) -> bool
    ensures { result ≡ model.under (floor_means floor) index }
{
    match floor {
        Floor::None => {
            return false;
        }
        Floor::At(f) => {
            return index <= f;
        }
    }
}

// Whether a floor is given and the block is below both it and local.
pub fn below(floor: Floor, index: u64, local: u64) -> bool
    ensures { result ≡ model.below (floor_means floor) index local }
{
    match floor {
        Floor::None => {
            return false;
        }
        Floor::At(f) => {
            if index < f {
                return index < local;
            }
            return false;
        }
    }
}

// ---- walks ----

// The fork of two blocks, the highest common block of their walks; a number from n on where there is none. Steps down on the side that is higher,
// on p's where they are level and differ. (Counted, so that it ends on any memory: two walks have no more than 2 * n blocks.)
pub fn fork(mem: &[u64], n: usize, p: usize, q: usize) -> usize
    requires { Laid mem.now n × (p < n) × (q < n) }
    ensures { SoundAt mem.now n → (a : Asked) → a.holdings ≡ (view_at mem.now n).holdings → Used mem.now p → Used mem.now q → model.fork a p q ≡ placed n result }
{
    let mut x = p;
    let mut y = q;
    for _ in 0..2 * n {
        if x == y {
            return x;
        }
        if mem[64 + 68 * x + 12] < mem[64 + 68 * y + 12] {
            y = standing::parent(mem, n, y);
            if n <= y {
                return n;
            }
        } else {
            x = standing::parent(mem, n, x);
            if n <= x {
                return n;
            }
        }
    }
    n
}

// Notes the walk from `top`, and tells its length. (Counted, so that it ends on any memory: a walk has no more than n blocks.)
pub fn line(mem: &mut [u64], n: usize, top: usize) -> usize
    requires { Laid mem.old n × (top < n) }
    ensures only { LineOnly mem.old mem.new n }
    ensures right { SoundAt mem.old n → Used mem.old top → Lined mem.new n top result }
{
    let mut q = top;
    for k in 0..n {
        mem[64 + 68 * k + 65] = q as u64;
        q = standing::parent(mem, n, q);
        if n <= q {
            return k + 1;
        }
    }
    n
}

// Whether place q stands on the walk that is noted: it does exactly if it is the one noted at its distance from the top, as indexes fall by one
// at each step.
pub fn on_line(mem: &[u64], n: usize, top: usize, k: usize, q: usize) -> bool
    requires { Laid mem.now n × (top < n) × (q < n) }
    ensures { SoundAt mem.now n → Used mem.now q → Lined mem.now n top k → result ≡ elem q (walk (view_at mem.now n).holdings top) }
{
    let high = mem[64 + 68 * top + 12];
    let low = mem[64 + 68 * q + 12];
    if high < low {
        return false;
    }
    let d = (high - low) as usize;
    if k <= d {
        return false;
    }
    if n <= d {
        return false;
    }
    mem[64 + 68 * d + 65] == q as u64
}
