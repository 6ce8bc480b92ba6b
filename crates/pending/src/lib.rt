// The places to be worked out by a sync (document 01, "Standing in the tree"): a contest by turn, which is the index of a live block and 0 for any
// other, then by hash.
#![tactic(auto)]

ghost use Rattle.std.specs.Prelude.{◌&&◌, ◌||◌, not, List, ◌≡◌, ℕ, ◌<◌, eqb};
ghost use Rattle.std.proofs.Math.Option.{some};
ghost use Rattle.journal.specs.Changes.{changes_of};
ghost use Rattle.journal.specs.Journal.{last_at, touched_at};
ghost use Rattle.memory.specs.Layout.{Laid};
ghost use Rattle.memory.specs.Words.{word};
ghost use Rattle.model.specs.Holding.{has_room, is_live};
ghost use Rattle.model.specs.Relink.{changed_in, follows, next, turn_of, Pending};
ghost use Rattle.pending.specs.Pending.{Pends, Turns};
ghost use Rattle.state.specs.Sound.{placed, SoundAt, Used};
ghost use Rattle.state.specs.View.{cells_of, view_at};

// The place whose turn is next, or a number from n on.
pub fn first(mem: &[u64], n: usize) -> usize
    requires { Laid mem.now n }
    ensures { SoundAt mem.now n → (pend : Pending) → Pends mem.now n pend → next (view_at mem.now n).holdings pend ≡ placed n result }
{
    contest::best(mem, n, 2)
}

// The turn of place p.
fn turn(mem: &[u64], n: usize, p: usize) -> u64
    requires { Laid mem.now n × (p < n) }
    ensures { result ≡ turn_of (cells_of mem.now n p) }
{
    if places::live(mem, n, p) {
        return mem[64 + 68 * p + 12];
    }
    0
}

// Place p becomes pending. Where it is so already its turn stands too, and no game of the contest would end otherwise.
pub fn add(mem: &mut [u64], n: usize, p: usize)
    requires { Laid mem.old n × (p < n) }
    ensures { Turns mem.old mem.new n (Used mem.old p) (λ pend q. pend q || eqb q p) }
{
    if mem[64 + 68 * p + 59] == 1 {
        return;
    }
    let t = turn(mem, n, p);
    mem[64 + 68 * p + 3] = t;
    mem[64 + 68 * p + 59] = 1;
    contest::update(mem, n, 2, p);
}

// Place p is pending no more.
pub fn drop(mem: &mut [u64], n: usize, p: usize)
    requires { Laid mem.old n × (p < n) }
    ensures { Turns mem.old mem.new n (Unit {0}) (λ pend q. pend q && not (eqb q p)) }
{
    mem[64 + 68 * p + 59] = 0;
    contest::update(mem, n, 2, p);
}

// A place becomes pending if its block is live.
fn add_if_live(mem: &mut [u64], n: usize, p: usize)
    requires { Laid mem.old n × (p < n) }
    ensures { Turns mem.old mem.new n (Unit {0}) (λ pend q. pend q || (eqb q p && is_live (cells_of mem.old n q))) }
{
    if places::live(mem, n, p) {
        add(mem, n, p);
    }
}

// Every live block whose previous hash names the block at p becomes pending. (A walk along the index by previous hash. Its steps have a
// name that only a wrong answer uses.)
pub fn follow(mem: &mut [u64], n: usize, p: usize)
    requires { Laid mem.old n × (p < n) }
    ensures { Turns mem.old mem.new n (Used mem.old p) (λ pend q. pend q || follows (cells_of mem.old n p) (cells_of mem.old n q)) }
{
    let h = memory::read_four(mem, 64 + 68 * p + 4);
    let mut x = index::find(mem, n, 64 + 71 * n, 72, false, h.a, h.b, h.c, h.d);
    for _step in 0..n {
        if n <= x {
            return;
        }
        add_if_live(mem, n, x);
        x = index::seek(
            mem,
            n,
            64 + 71 * n,
            72,
            false,
            64 + 71 * n + n + x,
            h.a,
            h.b,
            h.c,
            h.d,
        );
    }
}

// Every live block becomes pending.
pub fn add_live(mem: &mut [u64], n: usize)
    requires { Laid mem.old n }
    ensures { Turns mem.old mem.new n (Unit {0}) (λ pend q. pend q || is_live (cells_of mem.old n q)) }
{
    for p in 0..n {
        add_if_live(mem, n, p);
    }
}

// The hash of the journal's entry that i others followed becomes pending, if this is its last touch and it has room.
fn add_entry(mem: &mut [u64], n: usize, i: usize)
    requires { Laid mem.old n }
    ensures { Turns mem.old mem.new n (i < word mem.old 4) (λ pend q. pend q || (last_at mem.old n i && has_room (touched_at mem.old n i) (cells_of mem.old n q))) }
{
    if journal::is_last(mem, n, i) {
        let h = journal::entry_words(mem, n, i);
        let p = state::find(mem, n, h.a, h.b, h.c, h.d);
        if p < n {
            add(mem, n, p);
        }
    }
}

// The hashes touched since version v become pending, those that have room.
pub fn add_changed(mem: &mut [u64], n: usize, v: u64)
    requires { Laid mem.old n }
    ensures { (g : ℕ) (l : List ℕ) → Turns mem.old mem.new n (changes_of mem.old n g v ≡ some l) (λ pend q. pend q || changed_in l (cells_of mem.old n q)) }
{
    let k = journal::later(mem, n, v);
    for i in 0..k {
        add_entry(mem, n, i);
    }
}
