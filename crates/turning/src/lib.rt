// Passes and climbs of Select (document 01, "The two plans"): what they make of the codes of places.
#![tactic(auto)]

ghost use Rattle.std.specs.Prelude.{not, true, ◌≡◌, ◌+◌, ◌<◌, eqb};
ghost use Rattle.std.proofs.Math.Option.{some};
ghost use Rattle.memory.specs.Layout.{Laid, row};
ghost use Rattle.memory.specs.Words.{word};
ghost use Rattle.model.specs.Holding.{is_live};
ghost use Rattle.model.specs.Places.{first, is_some, put_at};
ghost use Rattle.model.specs.Lists.{any};
ghost use Rattle.model.specs.Select.{aside, on};
ghost use Rattle.turning.specs.Turned.{Climbs, TurnsAll, climbed as climbed_to, off_code, turned as turned_to};
ghost use Rattle.turning.specs.declared.Turn.TheVariants.{Near, Off};
ghost use Rattle.state.specs.Sound.{SoundAt, Used};
ghost use Rattle.state.specs.View.{cells_of, view_at};
ghost use Rattle.walks.specs.Asking.{floor_means};
ghost use Rattle.walks.specs.Walked.{Lined};
ghost use Rattle.writing.specs.Steps.{Codes};

use walks::Floor;

// What a pass over all places looks for: canonical blocks off the walk that is noted, blocks aside that are on it, or all that are aside, for
// which a code is given.
#[derive(Clone, Copy)]
pub enum Turn {
    Off(Floor),
    Near,
    Into(u64),
}

fn off_code(floor: Floor, index: u64) -> u64
    ensures { result ≡ off_code (floor_means floor) index }
{
    if walks::under(floor, index) {
        return 8;
    }
    2
}

// The code of q, where canonical blocks off the walk that is noted are looked for ..
fn turn_off(mem: &[u64], n: usize, floor: Floor, top: usize, k: usize, q: usize) -> u64
    requires { Laid mem.now n × (top < n) × (q < n) }
    ensures { SoundAt mem.now n → Lined mem.now n top k → result ≡ turned_to (Off floor) (view_at mem.now n).holdings top q (word mem.now (row q + 59)) }
{
    let c = writing::code(mem, n, q);
    if !places::canonical(mem, n, q) {
        return c;
    }
    if walks::on_line(mem, n, top, k, q) {
        return c;
    }
    off_code(floor, mem[64 + 68 * q + 12])
}

// .. and where those aside are that are on it.
fn turn_near(mem: &[u64], n: usize, top: usize, k: usize, q: usize) -> u64
    requires { Laid mem.now n × (top < n) × (q < n) }
    ensures { SoundAt mem.now n → Lined mem.now n top k → ((word mem.now (row q + 59) ≡ 0 → ⊥) → Used mem.now q) → result ≡ turned_to Near (view_at mem.now n).holdings top q (word mem.now (row q + 59)) }
{
    let c = writing::code(mem, n, q);
    if c != 8 {
        return c;
    }
    if walks::on_line(mem, n, top, k, q) {
        return 0;
    }
    8
}

fn turned(mem: &[u64], n: usize, turn: Turn, top: usize, k: usize, q: usize) -> u64
    requires { Laid mem.now n × (top < n) × (q < n) }
    ensures { SoundAt mem.now n → Lined mem.now n top k → ((word mem.now (row q + 59) ≡ 0 → ⊥) → Used mem.now q) → result ≡ turned_to turn (view_at mem.now n).holdings top q (word mem.now (row q + 59)) }
{
    match turn {
        Turn::Off(floor) => turn_off(mem, n, floor, top, k, q),
        Turn::Near => turn_near(mem, n, top, k, q),
        Turn::Into(to) => {
            let c = writing::code(mem, n, q);
            if c == 8 { to } else { c }
        }
    }
}

// The code of p is c, 0 for none, whatever it was.
fn put(mem: &mut [u64], n: usize, p: usize, c: u64)
    requires { Laid mem.old n × (p < n) }
    ensures { Codes mem.old mem.new n ((c ≡ 0 → ⊥) → is_live (cells_of mem.old n p) ≡ true) (λ f. put_at f p c) }
{
    if writing::code(mem, n, p) == c {
        return;
    }
    if c == 0 {
        writing::unwrite(mem, n, p);
    } else {
        writing::write(mem, n, p, c);
    }
}

fn pass(mem: &mut [u64], n: usize, turn: Turn, top: usize, k: usize)
    requires { Laid mem.old n × (top < n) }
    ensures { Codes mem.old mem.new n (Lined mem.old n top k) (λ f q. turned_to turn (view_at mem.old n).holdings top q (f q)) }
{
    for i in 0..n {
        let c = turned(mem, n, turn, top, k, i);
        put(mem, n, i, c);
    }
}

// Whether some place has the code c.
pub fn has(mem: &[u64], n: usize, c: u64) -> bool
    requires { Laid mem.now n }
    ensures { result ≡ is_some (first (λ q. eqb (word mem.now (row q + 59)) c) n) }
{
    for i in 0..n {
        if writing::code(mem, n, i) == c {
            return true;
        }
    }
    false
}

// The code of q, a block of the walk: promoted where it is not canonical by now, or demoted.
fn climbed(mem: &[u64], n: usize, up: bool, q: usize) -> u64
    requires { Laid mem.now n × (q < n) }
    ensures { result ≡ climbed_to up (view_at mem.now n).holdings q (word mem.now (row q + 59)) }
{
    if !up {
        return 3;
    }
    let c = writing::code(mem, n, q);
    if c == 2 {
        return 1;
    }
    if places::canonical(mem, n, q) {
        return c;
    }
    1
}

// The blocks of the walk from `top` above f. (Counted, so that it ends on any memory: a walk has no more than n blocks.)
pub fn climb(mem: &mut [u64], n: usize, up: bool, top: usize, f: usize)
    requires { Laid mem.old n × (top < n) × (f < n) }
    ensures { Climbs mem.old mem.new n up top f }
{
    let mut q = top;
    for _ in 0..n {
        if mem[64 + 68 * q + 12] <= mem[64 + 68 * f + 12] {
            return;
        }
        let c = climbed(mem, n, up, q);
        put(mem, n, q, c);
        q = standing::parent(mem, n, q);
        if n <= q {
            return;
        }
    }
}

// Notes the walk from `top` and passes over all places.
pub fn turn_all(mem: &mut [u64], n: usize, turn: Turn, top: usize)
    requires { Laid mem.old n × (top < n) }
    ensures { TurnsAll mem.old mem.new n turn top }
{
    let k = walks::line(mem, n, top);
    pass(mem, n, turn, top, k);
}
