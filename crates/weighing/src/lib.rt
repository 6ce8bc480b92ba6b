// Whether Select goes on (document 01, "The two plans"): the two chains as sides, the floor, and the comparison.
#![tactic(auto)]

ghost use Rattle.std.specs.Prelude.{◌&&◌, ◌||◌, not, true, ◌≡◌, ◌+◌, ◌<◌};
ghost use Rattle.memory.specs.Layout.{Laid};
ghost use Rattle.model.specs.Places.{is_some};
ghost use Rattle.block.specs.Answers.{side_means, work_means};
ghost use Rattle.model.specs.Lists.{any};
ghost use Rattle.model.specs.Select.{aside, goes_on, held_back, on, scored as scored_by, side_of};
ghost use Rattle.model.specs.Walks as model;
ghost use Rattle.model.specs.Walks.{Asked};
ghost use Rattle.values.specs.Values.{spine_of, value_means};
ghost use Rattle.state.specs.Sound.{Used};
ghost use Rattle.state.specs.View.{view_at};
ghost use Rattle.walks.specs.Asking.{Asks, floor_means};

use block::{Side, Work};
use values::Value;
use walks::Floor;

// The work of a side: known exactly if its proofs are ok.
fn scored(v: Value) -> Work
    ensures { work_means result ≡ scored_by (value_means v) }
{
    match v {
        Value::None => {
            return Work::Unknown;
        }
        Value::Linked(work, ok) => {
            if ok {
                return Work::Known(work);
            }
            return Work::Unknown;
        }
    }
}

// The chain that ends there, by its canonical linked value or by its linked one.
fn side(mem: &[u64], n: usize, p: usize, canonical: bool) -> Side
    requires { Laid mem.now n × (p < n) }
    ensures { Used mem.now p → (a : Asked) → a.holdings ≡ (view_at mem.now n).holdings → a.values ≡ (view_at mem.now n).values → side_means result ≡ side_of a (spine_of canonical) p }
{
    let at = 64 + 68 * p;
    let h = rows::read_header(mem, at + 4);
    let index = h.index;
    let hash = h.hash;
    if canonical {
        return Side {
            work: scored(values::read(mem, at + 60)),
            index,
            hash,
        };
    }
    Side {
        work: scored(values::read(mem, at + 56)),
        index,
        hash,
    }
}

// A floor is given and either the fork is below both it and local, or a block aside is off best's walk.
fn floor_holds(floor: Floor, fork: u64, local: u64, stray: bool) -> bool
    ensures { result ≡ (is_some (floor_means floor) && (model.below (floor_means floor) fork local || stray)) }
{
    match floor {
        Floor::None => {
            return false;
        }
        Floor::At(i) => {
            if stray {
                return true;
            }
            return walks::below(Floor::At(i), fork, local);
        }
    }
}

// `stray` tells whether a block aside is off best's walk.
pub fn held_back(
    mem: &[u64],
    n: usize,
    top: usize,
    local: usize,
    f: usize,
    floor: Floor,
    per_epoch: u64,
    stray: bool,
) -> bool
    requires { Laid mem.now n × (top < n) × (local < n) × (f < n) }
    ensures { Used mem.now top → Used mem.now local → Used mem.now f → (a : Asked) → Asks a mem.now n (floor_means floor) per_epoch → any (λ p. not (on a top p)) (aside a local) ≡ stray → result ≡ held_back a top local f }
{
    if !deciding::proven_at(mem, n, local) {
        return false;
    }
    if floor_holds(
        floor,
        mem[64 + 68 * f + 12],
        mem[64 + 68 * local + 12],
        stray,
    ) {
        return true;
    }
    if !deciding::covers_at(mem, n, local, per_epoch) {
        return false;
    }
    !deciding::covers_at(mem, n, top, per_epoch)
}

// Best is adopted, or the fork is local and all aside are on best's walk.
pub fn goes_on(mem: &[u64], n: usize, top: usize, local: usize, f: usize, stray: bool) -> bool
    requires { Laid mem.now n × (top < n) × (local < n) }
    ensures { Used mem.now top → Used mem.now local → (a : Asked) → a.holdings ≡ (view_at mem.now n).holdings → a.values ≡ (view_at mem.now n).values → any (λ p. not (on a top p)) (aside a local) ≡ stray → result ≡ goes_on a top local f }
{
    let ours = side(mem, n, local, true);
    let theirs = side(mem, n, top, false);
    if deciding::adopted(choice::choose(ours, theirs)) {
        return true;
    }
    if f != local {
        return false;
    }
    !stray
}
