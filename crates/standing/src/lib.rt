// The value of one place (document 01, "Standing in the tree"): parent, meets target, linked and canonical linked. The two linked values are one
// rule over two spines; `canonical` says which is meant.
#![tactic(auto)]

ghost use Rattle.std.specs.Prelude.{◌&&◌, ◌≡◌, suc, ◌+◌, ◌*◌, ◌<◌, eqb, ltb, leb};
ghost use Rattle.amount.specs.Choose.{◌if◌else◌};
ghost use Rattle.amount.specs.Value.{meant, value};
ghost use Rattle.memory.specs.Layout.{Laid, row};
ghost use Rattle.model.specs.Holding.{has_room, place_of};
ghost use Rattle.model.specs.Record.{Header as Headed};
ghost use Rattle.model.specs.Relink.{work_out};
ghost use Rattle.model.specs.Standing as model;
ghost use Rattle.model.specs.Standing.{meets_target, on_actual, on_parent, parent as parent_of, value_at};
ghost use Rattle.rows.specs.Rows.{header_at};
ghost use Rattle.values.specs.Values.{spine_of, value_means};
ghost use Rattle.standing.specs.Work.{may_stand};
ghost use Rattle.state.specs.Sound.{SoundAt, placed};
ghost use Rattle.state.specs.View.{cells_of, values_of, view_at};

use amount::{Amount, Order, Reading, Sum};
use values::Value;

// ---- a value in three words: its kind (0 none, 1 linked, 2 proofs ok), two words of work ----

// ---- whether a value changed ----

// ---- parent ----

// The index j is one less than i; index 0 has none below it.
fn one_less(j: u64, i: u64) -> bool
    ensures { result ≡ eqb (suc j) i }
{
    if i == 0 {
        return false;
    }
    i - 1 == j
}

// Whether the place u, which may be any number, has room for the previous hash of the block at p.
fn has_named(mem: &[u64], n: usize, p: usize, u: usize) -> bool
    requires { Laid mem.now n × (p < n) }
    ensures { result ≡ has_room (header_at mem.now (row p + 4)).prev (cells_of mem.now n u) }
{
    if n <= u {
        return false;
    }
    let up = 64 + 68 * u;
    if mem[up] != 1 {
        return false;
    }
    let at = 64 + 68 * p;
    memory::same_four(
        mem,
        up + 4,
        mem[at + 8],
        mem[at + 9],
        mem[at + 10],
        mem[at + 11],
    )
}

// The place of the previous hash of the block at p, or a number from n on. Word 67 of the row says where the parent stood when p was last worked
// out: a hash has one place, so where that place still has it there is nothing to look up.
fn named(mem: &[u64], n: usize, p: usize) -> usize
    requires { Laid mem.now n × (p < n) }
    ensures { SoundAt mem.now n → place_of (view_at mem.now n).holdings (header_at mem.now (row p + 4)).prev ≡ placed n result }
{
    let at = 64 + 68 * p;
    let u = mem[at + 67] as usize;
    if has_named(mem, n, p, u) {
        return u;
    }
    state::find(mem, n, mem[at + 8], mem[at + 9], mem[at + 10], mem[at + 11])
}

// The place of the parent, or a number from n on.
pub fn parent(mem: &[u64], n: usize, p: usize) -> usize
    requires { Laid mem.now n × (p < n) }
    ensures { SoundAt mem.now n → parent_of (view_at mem.now n).holdings p ≡ placed n result }
{
    let at = 64 + 68 * p;
    if mem[at] != 1 {
        return n;
    }
    let q = named(mem, n, p);
    if n <= q {
        return n;
    }
    if !one_less(mem[64 + 68 * q + 12], mem[at + 12]) {
        return n;
    }
    if !places::live(mem, n, q) {
        return n;
    }
    q
}

// ---- meets target ----

fn reaches(t: Amount, a: Amount) -> bool
    ensures { result ≡ (ltb 0 (value t) && leb (value t) (value a)) }
{
    match amount::compare(amount::zero(), t) {
        Order::Less => match amount::compare(t, a) {
            Order::Less => {
                return true;
            }
            Order::Equal => {
                return true;
            }
            Order::Greater => {
                return false;
            }
        },
        Order::Equal => {
            return false;
        }
        Order::Greater => {
            return false;
        }
    }
}

// Both amounts readable, target above 0, actual at least target.
pub fn meets(target: Reading, actual: Reading) -> bool
    ensures { result ≡ model.meets (meant target) (meant actual) }
{
    match target {
        Reading::Unreadable => match actual {
            Reading::Unreadable => {
                return false;
            }
            Reading::Readable(_) => {
                return false;
            }
        },
        Reading::Readable(t) => match actual {
            Reading::Unreadable => {
                return false;
            }
            Reading::Readable(a) => {
                return reaches(t, a);
            }
        },
    }
}

// ---- linked, and canonical linked ----

// Above index 0: the work is the parent's and the actual, and proofs are ok if the parent's are and it meets target.
fn on_parent(met: bool, actual: Amount, below: Value) -> Value
    ensures { (b : Headed) → meets_target b ≡ met → value_means result ≡ on_parent b (value actual) (value_means below) }
{
    match below {
        Value::None => {
            return Value::None;
        }
        Value::Linked(work, ok) => match amount::add(work, actual) {
            Sum::TooLarge => return Value::None,
            Sum::Fits(sum) => {
                return Value::Linked(sum, ok && met);
            }
        },
    }
}

// At index 0 the work is the actual and proofs are ok; `below` is the parent's value, none if there is no parent.
fn on_actual(index: u64, met: bool, actual: Reading, below: Value) -> Value
    ensures { (b : Headed) → b.index ≡ index → meets_target b ≡ met → value_means result ≡ on_actual b (value_means below) (meant actual) }
{
    match actual {
        Reading::Unreadable => {
            return Value::None;
        }
        Reading::Readable(a) => {
            if index == 0 {
                return Value::Linked(a, true);
            }
            return on_parent(met, a, below);
        }
    }
}

// Live and not ineligible; or, among canonical blocks only, canonical.
fn may(mem: &[u64], n: usize, p: usize, canonical: bool) -> bool
    requires { Laid mem.now n × (p < n) }
    ensures { result ≡ may_stand (spine_of canonical) (cells_of mem.now n p) }
{
    if canonical {
        return places::canonical(mem, n, p);
    }
    if !places::live(mem, n, p) {
        return false;
    }
    mem[64 + 68 * p + 1] < 2
}

// The value that stands at the place q, none for a number from n on.
fn below_at(mem: &[u64], n: usize, q: usize, canonical: bool) -> Value
    requires { Laid mem.now n }
    ensures { value_means result ≡ value_at (values_of mem.now n (spine_of canonical)) (placed n q) }
{
    if n <= q {
        return Value::None;
    }
    if canonical {
        return values::read(mem, 64 + 68 * q + 60);
    }
    values::read(mem, 64 + 68 * q + 56)
}

// The value of the place p by the values that stand, where q is the place of its parent.
pub fn work_out(mem: &[u64], n: usize, p: usize, q: usize, canonical: bool) -> Value
    requires { Laid mem.now n × (p < n) }
    ensures { SoundAt mem.now n → parent_of (view_at mem.now n).holdings p ≡ placed n q → value_means result ≡ work_out (view_at mem.now n).holdings (values_of mem.now n) (spine_of canonical) p }
{
    if !may(mem, n, p, canonical) {
        return Value::None;
    }
    let header = rows::read_header(mem, 64 + 68 * p + 4);
    let below = below_at(mem, n, q, canonical);
    let target = header.target;
    let actual = header.actual;
    let met = meets(target, actual);
    on_actual(header.index, met, actual, below)
}
