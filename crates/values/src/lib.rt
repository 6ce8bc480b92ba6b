// The linked value of a place, as words of its row (document 01, "Standing in the tree"): read, written, compared.
#![tactic(auto)]

ghost use Rattle.std.specs.Bool.{beq};
ghost use Rattle.std.specs.Prelude.{◌&&◌, ◌≡◌, ◌+◌, ◌≤◌, eqb, length};
ghost use Rattle.amount.specs.Choose.{◌if◌else◌};
ghost use Rattle.amount.specs.Value.{value};
ghost use Rattle.memory.specs.Words.{seg};
ghost use Rattle.model.specs.Relink.{same as same_value};
ghost use Rattle.rows.specs.Rows.{value_of};
ghost use Rattle.values.specs.Values.{Written, value_means};

use amount::{Amount, Order};

// A linked value: none, or the work and whether the proofs are ok.
#[derive(Clone, Copy)]
pub enum Value {
    None,
    Linked(Amount, bool),
}

// The value whose three words begin at `at`.
pub fn read(mem: &[u64], at: usize) -> Value
    requires { at + 3 ≤ length mem.now }
    ensures { value_means result ≡ value_of (seg mem.now at 3) }
{
    let kind = mem[at];
    if kind == 0 {
        return Value::None;
    }
    let work = amount::from_words(mem[at + 1], mem[at + 2]);
    Value::Linked(work, kind == 2)
}

fn kind_of(ok: bool) -> u64
    ensures { result ≡ (2 if ok else 1) }
{
    if ok {
        return 2;
    }
    1
}

pub fn write(mem: &mut [u64], at: usize, v: Value)
    requires { at + 3 ≤ length mem.old }
    ensures { Written mem.old mem.new at v }
{
    match v {
        Value::None => {
            mem[at] = 0;
            return;
        }
        Value::Linked(work, ok) => {
            let words = amount::to_words(work);
            mem[at] = kind_of(ok);
            mem[at + 1] = words.first;
            mem[at + 2] = words.second;
            return;
        }
    }
}

fn alike(s: bool, t: bool) -> bool
    ensures { result ≡ beq s t }
{
    if s {
        return t;
    }
    !t
}

fn same_work(x: Amount, s: bool, y: Amount, t: bool) -> bool
    ensures { result ≡ (eqb (value x) (value y) && beq s t) }
{
    match amount::compare(x, y) {
        Order::Less => {
            return false;
        }
        Order::Equal => {
            return alike(s, t);
        }
        Order::Greater => {
            return false;
        }
    }
}

pub fn same(a: Value, b: Value) -> bool
    ensures { result ≡ same_value (value_means a) (value_means b) }
{
    match a {
        Value::None => match b {
            Value::None => {
                return true;
            }
            Value::Linked(_, _) => {
                return false;
            }
        },
        Value::Linked(x, s) => match b {
            Value::None => {
                return false;
            }
            Value::Linked(y, t) => {
                return same_work(x, s, y, t);
            }
        },
    }
}
