// The questions about the tree (document 01, "Numbers given back"): node, parent, linked, canonical linked, best, canonical best, canonical count, live
// count; leaves are in a crate of their own. Each answers from what the last sync kept, or 12 if a sync does not cover the present.
#![tactic(auto)]

ghost use Rattle.std.specs.Prelude.{◌≡◌};
ghost use Rattle.asking.specs.AskedTree.{AskedTree};
ghost use Rattle.asking.specs.Within.{Answers, Begins, Bests, Tips, Worths};
ghost use Rattle.block.specs.Answers.{counted_number, counted_reply, shown_number, shown_reply, tip_number, tip_reply, worth_number, worth_reply};
ghost use Rattle.block.specs.Records.{hash_means};
ghost use Rattle.memory.specs.Layout.{Laid};
ghost use Rattle.model.specs.Questions as questions;
ghost use Rattle.model.specs.Questions.{best_q, canonical_best_q, canonical_count_q, canonical_linked_q, linked_q, live_at, live_count_q, parent_q, shown as shown_block};
ghost use Rattle.model.specs.Standing.{value_at};
ghost use Rattle.values.specs.Values.{spine_of, value_means};
ghost use Rattle.state.specs.Sound.{placed};
ghost use Rattle.state.specs.View.{values_of, view_at};

use block::{Counted, Refusal, Shown, Tip, Worth};
use hash::Hash;
use values::Value;

// What a question begins with: it is refused, or it is answered at this room.
#[derive(Clone, Copy)]
pub enum Begun {
    No(Refusal),
    At(usize),
}

// (A memory that is not laid out is none that calls left.)
fn begin(mem: &[u64]) -> Begun
    ensures { Begins mem.now result }
{
    let n = memory::room(mem);
    if n == 0 {
        return Begun::No(Refusal::Room);
    }
    if mem[7] != 1 {
        return Begun::No(Refusal::Stale);
    }
    Begun::At(n)
}

// ---- node and parent ----

// The block at a place if it is live; none for a number from n on.
fn show_live(mem: &[u64], n: usize, p: usize) -> Shown
    requires { Laid mem.now n }
    ensures number { shown_number result ≡ 0 }
    ensures reply { shown_reply result ≡ shown_block (live_at (view_at mem.now n).holdings (placed n p)) }
{
    if n <= p {
        return Shown::None;
    }
    if places::live(mem, n, p) {
        return state::show(mem, n, p);
    }
    Shown::None
}

fn node_in(mem: &[u64], n: usize, h: Hash) -> Shown
    requires { Laid mem.now n }
    ensures { Answers (questions.node (hash_means h)) mem.now n (shown_number result) (shown_reply result) }
{
    let p = state::find(mem, n, h.first, h.second, h.third, h.fourth);
    show_live(mem, n, p)
}

pub fn node(mem: &[u64], h: Hash) -> Shown
    ensures { AskedTree (questions.node (hash_means h)) mem.now (shown_number result) (shown_reply result) }
{
    match begin(mem) {
        Begun::No(r) => {
            return Shown::Refused(r);
        }
        Begun::At(n) => {
            return node_in(mem, n, h);
        }
    }
}

// Only a live block has a parent to show.
fn parent_in(mem: &[u64], n: usize, h: Hash) -> Shown
    requires { Laid mem.now n }
    ensures { Answers (parent_q (hash_means h)) mem.now n (shown_number result) (shown_reply result) }
{
    let p = state::find(mem, n, h.first, h.second, h.third, h.fourth);
    if n <= p {
        return Shown::None;
    }
    if !places::live(mem, n, p) {
        return Shown::None;
    }
    let q = standing::parent(mem, n, p);
    show_live(mem, n, q)
}

pub fn parent(mem: &[u64], h: Hash) -> Shown
    ensures { AskedTree (parent_q (hash_means h)) mem.now (shown_number result) (shown_reply result) }
{
    match begin(mem) {
        Begun::No(r) => {
            return Shown::Refused(r);
        }
        Begun::At(n) => {
            return parent_in(mem, n, h);
        }
    }
}

// ---- linked and canonical linked ----

// The value that stands at a place, none for a number from n on.
fn value_at(mem: &[u64], n: usize, p: usize, canonical: bool) -> Value
    requires { Laid mem.now n }
    ensures { value_means result ≡ value_at (values_of mem.now n (spine_of canonical)) (placed n p) }
{
    if n <= p {
        return Value::None;
    }
    if canonical {
        return values::read(mem, 64 + 68 * p + 60);
    }
    values::read(mem, 64 + 68 * p + 56)
}

fn worth_in(mem: &[u64], n: usize, h: Hash, canonical: bool) -> Worth
    requires { Laid mem.now n }
    ensures { Worths (spine_of canonical) mem.now n (hash_means h) (worth_number result) (worth_reply result) }
{
    let p = state::find(mem, n, h.first, h.second, h.third, h.fourth);
    match value_at(mem, n, p, canonical) {
        Value::None => {
            return Worth::None;
        }
        Value::Linked(work, ok) => {
            return Worth::Linked(work, ok);
        }
    }
}

pub fn linked(mem: &[u64], h: Hash) -> Worth
    ensures { AskedTree (linked_q (hash_means h)) mem.now (worth_number result) (worth_reply result) }
{
    match begin(mem) {
        Begun::No(r) => {
            return Worth::Refused(r);
        }
        Begun::At(n) => {
            return worth_in(mem, n, h, false);
        }
    }
}

pub fn canonical_linked(mem: &[u64], h: Hash) -> Worth
    ensures { AskedTree (canonical_linked_q (hash_means h)) mem.now (worth_number result) (worth_reply result) }
{
    match begin(mem) {
        Begun::No(r) => {
            return Worth::Refused(r);
        }
        Begun::At(n) => {
            return worth_in(mem, n, h, true);
        }
    }
}

// ---- best and canonical best ----

// The block and the value at a place, none for a number from n on. (In a fresh tree a linked place shows its block.)
fn tip_at(mem: &[u64], n: usize, p: usize, canonical: bool) -> Tip
    requires { Laid mem.now n }
    ensures { Tips (spine_of canonical) mem.now n p (tip_number result) (tip_reply result) }
{
    match value_at(mem, n, p, canonical) {
        Value::None => {
            return Tip::None;
        }
        Value::Linked(work, ok) => match show_live(mem, n, p) {
            Shown::None => {
                return Tip::None;
            }
            Shown::Block(b) => {
                return Tip::Best(b, work, ok);
            }
            Shown::Refused(_) => {
                return Tip::None;
            }
        },
    }
}

fn best_in(mem: &[u64], n: usize, canonical: bool) -> Tip
    requires { Laid mem.now n }
    ensures { Bests (spine_of canonical) mem.now n (tip_number result) (tip_reply result) }
{
    if canonical {
        let p = contest::best(mem, n, 1);
        return tip_at(mem, n, p, true);
    }
    let p = contest::best(mem, n, 0);
    tip_at(mem, n, p, false)
}

pub fn best(mem: &[u64]) -> Tip
    ensures { AskedTree best_q mem.now (tip_number result) (tip_reply result) }
{
    match begin(mem) {
        Begun::No(r) => {
            return Tip::Refused(r);
        }
        Begun::At(n) => {
            return best_in(mem, n, false);
        }
    }
}

pub fn canonical_best(mem: &[u64]) -> Tip
    ensures { AskedTree canonical_best_q mem.now (tip_number result) (tip_reply result) }
{
    match begin(mem) {
        Begun::No(r) => {
            return Tip::Refused(r);
        }
        Begun::At(n) => {
            return best_in(mem, n, true);
        }
    }
}

// ---- counts ----

pub fn canonical_count(mem: &[u64]) -> Counted
    ensures { AskedTree canonical_count_q mem.now (counted_number result) (counted_reply result) }
{
    match begin(mem) {
        Begun::No(r) => {
            return Counted::Refused(r);
        }
        Begun::At(_) => {
            return Counted::Count(mem[13]);
        }
    }
}

pub fn live_count(mem: &[u64]) -> Counted
    ensures { AskedTree live_count_q mem.now (counted_number result) (counted_reply result) }
{
    match begin(mem) {
        Begun::No(r) => {
            return Counted::Refused(r);
        }
        Begun::At(_) => {
            return Counted::Count(mem[12]);
        }
    }
}
