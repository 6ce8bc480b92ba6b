// The calls on the holdings (document 01, "Holding blocks", "Numbers given back"): each reads the room from the head, and works inside of it.
#![tactic(auto)]

ghost use Rattle.std.specs.Prelude.{◌≡◌, ℕ, ◌<◌};
ghost use Rattle.block.specs.Answers.{counted_number, counted_reply, done_number, shown_number, shown_reply};
ghost use Rattle.block.specs.Records.{hash_means};
ghost use Rattle.holdings.specs.Asked.{Asked, Changes, ChangesAt};
ghost use Rattle.arrivals.specs.Calls.{Within};
ghost use Rattle.journal.specs.Changes.{changes_of, had_of};
ghost use Rattle.journal.specs.declared.Had.TheVariants.{Count};
ghost use Rattle.memory.specs.Layout.{Laid};
ghost use Rattle.model.specs.Holding.{answer_of};
ghost use Rattle.model.specs.Numbers as numbers;
ghost use Rattle.model.specs.Numbers.{clashes};
ghost use Rattle.model.specs.Questions.{effective_count_q, effective_q, generation_q, version_q};
ghost use Rattle.state.specs.Moves as moves;
ghost use Rattle.state.specs.Sound.{SoundAt};

use block::{Counted, Done, Listed, Refusal, Shown};
use hash::Hash;
use journal::Had;

// ---- answers ----

// Another answer where 0 or 2 is held.
fn clash(held: u64, a: u64) -> bool
    ensures { result ≡ clashes a (answer_of held) }
{
    if held == 0 {
        return a != 0;
    }
    if held == 1 {
        return false;
    }
    a != 2
}

fn answer_in(mem: &mut [u64], n: usize, h: Hash, a: u64) -> Done
    requires { Laid mem.old n }
    ensures { Within (numbers.answer (hash_means h) a) mem.old mem.new n (done_number result) }
{
    if 2 < a {
        return Done::Refused(Refusal::Value);
    }
    let p = state::find(mem, n, h.first, h.second, h.third, h.fourth);
    if n <= p {
        return Done::Refused(Refusal::Unknown);
    }
    if clash(mem[64 + 68 * p + 1], a) {
        return Done::Refused(Refusal::Final);
    }
    places::mark(mem, n, p, a);
    Done::Done
}

pub fn answer(mem: &mut [u64], h: Hash, a: u64) -> Done
    ensures { moves.Done (numbers.answer (hash_means h) a) mem.old mem.new (done_number result) }
{
    let n = memory::room(mem);
    if n == 0 {
        return Done::Refused(Refusal::Room);
    }
    answer_in(mem, n, h, a)
}

// ---- removals ----

fn remove_in(mem: &mut [u64], n: usize, store: u64, h: Hash) -> Done
    requires { Laid mem.old n }
    ensures { Within (numbers.remove store (hash_means h)) mem.old mem.new n (done_number result) }
{
    if 2 < store {
        return Done::Refused(Refusal::Kind);
    }
    let p = state::find(mem, n, h.first, h.second, h.third, h.fourth);
    if n <= p {
        return Done::Done;
    }
    if mem[64 + 68 * p + 20 + 12 * store as usize] == 0 {
        return Done::Done;
    }
    if mem[3] == 18446744073709551615 {
        return Done::Refused(Refusal::Version);
    }
    places::take_out(mem, n, p, store);
    journal::touch(mem, n, h.first, h.second, h.third, h.fourth);
    Done::Done
}

pub fn remove(mem: &mut [u64], store: u64, h: Hash) -> Done
    ensures { moves.Done (numbers.remove store (hash_means h)) mem.old mem.new (done_number result) }
{
    let n = memory::room(mem);
    if n == 0 {
        return Done::Refused(Refusal::Room);
    }
    remove_in(mem, n, store, h)
}

// ---- questions ----

pub fn generation(mem: &[u64]) -> Counted
    ensures { Asked generation_q mem.now (counted_number result) (counted_reply result) }
{
    if memory::room(mem) == 0 {
        return Counted::Refused(Refusal::Room);
    }
    Counted::Count(mem[2])
}

pub fn version(mem: &[u64]) -> Counted
    ensures { Asked version_q mem.now (counted_number result) (counted_reply result) }
{
    if memory::room(mem) == 0 {
        return Counted::Refused(Refusal::Room);
    }
    Counted::Count(mem[3])
}

// How many hashes have an effective record.
pub fn effective_count(mem: &[u64]) -> Counted
    ensures { Asked effective_count_q mem.now (counted_number result) (counted_reply result) }
{
    if memory::room(mem) == 0 {
        return Counted::Refused(Refusal::Room);
    }
    Counted::Count(mem[11])
}

// The effective record of a hash, or none.
pub fn effective(mem: &[u64], h: Hash) -> Shown
    ensures { Asked (effective_q (hash_means h)) mem.now (shown_number result) (shown_reply result) }
{
    let n = memory::room(mem);
    if n == 0 {
        return Shown::Refused(Refusal::Room);
    }
    let p = state::find(mem, n, h.first, h.second, h.third, h.fourth);
    if n <= p {
        return Shown::None;
    }
    state::show(mem, n, p)
}

// ---- changes ----

// The k hashes touched since version v go into the list, if it has the places.
fn hand_out(mem: &[u64], n: usize, v: u64, list: &mut [u8], k: usize) -> Listed
    requires { Laid mem.now n }
    ensures { (g : ℕ) → (SoundAt mem.now n → Count k ≡ had_of (changes_of mem.now n g v)) → ChangesAt g v mem.now n list.old list.new result }
{
    if list.len() / 32 < k {
        return Listed::Refused(Refusal::List);
    }
    journal::write_changes(mem, n, v, list);
    Listed::Count(k)
}

fn changes_in(mem: &[u64], n: usize, g: u64, v: u64, list: &mut [u8]) -> Listed
    requires { Laid mem.now n }
    ensures { ChangesAt g v mem.now n list.old list.new result }
{
    match journal::changes_had(mem, n, g, v) {
        Had::None => {
            return Listed::None;
        }
        Had::Count(k) => {
            return hand_out(mem, n, v, list, k);
        }
    }
}

// The distinct hashes touched since (g, v), in the order of their last touch, go into a lent list, 32 bytes each.
pub fn changes(mem: &[u64], g: u64, v: u64, list: &mut [u8]) -> Listed
    ensures { Changes g v mem.now list.old list.new result }
{
    let n = memory::room(mem);
    if n == 0 {
        return Listed::Refused(Refusal::Room);
    }
    changes_in(mem, n, g, v, list)
}
