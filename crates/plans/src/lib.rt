// The two plans as calls (document 01, "The two plans", "Numbers given back"): 12, then 13; then the plan's core, whatever the list is made of;
// and its entries handed back in a list of words, sixteen for each entry.
#![tactic(auto)]

ghost use Rattle.std.specs.Prelude.{◌≡◌, ◌+◌, ◌≤◌, ◌<◌, length};
ghost use Rattle.block.specs.Records.{reason_means};
ghost use Rattle.entries.specs.Handing.{Takes};
ghost use Rattle.memory.specs.Layout.{Laid};
ghost use Rattle.model.specs.Plans.{adopt_c, select_c};
ghost use Rattle.walks.specs.Asking.{floor_means};
ghost use Rattle.plans.specs.Lent.{Put, WritesOut, clock_of, places_in};
ghost use Rattle.plans.specs.Opened.{begun_of, Finishes, Opens, planned_of, reason_in, room_in};
ghost use Rattle.plans.specs.Plan.{Begins, Plans};

use block::{Done, Planned, Reason, Refusal, Time};
use entries::Entry;
use walks::Floor;
use writing::Decided;

// ---- the list ----

// One finished entry stands at `at`.
fn put(list: &mut [u64], at: usize, e: Entry)
    requires { at + 16 ≤ length list.old }
    ensures { Put list.old list.new at e }
{
    memory::four(list, at, e.hash1, e.hash2, e.hash3, e.hash4);
    memory::four(list, at + 4, e.state, e.timed, e.time, e.why);
    memory::four(list, at + 8, e.why1, e.why2, e.why3, e.why4);
    memory::four(list, at + 12, e.rival1, e.rival2, e.rival3, e.rival4);
}

// The next entry. (The clock goes as a time, so that a loop can hold it.)
fn next(mem: &mut [u64], n: usize, time: Time, reason: Reason) -> Entry
    requires { Laid mem.old n }
    ensures { Takes mem.old mem.new n (clock_of time) (reason_means reason) result }
{
    match time {
        Time::None => {
            return entries::take_next(mem, n, 0, reason);
        }
        Time::At(clock) => {
            return entries::take_next(mem, n, clock, reason);
        }
    }
}

// The entries go into the list, as far as it has places; how many there are. Nothing is written any more. (Counted by hand and not by a
// `for`: wrong answers begin the count at one, or step it by two.)
fn write_out(mem: &mut [u64], n: usize, time: Time, reason: Reason, list: &mut [u64]) -> usize
    requires { Laid mem.old n }
    ensures { WritesOut mem.old mem.new n (clock_of time) (reason_means reason) list.old list.new result }
{
    let places = list.len() / 16;
    let mut i = 0;
    while i < places {
        let e = next(mem, n, time, reason);
        if e.state == 0 {
            return i;
        }
        put(list, 16 * i, e);
        i += 1;
    }
    i
}

// ---- a call ----

// What a plan came to before its entries go out: its answer, where there are none; else the room, `changed` and the comparison's reason.
#[derive(Clone, Copy)]
pub enum Begun {
    Answered(Planned),
    Writes(usize, u64, Reason),
}

// 1 where there is no room, 12, 13.
fn check(mem: &[u64], n: usize, places: usize) -> Done
    requires { (n ≡ 0 → ⊥) → Laid mem.now n }
    ensures { Begins mem.now n places result }
{
    if n == 0 {
        return Done::Refused(Refusal::Room);
    }
    if mem[7] != 1 {
        return Done::Refused(Refusal::Stale);
    }
    if (places as u64) < mem[12] {
        return Done::Refused(Refusal::List);
    }
    Done::Done
}

fn begun_of(n: usize, d: Decided) -> Begun
    ensures { result ≡ begun_of n d }
{
    match d {
        Decided::Scan => {
            return Begun::Answered(Planned::Scan);
        }
        Decided::Apply(changed, reason) => {
            return Begun::Writes(n, changed, reason);
        }
    }
}

// Select and adopt up to their entries, for a list of so many places. (A memory that is not laid out is none that calls left.)
pub fn begin_select(mem: &mut [u64], floor: Floor, per_epoch: u64, places: usize) -> Begun
    ensures { Opens (λ clock. select_c (floor_means floor) per_epoch clock places) places mem.old mem.new result }
{
    let n = memory::room(mem);
    match check(mem, n, places) {
        Done::Refused(r) => {
            return Begun::Answered(Planned::Refused(r));
        }
        Done::Done => {
            let d = selecting::select(mem, n, floor, per_epoch);
            return begun_of(n, d);
        }
    }
}

pub fn begin_adopt(mem: &mut [u64], floor: Floor, per_epoch: u64, places: usize) -> Begun
    ensures { Opens (λ clock. adopt_c (floor_means floor) per_epoch clock places) places mem.old mem.new result }
{
    let n = memory::room(mem);
    match check(mem, n, places) {
        Done::Refused(r) => {
            return Begun::Answered(Planned::Refused(r));
        }
        Done::Done => {
            let d = adopting::adopt(mem, n, floor, per_epoch);
            return begun_of(n, d);
        }
    }
}

// The room where entries are to go out; 0 where there are none.
pub fn room_in(b: Begun) -> usize
    ensures { result ≡ room_in b }
{
    match b {
        Begun::Answered(x) => 0,
        Begun::Writes(n, changed, reason) => n,
    }
}

// The reason; any where there are no entries.
pub fn reason_in(b: Begun) -> Reason
    ensures { result ≡ reason_in b }
{
    match b {
        Begun::Answered(x) => Reason::OffSpine,
        Begun::Writes(n, changed, reason) => reason,
    }
}

// The answer, once k entries went out.
pub fn planned(b: Begun, k: usize) -> Planned
    ensures { result ≡ planned_of b k }
{
    match b {
        Begun::Answered(x) => x,
        Begun::Writes(n, changed, reason) => Planned::Apply(changed, k),
    }
}

// ---- the two plans over a list of words ----

// The entries go into the list, and the plan is answered.
fn finish(mem: &mut [u64], b: Begun, time: Time, list: &mut [u64]) -> Planned
    requires { (room_in b ≡ 0 → ⊥) → Laid mem.old (room_in b) }
    ensures { Finishes mem.old mem.new b (clock_of time) list.old list.new result }
{
    let n = room_in(b);
    if n == 0 {
        return planned(b, 0);
    }
    let k = write_out(mem, n, time, reason_in(b), list);
    planned(b, k)
}

pub fn select(
    mem: &mut [u64],
    floor: Floor,
    per_epoch: u64,
    clock: i64,
    list: &mut [u64],
) -> Planned
    ensures { Plans (select_c (floor_means floor) per_epoch clock (places_in list.old)) mem.old mem.new list.old list.new result }
{
    let b = begin_select(mem, floor, per_epoch, list.len() / 16);
    finish(mem, b, Time::At(clock), list)
}

pub fn adopt(mem: &mut [u64], floor: Floor, per_epoch: u64, clock: i64, list: &mut [u64]) -> Planned
    ensures { Plans (adopt_c (floor_means floor) per_epoch clock (places_in list.old)) mem.old mem.new list.old list.new result }
{
    let b = begin_adopt(mem, floor, per_epoch, list.len() / 16);
    finish(mem, b, Time::At(clock), list)
}
