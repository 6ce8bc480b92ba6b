// The library: every call of document 01 and nothing else, twice. For programs in Rattle the calls on the types of `block`, each where it is
// proved; for a host the same on numbers and slices, which `cadraspes_c` exports as functions of C. There a call gives back document 01's
// number, 0 or a refusal; a question writes its answer into words that the host lends, and a refusal leaves them as they were.
#![tactic(auto)]

ghost use Rattle.std.specs.Prelude.{◌≡◌, length};
ghost use Rattle.amount.specs.Amounts.{reading};
ghost use Rattle.boundary.specs.Compared.{ChoiceTold, CoversTold, side_meant};
ghost use Rattle.boundary.specs.Lent.{block_meant};
ghost use Rattle.boundary.specs.Planning.{EntryPlans, given_floor};
ghost use Rattle.boundary.specs.Told.{AmountTold, Counts, Lists, Shows};
ghost use Rattle.boundary.specs.ToldTree.{TreeCounts, TreeLists, TreeShows, TreeTips, TreeWorths};
ghost use Rattle.clearing.specs.Calls.{Reloads, Starts};
ghost use Rattle.hash.specs.Digits.{bytes_number};
ghost use Rattle.model.specs.Comparing.{choose_verified};
ghost use Rattle.model.specs.Numbers as numbers;
ghost use Rattle.model.specs.Plans.{adopt_c, select_c};
ghost use Rattle.model.specs.Questions as questions;
ghost use Rattle.model.specs.Questions.{best_q, canonical_best_q, canonical_count_q, canonical_linked_q, effective_count_q, effective_q, generation_q, linked_q, live_count_q, parent_q, version_q};
ghost use Rattle.state.specs.Moves as moves;
ghost use Rattle.tree.specs.Calls.{Keeps};

use entries::Entry;

// ---- the calls, for programs in Rattle ----

// start and reload, the holdings and their questions
pub use arrivals::{load, put};
pub use clearing::{reload, start};
pub use holdings::{answer, changes, effective, effective_count, generation, remove, version};

// sync, and the questions about the tree
pub use asking::{
    best, canonical_best, canonical_count, canonical_linked, linked, live_count, node, parent,
};
pub use leaves::leaves;
pub use tree::sync;

// amounts, the comparison of two chains, the two plans
pub use amount::read;
pub use choice::{choose, covers};
pub use plans::{adopt, select};

// ---- the calls, for a host ----

// ---- start and reload, the holdings, sync ----

pub fn cadraspes_start(
    mem: &mut [u64],
    hashes: u64,
    journal: u64,
    generation: u64,
    version: u64,
) -> u64
    ensures { Starts hashes journal generation version mem.old mem.new result }
{
    block::numbers::done_number(clearing::start(mem, hashes, journal, generation, version))
}

pub fn cadraspes_reload(mem: &mut [u64], generation: u64, version: u64) -> u64
    ensures { Reloads generation version mem.old mem.new result }
{
    block::numbers::done_number(clearing::reload(mem, generation, version))
}

pub fn cadraspes_load(
    mem: &mut [u64],
    store: u64,
    hash: &[u8; 32],
    index: u64,
    epoch: u64,
    prev: &[u8; 32],
    target: &[u8],
    actual: &[u8],
    copy: &[u64; 12],
) -> u64
    ensures { moves.Done (numbers.load store (block_meant hash.now index epoch prev.now target.now actual.now copy.now)) mem.old mem.new result }
{
    let b = boundary::records::block_from(hash, index, epoch, prev, target, actual, copy);
    block::numbers::done_number(arrivals::load(mem, store, b))
}

pub fn cadraspes_put(
    mem: &mut [u64],
    store: u64,
    hash: &[u8; 32],
    index: u64,
    epoch: u64,
    prev: &[u8; 32],
    target: &[u8],
    actual: &[u8],
    copy: &[u64; 12],
) -> u64
    ensures { moves.Done (numbers.put store (block_meant hash.now index epoch prev.now target.now actual.now copy.now)) mem.old mem.new result }
{
    let b = boundary::records::block_from(hash, index, epoch, prev, target, actual, copy);
    block::numbers::done_number(arrivals::put(mem, store, b))
}

pub fn cadraspes_remove(mem: &mut [u64], store: u64, hash: &[u8; 32]) -> u64
    ensures { moves.Done (numbers.remove store (bytes_number hash.now)) mem.old mem.new result }
{
    let h = hash::from_bytes(hash);
    block::numbers::done_number(holdings::remove(mem, store, h))
}

pub fn cadraspes_answer(mem: &mut [u64], hash: &[u8; 32], answer: u64) -> u64
    ensures { moves.Done (numbers.answer (bytes_number hash.now) answer) mem.old mem.new result }
{
    let h = hash::from_bytes(hash);
    block::numbers::done_number(holdings::answer(mem, h, answer))
}

// Never refused on a memory that a start laid out.
pub fn cadraspes_sync(mem: &mut [u64]) -> u64
    ensures { Keeps numbers.sync mem.old mem.new result }
{
    block::numbers::done_number(tree::sync(mem))
}

// ---- questions about the holdings ----

pub fn cadraspes_generation(mem: &[u64], out: &mut u64) -> u64
    ensures { Counts generation_q mem.now out.old out.new result }
{
    boundary::telling::tell_count(holdings::generation(mem), out)
}

pub fn cadraspes_version(mem: &[u64], out: &mut u64) -> u64
    ensures { Counts version_q mem.now out.old out.new result }
{
    boundary::telling::tell_count(holdings::version(mem), out)
}

// How many hashes have an effective record.
pub fn cadraspes_effective_count(mem: &[u64], out: &mut u64) -> u64
    ensures { Counts effective_count_q mem.now out.old out.new result }
{
    boundary::telling::tell_count(holdings::effective_count(mem), out)
}

// The effective record of a hash: 1, the sixteen words of its header and the twelve of its copy; or 0, and the rest stays as it was.
pub fn cadraspes_effective(mem: &[u64], hash: &[u8; 32], out: &mut [u64; 29]) -> u64
    ensures { Shows (effective_q (bytes_number hash.now)) mem.now out.old out.new result }
{
    let h = hash::from_bytes(hash);
    boundary::telling::tell_shown(holdings::effective(mem, h), out)
}

// The hashes touched since a generation and a version, 32 bytes each, in the order of their last touch: 1 and how many; or 0 and 0 where
// none are to be had.
pub fn cadraspes_changes(
    mem: &[u64],
    generation: u64,
    version: u64,
    list: &mut [u8],
    out: &mut [u64; 2],
) -> u64
    ensures { Lists generation version mem.now list.old list.new out.old out.new result }
{
    boundary::telling::tell_listed(holdings::changes(mem, generation, version, list), out)
}

// ---- questions about the tree ----

// The live block of a hash, as the effective record is shown.
pub fn cadraspes_node(mem: &[u64], hash: &[u8; 32], out: &mut [u64; 29]) -> u64
    ensures { TreeShows (questions.node (bytes_number hash.now)) mem.now out.old out.new result }
{
    let h = hash::from_bytes(hash);
    boundary::telling::tell_shown(asking::node(mem, h), out)
}

// The parent of a live block, shown alike.
pub fn cadraspes_parent(mem: &[u64], hash: &[u8; 32], out: &mut [u64; 29]) -> u64
    ensures { TreeShows (parent_q (bytes_number hash.now)) mem.now out.old out.new result }
{
    let h = hash::from_bytes(hash);
    boundary::telling::tell_shown(asking::parent(mem, h), out)
}

// A linked value: 0 and two zeros for none, else 1, or 2 where proofs are ok, and the two words of work, the lower first.
pub fn cadraspes_linked(mem: &[u64], hash: &[u8; 32], out: &mut [u64; 3]) -> u64
    ensures { TreeWorths (linked_q (bytes_number hash.now)) mem.now out.old out.new result }
{
    let h = hash::from_bytes(hash);
    boundary::telling::tell_worth(asking::linked(mem, h), out)
}

pub fn cadraspes_canonical_linked(mem: &[u64], hash: &[u8; 32], out: &mut [u64; 3]) -> u64
    ensures { TreeWorths (canonical_linked_q (bytes_number hash.now)) mem.now out.old out.new result }
{
    let h = hash::from_bytes(hash);
    boundary::telling::tell_worth(asking::canonical_linked(mem, h), out)
}

// The best block, shown as the effective record is, and its linked value.
pub fn cadraspes_best(mem: &[u64], out: &mut [u64; 29], value: &mut [u64; 3]) -> u64
    ensures { TreeTips best_q mem.now out.old out.new value.old value.new result }
{
    boundary::telling::tell_tip(asking::best(mem), out, value)
}

pub fn cadraspes_canonical_best(mem: &[u64], out: &mut [u64; 29], value: &mut [u64; 3]) -> u64
    ensures { TreeTips canonical_best_q mem.now out.old out.new value.old value.new result }
{
    boundary::telling::tell_tip(asking::canonical_best(mem), out, value)
}

pub fn cadraspes_canonical_count(mem: &[u64], out: &mut u64) -> u64
    ensures { TreeCounts canonical_count_q mem.now out.old out.new result }
{
    boundary::telling::tell_count(asking::canonical_count(mem), out)
}

pub fn cadraspes_live_count(mem: &[u64], out: &mut u64) -> u64
    ensures { TreeCounts live_count_q mem.now out.old out.new result }
{
    boundary::telling::tell_count(asking::live_count(mem), out)
}

// The leaves by rising hash, 32 bytes each: 1 and how many. (The list is put in order with the help of words of the memory that nothing else
// reads, so the memory is lent to be written.)
pub fn cadraspes_leaves(mem: &mut [u64], list: &mut [u8], out: &mut [u64; 2]) -> u64
    ensures { TreeLists mem.old mem.new list.old list.new out.old out.new result }
{
    boundary::telling::tell_listed(leaves::leaves(mem, list), out)
}

// ---- the comparison of two chains ----

// A side is 1 and the two words of its work, the lower first, or any other number and two words that are not looked at where its work is
// unknown; then its tip's index; and apart its tip's hash. Writes the outcome, 0 equal, 1 keep local, 2 adopt peer, and the reason as a
// shown block has it: its kind and four words.
pub fn cadraspes_choose(
    local: &[u64; 4],
    local_hash: &[u8; 32],
    peer: &[u64; 4],
    peer_hash: &[u8; 32],
    out: &mut [u64; 6],
) -> u64
    ensures { (result ≡ 0) × ChoiceTold (choose_verified (side_meant local.now local_hash.now) (side_meant peer.now peer_hash.now)) out.new }
{
    let ours = boundary::comparing::side_from(local, local_hash);
    let theirs = boundary::comparing::side_from(peer, peer_hash);
    boundary::comparing::tell_choice(choice::choose(ours, theirs), out);
    0
}

// 1 where a tip of this index and epoch covers its nomination epoch, with so many blocks to an epoch; else 0.
pub fn cadraspes_covers(index: u64, epoch: u64, per_epoch: u64) -> u64
    ensures { CoversTold index epoch per_epoch result }
{
    boundary::comparing::flag(choice::covers(index, epoch, per_epoch))
}

// ---- amounts ----

// Reads an amount text: 1 and its value's two words, the lower first; three zeros where it is unreadable.
pub fn cadraspes_amount(text: &[u8], out: &mut [u64; 3]) -> u64
    ensures { (result ≡ 0) × AmountTold (reading text.now) out.new }
{
    let x = amount::read(text);
    boundary::telling::tell_amount(x, out);
    0
}

// ---- the two plans ----

// Select, with a floor unless `floor_given` is 0: 1, `changed` and how many entries, which stand in the list; three zeros for a scan.
pub fn cadraspes_select(
    mem: &mut [u64],
    floor_given: u64,
    floor: u64,
    per_epoch: u64,
    clock: i64,
    list: &mut [Entry],
    out: &mut [u64; 3],
) -> u64
    ensures { EntryPlans (select_c (given_floor floor_given floor) per_epoch clock (length list.old)) mem.old mem.new list.old list.new out.old out.new result }
{
    let places = list.len();
    let b = boundary::planning::begin_select(mem, floor_given, floor, per_epoch, places);
    let n = plans::room_in(b);
    if n == 0 {
        return boundary::planning::tell_begun(b, 0, out);
    }
    let reason = plans::reason_in(b);
    let k = entries::hand_out(mem, n, clock, reason, list);
    boundary::planning::tell_begun(b, k, out)
}

pub fn cadraspes_adopt(
    mem: &mut [u64],
    floor_given: u64,
    floor: u64,
    per_epoch: u64,
    clock: i64,
    list: &mut [Entry],
    out: &mut [u64; 3],
) -> u64
    ensures { EntryPlans (adopt_c (given_floor floor_given floor) per_epoch clock (length list.old)) mem.old mem.new list.old list.new out.old out.new result }
{
    let places = list.len();
    let b = boundary::planning::begin_adopt(mem, floor_given, floor, per_epoch, places);
    let n = plans::room_in(b);
    if n == 0 {
        return boundary::planning::tell_begun(b, 0, out);
    }
    let reason = plans::reason_in(b);
    let k = entries::hand_out(mem, n, clock, reason, list);
    boundary::planning::tell_begun(b, k, out)
}
