// Steps at one place of the lent memory: a copy goes into its store or out of it, an answer stands (document 01, "Holding blocks"). Each keeps
// the counts and the roster of places that the next sync may free in step.
#![tactic(auto)]

ghost use Rattle.std.specs.Prelude.{◌≡◌, ℕ, ◌+◌, ◌*◌, ◌≤◌, ◌<◌, length};
ghost use Rattle.block.specs.Records.{copy_means, header_means};
ghost use Rattle.model.specs.Holding.{is_canonical, is_live};
ghost use Rattle.model.specs.Record.{Block as Stored};
ghost use Rattle.memory.specs.Layout.{Laid};
ghost use Rattle.places.specs.Status.{Says, Moved, Tallied, live_by, canonical_by};
ghost use Rattle.places.specs.Steps.{Replaces, TakesOut, Marks};
ghost use Rattle.places.specs.Admits.{Fills, Joins, Admits};
ghost use Rattle.state.specs.View.{cells_of};

use block::{Copy, Header};

// ---- the effective copy of a row, and the counts ----

// The state word of the effective copy of the row at `at`; 0 where there is none.
pub fn status(mem: &[u64], at: usize) -> u64
    requires { at + 68 ≤ length mem.now }
    ensures { Says mem.now at result }
{
    let r = rows::effective_at(mem, at);
    mem[r]
}

fn is_live(w: u64) -> bool
    ensures { result ≡ live_by w }
{
    if w == 0 {
        return false;
    }
    (w - 1) % 2 != 1
}

fn is_canonical(w: u64) -> bool
    ensures { result ≡ canonical_by w }
{
    if w == 0 {
        return false;
    }
    if (w - 1) % 2 == 1 {
        return false;
    }
    (w - 1) / 2 % 2 == 1
}

// Whether the block at a place is live; a free place has none.
pub fn live(mem: &[u64], n: usize, p: usize) -> bool
    requires { Laid mem.now n × (p < n) }
    ensures { result ≡ is_live (cells_of mem.now n p) }
{
    let at = 64 + 68 * p;
    if mem[at] != 1 {
        return false;
    }
    is_live(status(mem, at))
}

// .. and whether it is canonical.
pub fn canonical(mem: &[u64], n: usize, p: usize) -> bool
    requires { Laid mem.now n × (p < n) }
    ensures { result ≡ is_canonical (cells_of mem.now n p) }
{
    let at = 64 + 68 * p;
    if mem[at] != 1 {
        return false;
    }
    is_canonical(status(mem, at))
}

// (On a memory that no call left a count stays where it would wrap.)
fn moved(count: u64, was: bool, is: bool) -> u64
    ensures { Moved count was is result }
{
    if was {
        if is {
            return count;
        }
        if count == 0 {
            return 0;
        }
        return count - 1;
    }
    if is {
        if count == 18446744073709551615 {
            return count;
        }
        return count + 1;
    }
    count
}

// The counts after the effective copy of a place went from the state word `was` to `now`.
fn tally(mem: &mut [u64], was: u64, is: u64)
    requires { 64 ≤ length mem.old }
    ensures { Tallied mem.old mem.new was is }
{
    let e = moved(mem[11], was != 0, is != 0);
    let l = moved(mem[12], is_live(was), is_live(is));
    let c = moved(mem[13], is_canonical(was), is_canonical(is));
    mem[11] = e;
    mem[12] = l;
    mem[13] = c;
}

// ---- steps ----

// The next copy goes into its store, at a place that has room.
pub fn replace(mem: &mut [u64], n: usize, p: usize, store: u64, next: Copy)
    requires { Laid mem.old n × (p < n) }
    ensures { (b : Stored) → copy_means next ≡ b.copy → Replaces mem.old mem.new n p store b }
{
    if 2 < store {
        return;
    }
    let at = 64 + 68 * p;
    let was = status(mem, at);
    rows::write_copy(mem, at + 20 + 12 * store as usize, next);
    let is = status(mem, at);
    tally(mem, was, is);
}

// The copy goes out of its store. The place is listed, for the next sync to free if no copy is left.
pub fn take_out(mem: &mut [u64], n: usize, p: usize, store: u64)
    requires { Laid mem.old n × (p < n) }
    ensures { TakesOut mem.old mem.new n p store }
{
    if 2 < store {
        return;
    }
    let at = 64 + 68 * p;
    let was = status(mem, at);
    rows::drop_copy(mem, at + 20 + 12 * store as usize);
    let is = status(mem, at);
    tally(mem, was, is);
    roster::add(mem, n, 64 + 80 * n, 15, 66, p);
}

pub fn mark(mem: &mut [u64], n: usize, p: usize, answer: u64)
    requires { Laid mem.old n × (p < n) }
    ensures { Marks mem.old mem.new n p answer }
{
    mem[64 + 68 * p + 1] = answer;
}

// ---- new room ----

// Row p holds the record, in one store alone, with no answer.
fn fill_row(mem: &mut [u64], p: usize, store: u64, header: Header, copy: Copy)
    requires { (store ≤ 2) × (p < 32768) × (64 + 68 * p + 68 ≤ length mem.old) }
    ensures { Fills mem.old mem.new p store header copy }
{
    let at = 64 + 68 * p;
    rows::open(mem, at);
    rows::write_header(mem, at + 4, header);
    rows::write_copy(mem, at + 20 + 12 * store as usize, copy);
}

// Place p joins the indexes and leaves the contest of free places.
fn join(mem: &mut [u64], n: usize, p: usize)
    requires { Laid mem.old n × (p < n) }
    ensures { Joins mem.old mem.new n p }
{
    index::link(mem, n, 64 + 68 * n, 68, false, p);
    index::link(mem, n, 64 + 71 * n, 72, false, p);
    contest::update(mem, n, 3, p);
}

// The free place p becomes room for the record's hash, which has none.
pub fn admit(mem: &mut [u64], n: usize, p: usize, store: u64, header: Header, copy: Copy)
    requires { Laid mem.old n × (p < n) }
    ensures { (b : Stored) → b ≡ record { header = header_means header; copy = copy_means copy } → Admits mem.old mem.new n p store b }
{
    if 2 < store {
        return;
    }
    fill_row(mem, p, store, header, copy);
    join(mem, n, p);
    let is = status(mem, 64 + 68 * p);
    tally(mem, 0, is);
}
