// The lent memory made empty: start and reload (document 01, "Holding blocks"), and what both do, to wipe it. Nothing is supposed of the words
// that are there but the room that the head names.
#![tactic(auto)]

ghost use Rattle.std.specs.Prelude.{◌+◌, ◌*◌, ◌≤◌, ◌<◌, length};
ghost use Rattle.block.specs.Answers.{done_number};
ghost use Rattle.memory.specs.Layout.{Laid, need};
ghost use Rattle.clearing.specs.Blank.{Swept, Wiped};
ghost use Rattle.clearing.specs.Calls.{Begun, Emptied, Starts, Reloads};

use block::{Done, Refusal};

// The entry of a contest's node where there is no place.
const NONE: u64 = 18446744073709551615;

// ---- wiping ----

// Rows and counts become 0, and no node of a contest has a place.
fn sweep(mem: &mut [u64], n: usize)
    requires { Laid mem.old n }
    ensures { Swept mem.old mem.new n }
{
    memory::fill(mem, 11, 16, 0);
    memory::fill(mem, 64, 64 + 68 * n, 0);
    memory::fill(mem, 64 + 74 * n, 64 + 79 * n, NONE);
}

// Every place is free, nothing is linked, the journal is empty. The head's first words and what a sync noted stay.
pub fn wipe(mem: &mut [u64], n: usize)
    requires { Laid mem.old n }
    ensures { Wiped mem.old mem.new n }
{
    sweep(mem, n);
    index::clear(mem, n, 64 + 68 * n);
    index::clear(mem, n, 64 + 71 * n);
    contest::build(mem, n, 3);
    journal::clear(mem, n);
}

// ---- start ----

fn lay(mem: &mut [u64], n: usize, j: u64, generation: u64, version: u64)
    requires { (1 ≤ n) × (n ≤ 32768) × (1 ≤ j) × (j ≤ 200000) × (need n j ≤ length mem.old) }
    ensures { Begun mem.new n j generation version }
{
    memory::four(mem, 0, n as u64, j, generation, version);
    memory::four(mem, 6, 1, 0, 0, 0);
    wipe(mem, n);
}

// Lays the memory out for so many hashes and journal entries, empty.
pub fn start(mem: &mut [u64], hashes: u64, journal: u64, generation: u64, version: u64) -> Done
    ensures { Starts hashes journal generation version mem.old mem.new (done_number result) }
{
    let n = hashes as usize;
    let j = journal as usize;
    if n == 0 {
        return Done::Refused(Refusal::Room);
    }
    if memory::HASH_LIMIT < n {
        return Done::Refused(Refusal::Room);
    }
    if j == 0 {
        return Done::Refused(Refusal::Room);
    }
    if memory::JOURNAL_LIMIT < j {
        return Done::Refused(Refusal::Room);
    }
    if mem.len() < 64 + 81 * n + 8 * j {
        return Done::Refused(Refusal::Room);
    }
    lay(mem, n, journal, generation, version);
    Done::Done
}

// ---- reload ----

fn relay(mem: &mut [u64], n: usize, generation: u64, version: u64)
    requires { Laid mem.old n }
    ensures { Emptied mem.old mem.new n generation version }
{
    mem[2] = generation;
    mem[3] = version;
    mem[6] = 1;
    mem[7] = 0;
    wipe(mem, n);
}

// Empties all, under a later generation. (A memory that no start laid out has no room.)
pub fn reload(mem: &mut [u64], generation: u64, version: u64) -> Done
    ensures { Reloads generation version mem.old mem.new (done_number result) }
{
    let n = memory::room(mem);
    if n == 0 {
        return Done::Refused(Refusal::Room);
    }
    if generation <= mem[2] {
        return Done::Refused(Refusal::Generation);
    }
    relay(mem, n, generation, version);
    Done::Done
}
