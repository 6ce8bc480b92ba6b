// Sync (document 01, "Standing in the tree", "Holding blocks"): linked and canonical linked values, both bests, leaves and counts are brought up to
// the holdings; then room is freed, and loading is closed.
#![tactic(auto)]

ghost use Rattle.std.specs.Prelude.{◌≤◌, length};
ghost use Rattle.block.specs.Answers.{done_number};
ghost use Rattle.memory.specs.Layout.{Laid};
ghost use Rattle.model.specs.Numbers as numbers;
ghost use Rattle.tree.specs.Calls.{Keeps, Noted, Syncs};

use block::{Done, Refusal};

// The head says where the sync stood, and that it covers the present.
fn note(mem: &mut [u64])
    requires { 64 ≤ length mem.old }
    ensures { Noted mem.old mem.new }
{
    let generation = mem[2];
    let version = mem[3];
    memory::four(mem, 6, 0, 1, 1, generation);
    mem[10] = version;
}

fn sync_in(mem: &mut [u64], n: usize)
    requires { Laid mem.old n }
    ensures { Syncs mem.old mem.new n }
{
    relink::gather(mem, n);
    relink::settle(mem, n);
    releasing::release(mem, n);
    note(mem);
}

// Never refused. (A memory that no start laid out has no room.)
pub fn sync(mem: &mut [u64]) -> Done
    ensures { Keeps numbers.sync mem.old mem.new (done_number result) }
{
    let n = memory::room(mem);
    if n == 0 {
        return Done::Refused(Refusal::Room);
    }
    sync_in(mem, n);
    Done::Done
}
