// Room is freed at the end of a sync (document 01, "Holding blocks"): a hash that no store holds has none any more.
#![tactic(auto)]

ghost use Rattle.std.specs.Prelude.{◌<◌};
ghost use Rattle.memory.specs.Layout.{Laid};
ghost use Rattle.releasing.specs.Releases.{Releases};
ghost use Rattle.releasing.specs.Vacates.{Settles, Vacates};

// The opposite of places::admit: place p leaves the indexes and is among the free ones.
fn vacate(mem: &mut [u64], n: usize, p: usize)
    requires { Laid mem.old n × (p < n) }
    ensures { Vacates mem.old mem.new n p }
{
    index::unlink(mem, n, 64 + 68 * n, p);
    index::unlink(mem, n, 64 + 71 * n, p);
    mem[64 + 68 * p] = 0;
    contest::update(mem, n, 3, p);
}

// Frees place p if it has room for a hash that no store holds.
fn settle(mem: &mut [u64], n: usize, p: usize)
    requires { Laid mem.old n × (p < n) }
    ensures { Settles mem.old mem.new n p }
{
    let at = 64 + 68 * p;
    if mem[at] == 1 && places::status(mem, at) == 0 {
        vacate(mem, n, p);
    }
}

// Frees room where no store holds the hash any more: a walk over the places that removals listed, and no other. The list is read while it is
// walked, so that no place leaves it before the end.
pub fn release(mem: &mut [u64], n: usize)
    requires { Laid mem.old n }
    ensures { Releases mem.old mem.new n }
{
    let z = roster::count(mem, n, 15);
    for i in 0..z {
        let p = roster::at(mem, n, 64 + 80 * n, i);
        settle(mem, n, p);
    }
    roster::clear(mem, 15);
}
