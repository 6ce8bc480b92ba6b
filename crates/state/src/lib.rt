// Looking up: the place of a hash, the lowest free place, and the effective record at a place (document 01, "Holding blocks").
#![tactic(auto)]

ghost use Rattle.std.specs.Prelude.{◌≡◌, ◌<◌};
ghost use Rattle.block.specs.Answers.{shown_number, shown_reply};
ghost use Rattle.hash.specs.Hashes.{join};
ghost use Rattle.memory.specs.Layout.{Laid};
ghost use Rattle.model.specs.Holding.{place_of, free_place};
ghost use Rattle.model.specs.Questions.{block_at, shown as shown_block};
ghost use Rattle.state.specs.View.{cells_of, view_at};
ghost use Rattle.state.specs.Sound.{SoundAt, placed};

use block::{Block, Kept, Shown};

// The place of a hash, or a number from n on.
pub fn find(mem: &[u64], n: usize, a: u64, b: u64, c: u64, d: u64) -> usize
    requires { Laid mem.now n }
    ensures { SoundAt mem.now n → place_of (view_at mem.now n).holdings (join a b c d) ≡ placed n result }
{
    index::find(mem, n, 64 + 68 * n, 68, false, a, b, c, d)
}

// The lowest free place, or a number from n on.
pub fn free_place(mem: &[u64], n: usize) -> usize
    requires { Laid mem.now n }
    ensures { SoundAt mem.now n → free_place (view_at mem.now n).holdings ≡ placed n result }
{
    contest::best(mem, n, 3)
}

// The effective record at a place, or none.
pub fn show(mem: &[u64], n: usize, p: usize) -> Shown
    requires { Laid mem.now n × (p < n) }
    ensures number { shown_number result ≡ 0 }
    ensures reply { shown_reply result ≡ shown_block (block_at (cells_of mem.now n p)) }
{
    let at = 64 + 68 * p;
    if mem[at] != 1 {
        return Shown::None;
    }
    let header = rows::read_header(mem, at + 4);
    match rows::read_copy(mem, rows::effective_at(mem, at)) {
        Kept::None => {
            return Shown::None;
        }
        Kept::Copy(copy) => {
            return Shown::Block(Block { header, copy });
        }
    }
}
