// The row of a place: reading and writing its header and copies (document 01, "Holding blocks").
#![tactic(auto)]

ghost use Rattle.std.specs.Prelude.{◌≡◌, ℕ, ◌+◌, ◌≤◌, length};
ghost use Rattle.block.specs.Records.{header_means, kept_means};
ghost use Rattle.rows.specs.Rows.{header_at, copy_at};
ghost use Rattle.rows.specs.Written.{Headed, Copied, Dropped, Opened, Stands};

use block::{Copy, Header, Kept};

pub fn write_header(mem: &mut [u64], at: usize, header: Header)
    requires { at + 16 ≤ length mem.old }
    ensures { Headed mem.old mem.new at header }
{
    let words = block::words::header_words(header);
    let h = words.hash;
    let v = words.prev;
    let i = words.numbers;
    let w = words.amounts;
    memory::four(mem, at, h.a, h.b, h.c, h.d);
    memory::four(mem, at + 4, v.a, v.b, v.c, v.d);
    memory::four(mem, at + 8, i.a, i.b, i.c, i.d);
    memory::four(mem, at + 12, w.a, w.b, w.c, w.d);
}

pub fn write_copy(mem: &mut [u64], at: usize, copy: Copy)
    requires { at + 12 ≤ length mem.old }
    ensures { Copied mem.old mem.new at copy }
{
    let words = block::words::copy_words(copy);
    let s = words.state;
    let r = words.reason;
    let c = words.competing;
    memory::four(mem, at, s.a, s.b, s.c, s.d);
    memory::four(mem, at + 4, r.a, r.b, r.c, r.d);
    memory::four(mem, at + 8, c.a, c.b, c.c, c.d);
}

pub fn drop_copy(mem: &mut [u64], at: usize)
    requires { at + 12 ≤ length mem.old }
    ensures { Dropped mem.old mem.new at }
{
    mem[at] = 0;
}

// The row is used: no answer yet, which counts as 1, and no copy.
pub fn open(mem: &mut [u64], at: usize)
    requires { at + 68 ≤ length mem.old }
    ensures { Opened mem.old mem.new at }
{
    mem[at] = 1;
    mem[at + 1] = 1;
    mem[at + 20] = 0;
    mem[at + 32] = 0;
    mem[at + 44] = 0;
}

pub fn read_header(mem: &[u64], at: usize) -> Header
    requires { at + 16 ≤ length mem.now }
    ensures { header_means result ≡ header_at mem.now at }
{
    let h = memory::read_four(mem, at);
    let v = memory::read_four(mem, at + 4);
    let i = memory::read_four(mem, at + 8);
    let w = memory::read_four(mem, at + 12);
    block::words::header_of(h, v, i, w)
}

pub fn read_copy(mem: &[u64], at: usize) -> Kept
    requires { at + 12 ≤ length mem.now }
    ensures { kept_means result ≡ copy_at mem.now at }
{
    let s = memory::read_four(mem, at);
    let r = memory::read_four(mem, at + 4);
    let c = memory::read_four(mem, at + 8);
    block::words::copy_of(s, r, c)
}

// Where the effective copy of a row stands: active, else forks, else canon. With none, the place of the last, where there is no copy.
pub fn effective_at(mem: &[u64], at: usize) -> usize
    requires { at + 68 ≤ length mem.now }
    ensures { Stands mem.now at result }
{
    if mem[at + 20] != 0 {
        return at + 20;
    }
    if mem[at + 32] != 0 {
        return at + 32;
    }
    at + 44
}
