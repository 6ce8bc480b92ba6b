// Load and put (document 01, "Holding blocks", "Numbers given back"): where a record goes, refusals in their order, and the steps.
#![tactic(auto)]

ghost use Rattle.std.specs.Prelude.{◌≡◌, ◌≤◌, ◌<◌};
ghost use Rattle.block.specs.Answers.{done_number};
ghost use Rattle.block.specs.Records.{block_means, header_means};
ghost use Rattle.arrivals.specs.Calls.{Within};
ghost use Rattle.arrivals.specs.Seats.{Below, Known, Roomy, Seats};
ghost use Rattle.memory.specs.Layout.{Laid};
ghost use Rattle.memory.specs.Words.{word};
ghost use Rattle.model.specs.Numbers as numbers;
ghost use Rattle.model.specs.Record.{Block as Stored};
ghost use Rattle.state.specs.Moves as moves;
ghost use Rattle.state.specs.Sound.{SoundAt};
ghost use Rattle.state.specs.View.{view_at};

use block::{Block, Done, Header, Refusal};

// Where a record goes: refused, in the room that its hash has, or in new room.
#[derive(Clone, Copy)]
pub enum Seated {
    No(Refusal),
    Old(usize),
    New(usize),
}

// Where a record goes. The refusals that a load and a put share, in their order: 3, 4, 5.
fn seat(mem: &[u64], n: usize, header: Header) -> Seated
    requires { Laid mem.now n }
    ensures below { Below n result }
    ensures right { SoundAt mem.now n → (b : Stored) → b.header ≡ header_means header → Seats b (view_at mem.now n) result }
{
    if header.index == 18446744073709551615 {
        return Seated::No(Refusal::Index);
    }
    let h = header.hash;
    let p = state::find(mem, n, h.first, h.second, h.third, h.fourth);
    if p < n {
        let old = rows::read_header(mem, 64 + 68 * p + 4);
        if !block::headers::same_header(old, header) {
            return Seated::No(Refusal::Header);
        }
        return Seated::Old(p);
    }
    let q = state::free_place(mem, n);
    if n <= q {
        return Seated::No(Refusal::Full);
    }
    Seated::New(q)
}

fn put_old(mem: &mut [u64], n: usize, p: usize, store: u64, b: Block) -> Done
    requires { Laid mem.old n × (p < n) }
    ensures { store ≤ 2 → (SoundAt mem.old n → Known (block_means b) (view_at mem.old n) p) → Within (numbers.put store (block_means b)) mem.old mem.new n (done_number result) }
{
    if mem[3] == 18446744073709551615 {
        return Done::Refused(Refusal::Version);
    }
    places::replace(mem, n, p, store, b.copy);
    let h = b.header.hash;
    journal::touch(mem, n, h.first, h.second, h.third, h.fourth);
    Done::Done
}

fn put_new(mem: &mut [u64], n: usize, p: usize, store: u64, b: Block) -> Done
    requires { Laid mem.old n × (p < n) }
    ensures { store ≤ 2 → (SoundAt mem.old n → Roomy (block_means b) (view_at mem.old n) p) → Within (numbers.put store (block_means b)) mem.old mem.new n (done_number result) }
{
    if mem[3] == 18446744073709551615 {
        return Done::Refused(Refusal::Version);
    }
    places::admit(mem, n, p, store, b.header, b.copy);
    let h = b.header.hash;
    journal::touch(mem, n, h.first, h.second, h.third, h.fourth);
    Done::Done
}

fn put_in(mem: &mut [u64], n: usize, store: u64, b: Block) -> Done
    requires { Laid mem.old n }
    ensures { Within (numbers.put store (block_means b)) mem.old mem.new n (done_number result) }
{
    if 2 < store {
        return Done::Refused(Refusal::Kind);
    }
    match seat(mem, n, b.header) {
        Seated::No(x) => {
            return Done::Refused(x);
        }
        Seated::Old(p) => {
            return put_old(mem, n, p, store, b);
        }
        Seated::New(p) => {
            return put_new(mem, n, p, store, b);
        }
    }
}

// A record goes into its store, in the room of its hash or in new room.
pub fn put(mem: &mut [u64], store: u64, b: Block) -> Done
    ensures { moves.Done (numbers.put store (block_means b)) mem.old mem.new (done_number result) }
{
    let n = memory::room(mem);
    if n == 0 {
        return Done::Refused(Refusal::Room);
    }
    put_in(mem, n, store, b)
}

fn load_old(mem: &mut [u64], n: usize, p: usize, store: u64, b: Block)
    requires { Laid mem.old n × (p < n) }
    ensures { word mem.old 6 ≡ 1 → store ≤ 2 → (SoundAt mem.old n → Known (block_means b) (view_at mem.old n) p) → Within (numbers.load store (block_means b)) mem.old mem.new n 0 }
{
    places::replace(mem, n, p, store, b.copy);
    mem[7] = 0;
}

fn load_new(mem: &mut [u64], n: usize, p: usize, store: u64, b: Block)
    requires { Laid mem.old n × (p < n) }
    ensures { word mem.old 6 ≡ 1 → store ≤ 2 → (SoundAt mem.old n → Roomy (block_means b) (view_at mem.old n) p) → Within (numbers.load store (block_means b)) mem.old mem.new n 0 }
{
    places::admit(mem, n, p, store, b.header, b.copy);
    mem[7] = 0;
}

fn load_in(mem: &mut [u64], n: usize, store: u64, b: Block) -> Done
    requires { Laid mem.old n }
    ensures { Within (numbers.load store (block_means b)) mem.old mem.new n (done_number result) }
{
    if mem[6] != 1 {
        return Done::Refused(Refusal::Loaded);
    }
    if 2 < store {
        return Done::Refused(Refusal::Kind);
    }
    match seat(mem, n, b.header) {
        Seated::No(x) => {
            return Done::Refused(x);
        }
        Seated::Old(p) => {
            load_old(mem, n, p, store, b);
            return Done::Done;
        }
        Seated::New(p) => {
            load_new(mem, n, p, store, b);
            return Done::Done;
        }
    }
}

// A record goes in as by a put, without a touch, while loads are still taken.
pub fn load(mem: &mut [u64], store: u64, b: Block) -> Done
    ensures { moves.Done (numbers.load store (block_means b)) mem.old mem.new (done_number result) }
{
    let n = memory::room(mem);
    if n == 0 {
        return Done::Refused(Refusal::Room);
    }
    load_in(mem, n, store, b)
}
