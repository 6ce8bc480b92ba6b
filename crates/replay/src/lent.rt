// What a history works on, and the calls that work on it (docs/HISTORY.md, "Calls and their answers"). A line that is
// no call changes nothing.
use crate::calls::{Call, Terms};
use crate::{answers, calls, lists, questions};
use block::Done;
use std::io;

// The memory and the lists that are lent to the library, and how long later lists are lent.
#[derive(Drop)]
pub struct Lent<'a> {
    pub mem: &'a mut [u64],
    pub list: &'a mut [u8],
    pub entries: &'a mut [u64],
    pub length: u64,
}

impl<'a> Lent<'a> {
    // An accepted start lends lists as long as could be needed.
    fn start(
        &mut self,
        rt: &impl Print,
        hashes: u64,
        journal: u64,
        generation: u64,
        version: u64,
    ) -> io::Result<()> {
        let given = cadraspes::start(self.mem, hashes, journal, generation, version);
        if let Done::Done = given {
            self.length = u64::MAX;
        }
        answers::begun(rt, given)
    }

    fn leaves(&mut self, rt: &impl Print) -> io::Result<()> {
        let n = lists::lent_bytes(self.list.len(), self.length);
        let given = cadraspes::leaves(self.mem, &mut self.list[..n]);
        answers::listed(rt, given, self.list)
    }

    fn changes(&mut self, rt: &impl Print, generation: u64, version: u64) -> io::Result<()> {
        let n = lists::lent_bytes(self.list.len(), self.length);
        // (Lent to be written, though it is only read: else no proof is found beside a list that is written.)
        let mem = &mut *self.mem;
        let given = cadraspes::changes(mem, generation, version, &mut self.list[..n]);
        answers::listed(rt, given, self.list)
    }

    fn select(&mut self, rt: &impl Print, t: Terms) -> io::Result<()> {
        let n = lists::lent_words(self.entries.len(), self.length);
        let given = cadraspes::select(self.mem, t.floor, t.n, t.clock, &mut self.entries[..n]);
        answers::planned(rt, given, self.entries)
    }

    fn adopt(&mut self, rt: &impl Print, t: Terms) -> io::Result<()> {
        let n = lists::lent_words(self.entries.len(), self.length);
        let given = cadraspes::adopt(self.mem, t.floor, t.n, t.clock, &mut self.entries[..n]);
        answers::planned(rt, given, self.entries)
    }

    fn lend(&mut self, rt: &impl Print, length: u64) -> io::Result<()> {
        if memory::room(self.mem) == 0 {
            return answers::no_start(rt);
        }
        self.length = length;
        answers::done(rt, Done::Done)
    }

    fn make(&mut self, rt: &impl Print, call: Call) -> io::Result<()> {
        match call {
            Call::Start {
                hashes,
                journal,
                generation,
                version,
            } => self.start(rt, hashes, journal, generation, version),
            Call::Reload {
                generation,
                version,
            } => answers::done(rt, cadraspes::reload(self.mem, generation, version)),
            Call::Load(store, b) => answers::done(rt, cadraspes::load(self.mem, store, b)),
            Call::Put(store, b) => answers::done(rt, cadraspes::put(self.mem, store, b)),
            Call::Remove(store, h) => answers::done(rt, cadraspes::remove(self.mem, store, h)),
            Call::Answer(h, value) => answers::done(rt, cadraspes::answer(self.mem, h, value)),
            Call::Sync => answers::done(rt, cadraspes::sync(self.mem)),
            Call::Leaves => self.leaves(rt),
            Call::Changes {
                generation,
                version,
            } => self.changes(rt, generation, version),
            Call::Select(terms) => self.select(rt, terms),
            Call::Adopt(terms) => self.adopt(rt, terms),
            Call::Lend(length) => self.lend(rt, length),
            Call::Ask(question) => questions::ask(rt, question, self.mem),
        }
    }

    // An empty line and a remark answer nothing.
    pub fn answer(&mut self, rt: &impl Print, line: &[u8]) -> io::Result<()> {
        if let [] | [b'#', ..] = line {
            return Ok(());
        }
        match calls::read(line) {
            Some(call) => self.make(rt, call),
            None => answers::no_call(rt),
        }
    }
}
