// Questions (docs/HISTORY.md, "Calls and their answers"): they ask the holdings, the tree or nothing, and write no
// memory.
use crate::answers;
use crate::calls::Question;
use std::io;

pub fn ask(rt: &impl Print, question: Question, mem: &[u64]) -> io::Result<()> {
    match question {
        Question::Count => answers::counted(rt, cadraspes::effective_count(mem)),
        Question::Generation => answers::counted(rt, cadraspes::generation(mem)),
        Question::Version => answers::counted(rt, cadraspes::version(mem)),
        Question::Live => answers::counted(rt, cadraspes::live_count(mem)),
        Question::CanonicalCount => answers::counted(rt, cadraspes::canonical_count(mem)),
        Question::Best => answers::tip(rt, cadraspes::best(mem)),
        Question::CanonicalBest => answers::tip(rt, cadraspes::canonical_best(mem)),
        Question::Effective(h) => answers::shown(rt, cadraspes::effective(mem, h)),
        Question::Node(h) => answers::shown(rt, cadraspes::node(mem, h)),
        Question::Parent(h) => answers::shown(rt, cadraspes::parent(mem, h)),
        Question::Linked(h) => answers::worth(rt, cadraspes::linked(mem, h)),
        Question::CanonicalLinked(h) => answers::worth(rt, cadraspes::canonical_linked(mem, h)),
        // these two ask no memory but whether there was a start
        _ if memory::room(mem) == 0 => answers::no_start(rt),
        Question::Choose(local, peer) => answers::chosen(rt, cadraspes::choose(local, peer)),
        Question::Amount(r) => answers::reading(rt, r),
    }
}
