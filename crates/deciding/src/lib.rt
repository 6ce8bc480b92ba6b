// What both plans ask of the tree (document 01, "The two plans"): the two tips, whether canonical blocks are as many as the local walk has places,
// and of a block or a comparison what they decide by.
#![tactic(auto)]

ghost use Rattle.std.specs.Prelude.{not, true, ◌≡◌, suc, ◌<◌, eqb};
ghost use Rattle.asking.specs.Whole.{WholeAt};
ghost use Rattle.asking.specs.Within.{Top};
ghost use Rattle.block.specs.Answers.{choice_means};
ghost use Rattle.memory.specs.Layout.{Laid};
ghost use Rattle.memory.specs.Words.{word};
ghost use Rattle.model.specs.Comparing.{is_adopted};
ghost use Rattle.model.specs.Holding.{index_of};
ghost use Rattle.model.specs.Standing.{canonical_count, proofs_ok};
ghost use Rattle.model.specs.Walks.{cell_covers};
ghost use Rattle.values.specs.Values.{spine_of, value_means};
ghost use Rattle.state.specs.Sound.{SoundAt, Used};
ghost use Rattle.state.specs.View.{cells_of, values_of, view_at};

use block::{Choice, Outcome};
use values::Value;

// The place of best, or of canonical best; a number from n on where there is none.
pub fn tip(mem: &[u64], n: usize, canonical: bool) -> usize
    requires { Laid mem.now n }
    ensures { WholeAt mem.now n → word mem.now 7 ≡ 1 → Top (spine_of canonical) mem.now n result }
{
    if canonical {
        return contest::best(mem, n, 1);
    }
    contest::best(mem, n, 0)
}

// Whether canonical blocks are not as many as the local walk has places, so that some may be off it.
pub fn wide(mem: &[u64], n: usize, local: usize) -> bool
    requires { Laid mem.now n × (local < n) }
    ensures { SoundAt mem.now n → Used mem.now local → result ≡ not (eqb (canonical_count (view_at mem.now n).holdings) (suc (index_of ((view_at mem.now n).holdings.cells local)))) }
{
    let count = mem[13];
    if count == 0 {
        return true;
    }
    count - 1 != mem[64 + 68 * local + 12]
}

// Whether the block at p covers its nomination epoch.
pub fn covers_at(mem: &[u64], n: usize, p: usize, per_epoch: u64) -> bool
    requires { Laid mem.now n × (p < n) }
    ensures { Used mem.now p → result ≡ cell_covers per_epoch (cells_of mem.now n p) }
{
    let at = 64 + 68 * p;
    choice::covers(mem[at + 12], mem[at + 13], per_epoch)
}

pub fn proven(v: Value) -> bool
    ensures { result ≡ proofs_ok (value_means v) }
{
    match v {
        Value::None => {
            return false;
        }
        Value::Linked(_, ok) => {
            return ok;
        }
    }
}

// Whether the canonical linked value at p has proofs that are ok.
pub fn proven_at(mem: &[u64], n: usize, p: usize) -> bool
    requires { Laid mem.now n × (p < n) }
    ensures { result ≡ proofs_ok (values_of mem.now n (spine_of true) p) }
{
    proven(values::read(mem, 64 + 68 * p + 60))
}

pub fn adopted(c: Choice) -> bool
    ensures { result ≡ is_adopted (choice_means c).outcome }
{
    let o = c.outcome;
    match o {
        Outcome::Equal => {
            return false;
        }
        Outcome::KeepLocal => {
            return false;
        }
        Outcome::AdoptPeer => {
            return true;
        }
    }
}
