// The comparison over the boundary (document 01, "Comparing two chains"): sides out of the words and bytes that a host lends, and a choice
// as six words. (Arrays become slices first, as in `telling`.)
ghost use Rattle.std.specs.Prelude.{◌≡◌, length};
ghost use Rattle.amount.specs.Choose.{◌if◌else◌};
ghost use Rattle.block.specs.Answers.{choice_means, outcome_means, side_means, work_means};
ghost use Rattle.block.specs.Records.{hash_means, reason_means};
ghost use Rattle.block.specs.Telling.{ReasonTold};
ghost use Rattle.block.specs.Words.{group};
ghost use Rattle.boundary.specs.Compared.{ChoiceTold, outcome_number, side_in, side_meant, work_in};

use block::{Choice, Competing, Copy, CopyWords, Outcome, Reason, Side, Time, Why, Work};
use hash::Hash;

// ---- sides ----

fn work_of(kind: u64, low: u64, high: u64) -> Work
    ensures { work_means result ≡ work_in kind low high }
{
    if kind == 1 {
        return Work::Known(amount::from_words(low, high));
    }
    Work::Unknown
}

fn side_of(words: &[u64], hash: Hash) -> Side
    requires { length words.now ≡ 4 }
    ensures { side_means result ≡ side_in words.now (hash_means hash) }
{
    Side {
        work: work_of(words[0], words[1], words[2]),
        index: words[3],
        hash,
    }
}

// One chain, of its four words and its tip's hash.
pub fn side_from(words: &[u64; 4], hash: &[u8; 32]) -> Side
    ensures { side_means result ≡ side_meant words.now hash.now }
{
    let h = hash::from_bytes(hash);
    side_of(words, h)
}

// ---- a choice ----

fn outcome_number(x: Outcome) -> u64
    ensures { result ≡ outcome_number (outcome_means x) }
{
    match x {
        Outcome::Equal => 0,
        Outcome::KeepLocal => 1,
        Outcome::AdoptPeer => 2,
    }
}

// The words of a copy with this reason and nothing else: a host reads a choice's reason as it reads a block's.
fn reason_words(reason: Reason) -> CopyWords
    ensures { ReasonTold (reason_means reason) result.state.d (group result.reason) }
{
    block::words::copy_words(Copy {
        orphaned: false,
        canonical: false,
        time: Time::None,
        reason: Why::Because(reason),
        competing: Competing::None,
    })
}

fn write_choice(c: Choice, out: &mut [u64])
    requires { length out.old ≡ 6 }
    ensures { ChoiceTold (choice_means c) out.new }
{
    let outcome = c.outcome;
    let reason = c.reason;
    let words = reason_words(reason);
    let s = words.state;
    let g = words.reason;
    out[0] = outcome_number(outcome);
    out[1] = s.d;
    memory::four(out, 2, g.a, g.b, g.c, g.d);
}

pub fn tell_choice(c: Choice, out: &mut [u64; 6])
    ensures { ChoiceTold (choice_means c) out.new }
{
    write_choice(c, out);
}

// ---- covering ----

pub fn flag(is: bool) -> u64
    ensures { result ≡ (1 if is else 0) }
{
    if is {
        return 1;
    }
    0
}
