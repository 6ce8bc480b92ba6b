// Answers as words that a host lends (document 01, "Numbers given back"): a number, and the words that say the rest. A refusal writes
// nothing. (Each writes through a slice, since the length of an array behind a reference is known only where it is made one.)
ghost use Rattle.std.specs.Prelude.{◌≡◌, length};
ghost use Rattle.amount.specs.Value.{meant};
ghost use Rattle.boundary.specs.Told.{AmountTold, BlockWritten, CountTold, ListTold, ShownTold};
ghost use Rattle.boundary.specs.ToldTree.{TipTold, WorthTold};
ghost use Rattle.amount.specs.Choose.{◌if◌else◌};

use amount::Reading;
use block::{Block, Counted, Listed, Shown, Tip, Worth};

pub fn tell_count(x: Counted, out: &mut u64) -> u64
    ensures { CountTold x out.old out.new result }
{
    match x {
        Counted::Count(n) => {
            *out = n;
            0
        }
        Counted::Refused(y) => block::numbers::refusal_number(y),
    }
}

fn write_block(out: &mut [u64], b: Block)
    requires { length out.old ≡ 29 }
    ensures { BlockWritten b out.new }
{
    out[0] = 1;
    rows::write_header(out, 1, b.header);
    rows::write_copy(out, 17, b.copy);
}

fn write_shown(x: Shown, out: &mut [u64]) -> u64
    requires { length out.old ≡ 29 }
    ensures { ShownTold x out.old out.new result }
{
    match x {
        Shown::Block(b) => {
            write_block(out, b);
            0
        }
        Shown::None => {
            out[0] = 0;
            0
        }
        Shown::Refused(y) => block::numbers::refusal_number(y),
    }
}

pub fn tell_shown(x: Shown, out: &mut [u64; 29]) -> u64
    ensures { ShownTold x out.old out.new result }
{
    write_shown(x, out)
}

fn kind_of(ok: bool) -> u64
    ensures { result ≡ (2 if ok else 1) }
{
    if ok {
        return 2;
    }
    1
}

fn write_worth(x: Worth, out: &mut [u64]) -> u64
    requires { length out.old ≡ 3 }
    ensures { WorthTold x out.old out.new result }
{
    match x {
        Worth::Linked(work, ok) => {
            let w = amount::to_words(work);
            out[0] = kind_of(ok);
            out[1] = w.first;
            out[2] = w.second;
            0
        }
        Worth::None => {
            out[0] = 0;
            out[1] = 0;
            out[2] = 0;
            0
        }
        Worth::Refused(y) => block::numbers::refusal_number(y),
    }
}

pub fn tell_worth(x: Worth, out: &mut [u64; 3]) -> u64
    ensures { WorthTold x out.old out.new result }
{
    write_worth(x, out)
}

pub fn tell_tip(x: Tip, out: &mut [u64; 29], value: &mut [u64; 3]) -> u64
    ensures { TipTold x out.old out.new value.old value.new result }
{
    match x {
        Tip::Best(b, work, ok) => {
            tell_shown(Shown::Block(b), out);
            tell_worth(Worth::Linked(work, ok), value)
        }
        Tip::None => {
            tell_shown(Shown::None, out);
            tell_worth(Worth::None, value)
        }
        Tip::Refused(y) => block::numbers::refusal_number(y),
    }
}

fn write_listed(x: Listed, out: &mut [u64]) -> u64
    requires { length out.old ≡ 2 }
    ensures { ListTold x out.old out.new result }
{
    match x {
        Listed::Count(n) => {
            out[0] = 1;
            out[1] = n as u64;
            0
        }
        Listed::None => {
            out[0] = 0;
            out[1] = 0;
            0
        }
        Listed::Refused(y) => block::numbers::refusal_number(y),
    }
}

pub fn tell_listed(x: Listed, out: &mut [u64; 2]) -> u64
    ensures { ListTold x out.old out.new result }
{
    write_listed(x, out)
}

fn write_amount(x: Reading, out: &mut [u64])
    requires { length out.old ≡ 3 }
    ensures { AmountTold (meant x) out.new }
{
    match x {
        Reading::Readable(a) => {
            let w = amount::to_words(a);
            out[0] = 1;
            out[1] = w.first;
            out[2] = w.second;
        }
        Reading::Unreadable => {
            out[0] = 0;
            out[1] = 0;
            out[2] = 0;
        }
    }
}

pub fn tell_amount(x: Reading, out: &mut [u64; 3])
    ensures { AmountTold (meant x) out.new }
{
    write_amount(x, out);
}
