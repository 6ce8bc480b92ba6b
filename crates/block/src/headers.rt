// When two headers are the same (document 01, "Amounts" and "Numbers given back", 4 HEADER).
ghost use Rattle.amount.specs.Amounts.{same_amount};
ghost use Rattle.amount.specs.Value.{meant};
ghost use Rattle.block.specs.Records.{header_means};
ghost use Rattle.model.specs.Record.{same_header};
ghost use Rattle.std.specs.Prelude.{◌≡◌};

use crate::Header;
use amount::{Order, Reading};

// Two texts with one value, or two unreadable ones.
fn same_reading(a: Reading, b: Reading) -> bool
    ensures { result ≡ same_amount (meant a) (meant b) }
{
    match a {
        Reading::Readable(x) => match b {
            Reading::Readable(y) => match amount::compare(x, y) {
                Order::Equal => true,
                Order::Less => false,
                Order::Greater => false,
            },
            Reading::Unreadable => false,
        },
        Reading::Unreadable => match b {
            Reading::Readable(_) => false,
            Reading::Unreadable => true,
        },
    }
}

pub fn same_header(a: Header, b: Header) -> bool
    ensures { result ≡ same_header (header_means a) (header_means b) }
{
    if !hash::same(a.hash, b.hash) {
        return false;
    }
    if a.index != b.index {
        return false;
    }
    if a.epoch != b.epoch {
        return false;
    }
    if !hash::same(a.prev, b.prev) {
        return false;
    }
    let target = a.target;
    let other = b.target;
    if !same_reading(target, other) {
        return false;
    }
    let actual = a.actual;
    let another = b.actual;
    same_reading(actual, another)
}
