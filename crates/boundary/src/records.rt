// Records out of the bytes and words that a host lends (document 01, "Taken from the repository", "Amounts"). Any bytes and words mean
// something, so nothing is asked of them.
ghost use Rattle.std.specs.Prelude.{◌≡◌, length};
ghost use Rattle.block.specs.Records.{block_means, copy_means};
ghost use Rattle.boundary.specs.Lent.{block_meant, copy_meant};

use block::{Block, Competing, Copy, Header, Kept, Time, Why};

fn copy_of(words: &[u64]) -> Copy
    requires { length words.now ≡ 12 }
    ensures { copy_means result ≡ copy_meant words.now }
{
    match rows::read_copy(words, 0) {
        Kept::Copy(c) => c,
        Kept::None => Copy {
            orphaned: false,
            canonical: false,
            time: Time::None,
            reason: Why::None,
            competing: Competing::None,
        },
    }
}

// What a store keeps beside the header, of its twelve words.
fn copy_from(words: &[u64; 12]) -> Copy
    ensures { copy_means result ≡ copy_meant words.now }
{
    copy_of(words)
}

// The record of a hash's bytes, its numbers, the previous hash's bytes, the texts of target and actual, and the words of its copy.
pub fn block_from(
    hash: &[u8; 32],
    index: u64,
    epoch: u64,
    prev: &[u8; 32],
    target: &[u8],
    actual: &[u8],
    copy: &[u64; 12],
) -> Block
    ensures { block_means result ≡ block_meant hash.now index epoch prev.now target.now actual.now copy.now }
{
    let h = hash::from_bytes(hash);
    let v = hash::from_bytes(prev);
    let t = amount::read(target);
    let a = amount::read(actual);
    let c = copy_from(copy);
    Block {
        header: Header {
            hash: h,
            index,
            epoch,
            prev: v,
            target: t,
            actual: a,
        },
        copy: c,
    }
}
