// Comparing two chains (document 01, "Comparing two chains"): which of them to follow and why, and whether a tip covers its nomination
// epoch. Nothing here is refused and nothing is kept: each answer follows from the arguments alone.
#![tactic(auto)]

ghost use Rattle.std.specs.Prelude.{◌+◌, ◌*◌, ◌≡◌};
ghost use Rattle.amount.specs.Value.{value};
ghost use Rattle.block.specs.Answers.{choice_means, side_means};
ghost use Rattle.block.specs.Records.{hash_means, reason_means};
ghost use Rattle.choice.specs.Parts.{Covering, by_hash, by_tip, by_total};
ghost use Rattle.model.specs.Comparing.{◌because◌, adopt_peer, choose_verified, keep_local, saturated};

use amount::{Amount, Order};
use block::{Choice, Outcome, Reason, Side, Work};
use hash::Hash;

const MAX: u64 = 0xffff_ffff_ffff_ffff;

// ---- the choice ----

fn adopt(reason: Reason) -> Choice
    ensures { choice_means result ≡ (adopt_peer because reason_means reason) }
{
    Choice {
        outcome: Outcome::AdoptPeer,
        reason,
    }
}

fn keep(reason: Reason) -> Choice
    ensures { choice_means result ≡ (keep_local because reason_means reason) }
{
    Choice {
        outcome: Outcome::KeepLocal,
        reason,
    }
}

// The lower hash.
fn by_hash(local: Hash, peer: Hash) -> Choice
    ensures { choice_means result ≡ by_hash (hash_means local) (hash_means peer) }
{
    if hash::less(peer, local) {
        return adopt(Reason::PeerHash);
    }
    keep(Reason::LocalHash)
}

// The greater tip index, then the hash.
fn by_tip(local: u64, ours: Hash, peer: u64, theirs: Hash) -> Choice
    ensures { choice_means result ≡ by_tip local peer (by_hash (hash_means ours) (hash_means theirs)) }
{
    if local < peer {
        return adopt(Reason::PeerTip(peer, local));
    }
    if peer < local {
        return keep(Reason::LocalTip(local, peer));
    }
    by_hash(ours, theirs)
}

// The greater work of two that are known; `rest` where they are the same.
fn by_total(local: Amount, peer: Amount, rest: Choice) -> Choice
    ensures { choice_means result ≡ by_total (value local) (value peer) (choice_means rest) }
{
    match amount::compare(local, peer) {
        Order::Less => {
            return adopt(Reason::PeerWork(peer, local));
        }
        Order::Greater => {
            return keep(Reason::LocalWork(local, peer));
        }
        Order::Equal => {
            return rest;
        }
    }
}

// Of two chains the one to follow, and why.
pub fn choose(local: Side, peer: Side) -> Choice
    ensures { choice_means result ≡ choose_verified (side_means local) (side_means peer) }
{
    let local_hash = local.hash;
    let peer_hash = peer.hash;
    if hash::same(local_hash, peer_hash) {
        return Choice {
            outcome: Outcome::Equal,
            reason: Reason::SameTip(local_hash),
        };
    }
    let ours = local.work;
    let theirs = peer.work;
    match ours {
        Work::Known(w) => match theirs {
            Work::Known(v) => {
                return by_total(w, v, by_tip(local.index, local_hash, peer.index, peer_hash));
            }
            Work::Unknown => {
                return keep(Reason::LocalOnly(w));
            }
        },
        Work::Unknown => match theirs {
            Work::Known(v) => {
                return adopt(Reason::PeerOnly(v));
            }
            Work::Unknown => {
                return keep(Reason::Neither);
            }
        },
    }
}

// ---- the nomination epoch ----

// A sum that saturates at 64 bits, ..
fn plus(a: u64, b: u64) -> u64
    ensures { result ≡ saturated (a + b) }
{
    if MAX - a < b {
        return MAX;
    }
    a + b
}

// .. and a product.
fn times(a: u64, b: u64) -> u64
    ensures { result ≡ saturated (a * b) }
{
    if b == 0 {
        return 0;
    }
    if MAX / b < a {
        return MAX;
    }
    a * b
}

// Whether a tip of this index and epoch covers its nomination epoch, with n blocks to an epoch.
pub fn covers(index: u64, epoch: u64, n: u64) -> bool
    ensures { Covering index epoch n result }
{
    if epoch < 2 {
        return true;
    }
    if n == 0 {
        return true;
    }
    plus(times(epoch - 2, n), n) <= plus(index, 1)
}
