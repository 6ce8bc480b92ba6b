// The numbers of stores, eligibility answers, refusals and accepted calls (document 01, "Holding blocks", "Standing in the tree",
// "Numbers given back").
ghost use Rattle.block.specs.Answers.{
  answer_at,
  answer_number,
  answered_means,
  done_number,
  refusal_number,
  store_at,
  store_number,
  stored_means,
};
ghost use Rattle.std.specs.Prelude.{◌≡◌};

use crate::{Answer, Answered, Done, Refusal, Store, Stored};

pub fn store_number(k: Store) -> u64
    ensures { result ≡ store_number k }
{
    match k {
        Store::Active => 0,
        Store::Forks => 1,
        Store::Canon => 2,
    }
}

pub fn store_of(n: u64) -> Stored
    ensures { stored_means result ≡ store_at n }
{
    match n {
        0 => Stored::In(Store::Active),
        1 => Stored::In(Store::Forks),
        2 => Stored::In(Store::Canon),
        _ => Stored::NoSuch,
    }
}

pub fn answer_number(a: Answer) -> u64
    ensures { result ≡ answer_number a }
{
    match a {
        Answer::Eligible => 0,
        Answer::ForNow => 1,
        Answer::Ineligible => 2,
    }
}

pub fn answer_of(n: u64) -> Answered
    ensures { answered_means result ≡ answer_at n }
{
    match n {
        0 => Answered::With(Answer::Eligible),
        1 => Answered::With(Answer::ForNow),
        2 => Answered::With(Answer::Ineligible),
        _ => Answered::NoSuch,
    }
}

pub fn refusal_number(x: Refusal) -> u64
    ensures { result ≡ refusal_number x }
{
    match x {
        Refusal::Room => 1,
        Refusal::Kind => 2,
        Refusal::Index => 3,
        Refusal::Header => 4,
        Refusal::Full => 5,
        Refusal::Version => 6,
        Refusal::Loaded => 7,
        Refusal::Generation => 8,
        Refusal::Unknown => 9,
        Refusal::Value => 10,
        Refusal::Final => 11,
        Refusal::Stale => 12,
        Refusal::List => 13,
    }
}

pub fn done_number(x: Done) -> u64
    ensures { result ≡ done_number x }
{
    match x {
        Done::Done => 0,
        Done::Refused(y) => refusal_number(y),
    }
}
