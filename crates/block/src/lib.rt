// The plain types of all public calls (document 01, "Taken from the repository", "Numbers given back", "Forms that change"): records,
// stores, answers and refusals. specs/ says what each means in document 01's terms. `numbers` has their numbers, `words` what a lent
// memory keeps of them, `headers` when two headers are the same.
#![tactic(auto)]

use amount::{Amount, Reading};
use hash::Hash;

pub mod headers;
pub mod numbers;
pub mod words;

// ---- the record ----

#[derive(Clone, Copy)]
pub struct Header {
    pub hash: Hash,
    pub index: u64,
    pub epoch: u64,
    pub prev: Hash,
    pub target: Reading,
    pub actual: Reading,
}

#[derive(Clone, Copy)]
pub enum Time {
    None,
    At(i64),
}

// The kinds of sentence, with the numbers that each prints: the winner's first.
#[derive(Clone, Copy)]
pub enum Reason {
    SameTip(Hash),
    Neither,
    PeerOnly(Amount),
    LocalOnly(Amount),
    PeerWork(Amount, Amount),
    LocalWork(Amount, Amount),
    PeerTip(u64, u64),
    LocalTip(u64, u64),
    PeerHash,
    LocalHash,
    OffSpine,
    CompetingFork,
    StaleFork,
}

#[derive(Clone, Copy)]
pub enum Why {
    None,
    Because(Reason),
}

#[derive(Clone, Copy)]
pub enum Competing {
    None,
    With(Hash),
}

// What each store keeps of a record: two flags and the optional three.
#[derive(Clone, Copy)]
pub struct Copy {
    pub orphaned: bool,
    pub canonical: bool,
    pub time: Time,
    pub reason: Why,
    pub competing: Competing,
}

#[derive(Clone, Copy)]
pub struct Block {
    pub header: Header,
    pub copy: Copy,
}

// ---- stores and eligibility answers, which the host gives as numbers ----

#[derive(Clone, Copy)]
pub enum Store {
    Active,
    Forks,
    Canon,
}

#[derive(Clone, Copy)]
pub enum Stored {
    In(Store),
    NoSuch,
}

#[derive(Clone, Copy)]
pub enum Answer {
    Eligible,
    ForNow,
    Ineligible,
}

#[derive(Clone, Copy)]
pub enum Answered {
    With(Answer),
    NoSuch,
}

// ---- what is given back ----

#[derive(Clone, Copy)]
pub enum Refusal {
    Room,
    Kind,
    Index,
    Header,
    Full,
    Version,
    Loaded,
    Generation,
    Unknown,
    Value,
    Final,
    Stale,
    List,
}

// Of a call.
#[derive(Clone, Copy)]
pub enum Done {
    Done,
    Refused(Refusal),
}

// Of effective record, node and parent.
#[derive(Clone, Copy)]
pub enum Shown {
    Block(Block),
    None,
    Refused(Refusal),
}

// Of linked and canonical linked: work, and whether proofs are ok.
#[derive(Clone, Copy)]
pub enum Worth {
    Linked(Amount, bool),
    None,
    Refused(Refusal),
}

// Of best and canonical best: the block, its work, and whether its proofs are ok.
#[derive(Clone, Copy)]
pub enum Tip {
    Best(Block, Amount, bool),
    None,
    Refused(Refusal),
}

// Of the counts, generation and version.
#[derive(Clone, Copy)]
pub enum Counted {
    Count(u64),
    Refused(Refusal),
}

// Of leaves and changes: how many hashes stand in the lent list.
#[derive(Clone, Copy)]
pub enum Listed {
    Count(usize),
    None,
    Refused(Refusal),
}

// Of the two plans: scan, or `changed` and how many entries stand in the lent list.
#[derive(Clone, Copy)]
pub enum Planned {
    Scan,
    Apply(u64, usize),
    Refused(Refusal),
}

// ---- the comparison of two chains ----

#[derive(Clone, Copy)]
pub enum Work {
    Known(Amount),
    Unknown,
}

#[derive(Clone, Copy)]
pub struct Side {
    pub work: Work,
    pub index: u64,
    pub hash: Hash,
}

#[derive(Clone, Copy)]
pub enum Outcome {
    Equal,
    KeepLocal,
    AdoptPeer,
}

#[derive(Clone, Copy)]
pub struct Choice {
    pub outcome: Outcome,
    pub reason: Reason,
}

// ---- what a lent memory keeps, in groups of four words ----

#[derive(Clone, Copy)]
pub struct Quad {
    pub a: u64,
    pub b: u64,
    pub c: u64,
    pub d: u64,
}

#[derive(Clone, Copy)]
pub struct CopyWords {
    pub state: Quad,
    pub reason: Quad,
    pub competing: Quad,
}

#[derive(Clone, Copy)]
pub struct HeaderWords {
    pub hash: Quad,
    pub prev: Quad,
    pub numbers: Quad,
    pub amounts: Quad,
}

// What a memory keeps at a store of a hash.
#[derive(Clone, Copy)]
pub enum Kept {
    None,
    Copy(Copy),
}
