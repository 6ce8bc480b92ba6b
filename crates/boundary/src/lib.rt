// What crosses to a host (document 01, "Numbers given back"): records as they come in, answers as they go out, as bytes and words that a host lends.
#![tactic(auto)]

pub mod comparing;
pub mod planning;
pub mod records;
pub mod telling;
