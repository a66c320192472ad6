// The four texts of a profile: refusals 1 and 2, and the fields of a text.
#![tactic(auto)]

pub mod fields;
pub mod limits;
pub mod texts;
