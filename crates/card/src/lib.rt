// The desk card: a resolved profile, written by the room server and read by each desk.
#![tactic(auto)]

pub mod reading;
pub mod writing;
