// The resolve of a rules file for a profile.
#![tactic(auto)]

pub mod resolving;
