// Calls, from another crate, of functions that no program calls, or that none calls so: no code but tests.
#![tactic(auto)]

#[cfg(test)]
mod tests;
