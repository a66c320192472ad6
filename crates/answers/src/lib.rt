// What the answer of a resolve is, and one component of it.
#![tactic(auto)]

pub mod components;

// The answer of a resolve, as the definitions tell it: number 0, place 0 and the lengths of the ten texts; or a refusal's number and place, and ten zeros.
#[derive(Clone, Copy)]
pub struct Outcome {
    pub number: usize,
    pub place: usize,
    pub lengths: [u32; 10],
}
