// Right-hand values, expanded for a profile and a layout.
#![tactic(auto)]

ghost use Rattle.std.specs.Prelude.{◌≤◌};
ghost use Rattle.profile.specs.Spans.{Placed};

pub mod expand;
pub mod fill;
pub mod spread;
pub mod write;

use text::Span;

// The profile's values in one text: the places of the model, 32 layouts and 32 variants, and the layout count n.
#[derive(Clone, Copy)]
pub struct Values<'a> {
    pub text: &'a [u8],
    pub bounds: &'a [Span; 65],
    pub n: usize,
    pub ghost placed: { Placed text.now bounds.now },
    pub ghost few: { n ≤ 32 },
}
