// The right words of a rule's line, fired with the profile's values.
ghost use Rattle.std.specs.Prelude.{◌≡◌, ◌≤◌, length, drop};
ghost use Rattle.text.specs.Limits.{longest_word};
ghost use Rattle.text.specs.Reading.{left};
ghost use Rattle.text.specs.Sources.{Within};
ghost use Rattle.values.specs.Spread.{expanded};
ghost use Rattle.values.specs.Expanding.{as_profile};
ghost use Rattle.firing.specs.Writing.{FiredOne, FiredRule, BehindFirst};
ghost use Rattle.firing.specs.Rule.{Fires, RightWords};

use super::writing::fire;
use super::{Cursors, LONGEST_TOTAL};
use text::Spot;
use text::source::{Next, Source};
use values::Values;
use values::fill::has_percent;

// The right side of a set's rules at a layout: the components, and the matched layout k.
#[derive(Clone, Copy)]
pub struct RightSide<'a> {
    pub components: &'a [usize],
    pub k: usize,
}

// A right word of a rule at the layout k fires, unless there is no room for sure. Its value is made in `scratch` if it has percent signs.
fn fire_value(
    word: &[u8],
    component: usize,
    k: usize,
    values: &Values,
    scratch: &mut [u8],
    buf: &mut [u8],
    q: Cursors,
) -> Cursors
    requires { Fires values.now.n k scratch.old buf.old q × (length word.now ≤ longest_word) }
    ensures { FiredOne buf.old buf.new q result component (expanded (as_profile values.now) k word.now)
        × (length scratch.new ≡ length scratch.old) }
{
    let full = LONGEST_TOTAL < q.total;
    if full {
        return q;
    }
    if !has_percent(word) {
        return fire(word, values.n, component, buf, q);
    }
    let length = values.fill_word(word, k, scratch);
    fire(&scratch[..length], values.n, component, buf, q)
}

// Behind the first word of a line from `from` on; at `from` itself, if it has none.
fn behind_first(src: &Source, from: Spot) -> Spot
    requires { Within src.now.bytes.now from.at from.line }
    ensures { BehindFirst src.now.bytes.now from.at from.line result.at result.line }
{
    match src.word_at(from) {
        Next::Found { end, line, .. } => Spot { at: end, line },
        Next::Stop { .. } => from,
    }
}

// The words of a line from `from` on fire for the components in turn.
fn fire_words(
    src: &Source,
    from: Spot,
    right: &RightSide,
    values: &Values,
    scratch: &mut [u8],
    buf: &mut [u8],
    q: Cursors,
) -> Cursors
    requires { Within src.now.bytes.now from.at from.line × RightWords (left src.now.bytes.now from.at) right.now.components.now
        × Fires values.now.n right.now.k scratch.old buf.old q }
    ensures { FiredRule (as_profile values.now) buf.old buf.new q result right.now.k
        right.now.components.now (left src.now.bytes.now from.at) × (length scratch.new ≡ length scratch.old) }
{
    let mut next = q;
    let mut here = from;
    let components = right.components;
    for component in components {
        match src.word_at(here) {
            Next::Found {
                start,
                end,
                line,
                ..
            } => {
                let word = src.word(start, end);
                next = fire_value(word, *component, right.k, values, scratch, buf, next);
                here = Spot { at: end, line };
            }
            // not met: there are as many words
            Next::Stop { .. } => return next,
        }
    }
    next
}

// A rule's line from its `=` on, which stands behind `from`: its right words fire for the components in turn.
pub fn fire_line(
    src: &Source,
    from: Spot,
    right: &RightSide,
    values: &Values,
    scratch: &mut [u8],
    buf: &mut [u8],
    q: Cursors,
) -> Cursors
    requires { Within src.now.bytes.now from.at from.line × RightWords (drop 1 (left src.now.bytes.now from.at)) right.now.components.now
        × Fires values.now.n right.now.k scratch.old buf.old q }
    ensures { FiredRule (as_profile values.now) buf.old buf.new q result right.now.k
        right.now.components.now (drop 1 (left src.now.bytes.now from.at)) × (length scratch.new ≡ length scratch.old) }
{
    let behind = behind_first(src, from);
    fire_words(src, behind, right, values, scratch, buf, q)
}
