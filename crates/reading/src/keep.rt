// The rule that is kept for each layout of a set, by the place behind its left words.
ghost use Rattle.std.specs.Prelude.{◌≡◌, ◌+◌, ◌≤◌, length};
ghost use Rattle.values.specs.Expanding.{as_profile};
ghost use Rattle.firing.specs.Rule.{Fires};
ghost use Rattle.reading.specs.Keeping.{most_places, Noted, KeptPlaces, KeptFired};

use super::OpenSet;
use bitsets::contains;
use firing::Cursors;
use firing::rule::{RightSide, fire_line};
use text::Spot;
use text::source::Source;
use values::Values;

// `place` is kept at the layouts of m, of the set's.
pub fn keep_rule(places: &mut [usize; 33], o: &OpenSet, m: u64, place: usize)
    requires { o.now.first + o.now.count ≤ most_places }
    ensures { Noted o.now.first o.now.count m place places.old places.new }
{
    for k in o.first..o.first + o.count {
        if contains(m, k) {
            places[k] = place;
        }
    }
}

// The kept rules fire, layout by layout.
pub fn fire_kept(
    src: &Source,
    o: &OpenSet,
    places: &[usize; 33],
    values: &Values,
    scratch: &mut [u8],
    buf: &mut [u8],
    q: Cursors,
) -> Cursors
    requires { KeptPlaces o.now src.now.bytes.now places.now × Fires values.now.n 0 scratch.old buf.old q }
    ensures { KeptFired (as_profile values.now) o.now src.now.bytes.now places.now buf.old buf.new q result
        × (length scratch.new ≡ length scratch.old) }
{
    let mut cursors = q;
    for k in o.first..o.first + o.count {
        if contains(o.wanted, k) {
            continue;
        }
        let right = RightSide {
            components: o.set.components.items(),
            k,
        };
        let from = Spot {
            at: places[k],
            line: 0,
        };
        cursors = fire_line(src, from, &right, values, scratch, buf, cursors);
    }
    cursors
}
