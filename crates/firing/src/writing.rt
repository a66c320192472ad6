// Values fired into ten regions of one lent buffer, through ten cursors.
ghost use Rattle.std.specs.Prelude.{◌≡◌, cond, ◌+◌, ◌*◌, ◌≤◌, ◌<◌, length};
ghost use Rattle.text.specs.Limits.{longest_total};
ghost use Rattle.text.specs.Bytes.{concat_map};
ghost use Rattle.output.specs.Store.{farthest};
ghost use Rattle.values.specs.Spread.{cuts, spread};
ghost use Rattle.answers.specs.Answer.{sum};
ghost use Rattle.firing.specs.Writing.{FiredOne, Low, starts};

use super::{Cursors, Sums};
use values::spread::{is_signed, put_spread};

// The region that a value of a component is written into.
fn region(component: usize, addition: bool) -> usize
    requires { component ≤ 4 }
    ensures { result ≡ cond addition (2 * component + 1) (2 * component) }
{
    2 * component + usize::from(addition)
}

// A value of a component fires: `t` is its text with the profile's values put in, `n` the number of layouts.
pub fn fire(t: &[u8], n: usize, component: usize, buf: &mut [u8], q: Cursors) -> Cursors
    requires { (1 ≤ n) × (n < 10) × (length t.now ≤ farthest) × (length buf.old ≤ farthest) × Low q.at × (q.total ≤ longest_total) }
    ensures { FiredOne buf.old buf.new q result component (concat_map (spread n) (cuts t.now)) }
{
    let mut next = q;
    if 4 < component {
        return next;
    }
    if t.is_empty() {
        return next;
    }
    let addition = is_signed(t);
    if !addition && next.based[component] {
        return next;
    }
    let r = region(component, addition);
    let from = next.at[r];
    let end = put_spread(t, n, buf, from);
    next.at[r] = end;
    next.total += end - from;
    if addition {
        return next;
    }
    next.based[component] = true;
    next
}

// Where each of ten texts of these lengths starts, and where the last ends.
pub fn places(lengths: [u32; 10]) -> Sums
    requires { Low lengths }
    ensures { (result.at ≡ starts 0 lengths) × (result.total ≡ sum lengths) }
{
    let mut at: [u32; 10] = [0; 10];
    let mut total: u32 = 0;
    for (i, n) in lengths.iter().enumerate() {
        at[i] = total;
        total += *n;
    }
    Sums { at, total }
}
