// A set as its heading opens it.
ghost use Rattle.std.specs.Prelude.{◌≡◌, ◌≤◌};
ghost use Rattle.rules.specs.Held.{SetSized, FromOne};
ghost use Rattle.reading.specs.Opening.{closed_set, Opened};

use super::OpenSet;
use bitsets::span;
use judging::ranges::{has_options, layout_range};
use rules::{Present, SetHeading};

impl OpenSet {
    // A set at no layout: its rules are only judged.
    pub fn closed(present: Present, set: SetHeading) -> OpenSet
        ensures { result ≡ closed_set present set }
    {
        OpenSet {
            present,
            set,
            first: 0,
            count: 0,
            every: false,
            wanted: 0,
        }
    }

    // The set of a heading, for n layouts.
    pub fn open(set: SetHeading, n: usize) -> OpenSet
        requires { SetSized set × FromOne set.index × (1 ≤ n) × (n ≤ 32) }
        ensures { Opened n set result }
    {
        let present = set.present();
        let range = layout_range(&set, n);
        let first = range.first;
        let count = range.count;
        if count == 0 {
            return OpenSet::closed(present, set);
        }
        OpenSet {
            present,
            set,
            first,
            count,
            every: has_options(&set),
            wanted: span(first, count),
        }
    }
}
