// A line split into words, once: the words are counted as they are read, and the first ten keep their places.
ghost use Rattle.std.specs.Prelude.{◌≡◌, ◌+◌, ◌^◌, ◌<◌, ◌&&◌, cond, ltb, length};
ghost use Rattle.rules.specs.Words.{ordinary};
ghost use Rattle.rules.specs.Splitting.{tallied, counted, stored, IsSplit};

use super::words::{is_equals, is_ordinary};
use super::{Split, Tally};
use text::faults::{Fault, lower};
use text::source::{Next, Source};
use text::{Span, Spot};

impl Tally {
    const NONE: Tally = Tally {
        count: 0,
        equals: None,
        again: false,
        plain: true,
    };

    // Whether all words from the third on are ordinary, with a word more.
    fn plain_with(self, w: &[u8]) -> bool
        ensures { result ≡ cond (ltb self.count 2) self.plain (self.plain && ordinary w.now) }
    {
        if self.count < 2 {
            return self.plain;
        }
        self.plain && is_ordinary(w)
    }

    // With a word more of a heading.
    #[tactic(auto, unfolding(crate::specs::Splitting::tallied, crate::specs::Splitting::equals_after))]
    fn with(self, w: &[u8]) -> Tally
        requires { self.count + 1 < 2 ^ 64 }
        ensures { result ≡ tallied self w.now }
    {
        let equals = is_equals(w);
        Tally {
            count: self.count + 1,
            equals: self.equals.or(equals.then_some(self.count)),
            again: self.again || (self.equals.is_some() && equals),
            plain: self.plain_with(w),
        }
    }

    // With a word more of a heading, or of any other line, whose words are only counted.
    #[tactic(auto, unfolding(crate::specs::Splitting::counted))]
    fn counting(self, heading: bool, w: &[u8]) -> Tally
        requires { self.count + 1 < 2 ^ 64 }
        ensures { result ≡ counted heading self w.now }
    {
        if heading {
            return self.with(w);
        }
        Tally {
            count: self.count + 1,
            equals: self.equals,
            again: self.again,
            plain: self.plain,
        }
    }
}

// Keeps the place of the k-th word, if it is one of the first ten.
#[tactic(auto, unfolding(crate::specs::Splitting::stored))]
fn store(places: &mut [Span; 10], k: usize, place: Span)
    ensures { places.new ≡ stored places.old k place }
{
    if k < 10 {
        places[k] = place;
    }
}

// The line is lent from where its first word may begin: after a heading's mark, or at the first byte that is no blank.
pub fn split_line(heading: bool, src: &Source, places: &mut [Span; 10]) -> Split
    ensures { IsSplit heading src.now.bytes.now places.new result }
{
    let mut tally = Tally::NONE;
    let mut fault: Option<Fault> = None;
    let mut from = Spot { at: 0, line: 0 };
    loop {
        match src.next_word(from) {
            Next::Found {
                start,
                end,
                line,
                fault: found,
            } => {
                store(places, tally.count, Span { start, end });
                tally = tally.counting(heading, src.word(start, end));
                fault = lower(fault, found);
                from = Spot { at: end, line };
            }
            Next::Stop { next, line } => {
                return Split {
                    tally,
                    fault,
                    next: Spot { at: next, line },
                };
            }
        }
    }
}
