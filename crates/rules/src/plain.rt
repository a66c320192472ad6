// Lines that are read at one go: rules whose words are plain and of which nothing is refused. Each function here gives
// the end of what it reads, or none where that is for the reader of all lines; none says nothing, and is right wherever
// it is given.
ghost use Rattle.std.specs.Prelude.{◌<◌, IfSome};
ghost use Rattle.rules.specs.Plain.{LeftRead, RightWord, RightRead, RuleRead};

use super::percent::is_malformed;
use super::words::{is_left_word, is_ordinary};
use super::{Form, Present};
use text::source::{Source, feed_end};

// The left words of a rule, n of them.
fn left_end(src: &Source, from: usize, n: usize) -> Option<usize>
    requires { from < src.now.fence }
    ensures { IfSome result (LeftRead src.now.bytes.now src.now.fence from n) }
{
    let mut at = from;
    for _ in 0..n {
        let word = src.plain_word(at)?;
        if !is_left_word(src.word(word.start, word.end)) {
            return None;
        }
        at = word.end;
    }
    Some(at)
}

// A right word with percent signs, or one that begins with a slash.
fn percent_word(src: &Source, from: usize, indexed: bool) -> Option<usize>
    requires { from < src.now.fence }
    ensures { IfSome result (RightWord src.now.bytes.now src.now.fence indexed from) }
{
    let place = src.plain_word(from)?;
    let word = src.word(place.start, place.end);
    if !is_ordinary(word) {
        return None;
    }
    if is_malformed(word, indexed) {
        return None;
    }
    Some(place.end)
}

// A right word; `indexed` tells whether the heading has an index word.
fn right_word(src: &Source, from: usize, indexed: bool) -> Option<usize>
    requires { from < src.now.fence }
    ensures { IfSome result (RightWord src.now.bytes.now src.now.fence indexed from) }
{
    match src.value_word(from) {
        Some(place) => {
            if !is_ordinary(src.word(place.start, place.end)) {
                return None;
            }
            Some(place.end)
        }
        None => percent_word(src, from, indexed),
    }
}

// The right words of a rule, n of them.
fn right_end(src: &Source, from: usize, n: usize, indexed: bool) -> Option<usize>
    requires { from < src.now.fence }
    ensures { IfSome result (RightRead src.now.bytes.now src.now.fence indexed from n) }
{
    let mut at = from;
    for _ in 0..n {
        at = right_word(src, at, indexed)?;
    }
    Some(at)
}

// A rule under the heading p, from its first word on.
pub fn rule_end(src: &Source, from: usize, p: Present) -> Option<usize>
    requires { from < src.now.fence }
    ensures { IfSome result (RuleRead src.now.bytes.now from p) }
{
    let left = left_end(src, from, p.left)?;
    let equals = src.byte_word(left, b'=')?;
    let right = right_end(src, equals, p.right, p.form == Form::Indexed)?;
    feed_end(src.bytes, src.skip_blanks(right))
}
