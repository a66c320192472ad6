// What a split line is, and what a rule's words are held to.
ghost use Rattle.std.specs.Prelude.{◌≡◌, ◌≤◌, ◌+◌, take, drop};
ghost use Rattle.text.specs.Bytes.{all_of};
ghost use Rattle.text.specs.Told.{outcome_number};
ghost use Rattle.rules.specs.Words.{left_word};
ghost use Rattle.rules.specs.Checking.{form_of, has_left, present_by, present_fault, right_fault};
ghost use Rattle.rules.specs.Placed.{words_in};

use super::percent::is_malformed;
use super::placed::PlacedWords;
use super::words::{is_equals, is_left_word, is_ordinary};
use super::{Form, Index, Present, SetHeading};
use text::faults::Fault;

// The first n words may stand on a rule's left side.
fn left_words(line: &PlacedWords, n: usize) -> bool
    requires { (n ≤ 10) × (n ≤ line.now.count) }
    ensures { result ≡ all_of left_word (take n (words_in line.now)) }
{
    for j in 0..n {
        if !is_left_word(line.word(j)) {
            return false;
        }
    }
    true
}

// A rule's right words, from a number on: each is ordinary, and none has a malformed percent item.
fn right_words(line: &PlacedWords, from: usize, indexed: bool) -> Result<(), Fault>
    requires { (from ≤ line.now.count) × (line.now.count ≤ 10) }
    ensures { outcome_number result ≡ right_fault indexed (drop from (words_in line.now)) }
{
    let mut malformed = false;
    for j in from..line.count {
        let word = line.word(j);
        if !is_ordinary(word) {
            return Err(Fault::BadLine);
        }
        malformed |= is_malformed(word, indexed);
    }
    if malformed {
        return Err(Fault::BadPercent);
    }
    Ok(())
}

// There is a heading, and a rule has as many words as it asks for, with good left words and `=`.
#[tactic(auto, using(crate::proofs::RuleFaults::absent_is), unfolding(crate::specs::Checking::has_left))]
fn has_left(line: &PlacedWords, p: Present) -> bool
    requires { (p.left ≤ 4) × (p.right ≤ 5) }
    ensures { result ≡ has_left p (words_in line.now) }
{
    if p.form == Form::Absent {
        return false;
    }
    if line.count != p.left + 1 + p.right {
        return false;
    }
    left_words(line, p.left) && is_equals(line.word(p.left))
}

// A rule under the present heading.
pub fn rule_fault(line: &PlacedWords, p: Present) -> Result<(), Fault>
    requires { (p.left ≤ 4) × (p.right ≤ 5) }
    ensures { outcome_number result ≡ present_fault p (words_in line.now) }
{
    if !has_left(line, p) {
        return Err(Fault::BadLine);
    }
    right_words(line, p.left + 1, p.form == Form::Indexed)
}

impl Index {
    // What a heading with this index asks of its rules.
    #[tactic(auto, unfolding(crate::specs::Checking::form_of))]
    fn form(self) -> Form
        ensures { result ≡ form_of self }
    {
        if self.has_word() {
            return Form::Indexed;
        }
        Form::Plain
    }
}

impl SetHeading {
    // The heading, as it is carried on.
    pub fn present(&self) -> Present
        ensures { result ≡ present_by self.now }
    {
        Present {
            form: self.index.form(),
            left: self.columns.count,
            right: self.components.count,
        }
    }
}
