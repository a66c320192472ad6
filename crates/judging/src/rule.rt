// A line that may be a rule, held to the present heading.
ghost use Rattle.std.specs.Prelude.{◌≡◌, List, false, not, ◌&&◌, eqb, ◌≤◌, ◌<◌, length, IfSome};
ghost use Rattle.text.specs.Bytes.{Text};
ghost use Rattle.text.specs.Words.{bad_byte};
ghost use Rattle.text.specs.Reading.{Opens};
ghost use Rattle.text.specs.Sources.{Within};
ghost use Rattle.text.specs.Told.{outcome_number};
ghost use Rattle.rules.specs.Splitting.{words_of, IsSplit};
ghost use Rattle.rules.specs.Entries.{entry_of};
ghost use Rattle.rules.specs.Checking.{line_of, line_fault};
ghost use Rattle.judging.specs.Lines.{RestRead, PlainStart, WordsJudged, RuleLineOf};

use super::RuleLine;
use rules::judge::rule_fault;
use rules::lines::split_line;
use rules::placed::PlacedWords;
use rules::plain::rule_end;
use rules::{Form, Present, Split};
use text::faults::Fault;
use text::kinds::Kind;
use text::source::{Source, feed_end};
use text::{Opening, Span, Spot};

// Whether a byte is one of words, and no slash.
#[tactic(auto, using(crate::proofs::RuleLines::plain_reads))]
fn is_plain(b: u8) -> bool
    ensures { result ≡ (not (bad_byte b) && not (eqb b 47)) }
{
    matches!(Kind::of(b), Kind::Plain | Kind::Percent)
}

// The rest of a line at one go, from its first byte that is no blank: where the next line starts. None says nothing.
fn rest_end(src: &Source, from: usize, p: Present) -> Option<usize>
    ensures { IfSome result (RestRead src.now.bytes.now from p) }
{
    if src.fence <= from {
        return None;
    }
    if !is_plain(src.bytes[from]) {
        return feed_end(src.bytes, from);
    }
    let headless = p.form == Form::Absent;
    if headless {
        return None;
    }
    rule_end(src, from, p)
}

// A split line that is no heading.
fn check_words(line: &PlacedWords, l: Split, p: Present) -> Result<(), Fault>
    requires { IsSplit false line.now.text.now line.now.places.now l × (p.left ≤ 4) × (p.right ≤ 5) }
    ensures { (ns : List Text) → line_fault ns p (entry_of (line_of 0 false (words_of line.now.text.now))) ≡ outcome_number result }
{
    if let Some(fault) = l.fault {
        return Err(fault);
    }
    if line.count == 0 {
        return Ok(());
    }
    rule_fault(line, p)
}

// Any line that is no heading, from where its words begin: where the next line starts.
fn judge_words(src: &Source, words: Spot, p: Present) -> Result<Spot, Fault>
    requires { Within src.now.bytes.now words.at words.line × (p.left ≤ 4) × (p.right ≤ 5) }
    ensures { WordsJudged src.now.bytes.now words.at words.line p result }
{
    let rest = src.behind(words.at);
    let mut places = [Span { start: 0, end: 0 }; 10];
    let l = split_line(false, &rest, &mut places);
    let line = PlacedWords {
        text: rest.bytes,
        places: &places,
        count: l.tally.count,
    };
    check_words(&line, l, p)?;
    Ok(Spot {
        at: words.at + l.next.at,
        line: words.line + l.next.line,
    })
}

// Where the words of a line begin, if the first of its bytes that is no blank is a plain one before the fence. None says nothing.
fn plain_start(src: &Source, at: usize) -> Option<usize>
    ensures { IfSome result (PlainStart src.now.bytes.now at) }
{
    if src.fence <= at {
        return None;
    }
    let i = src.skip_blanks(at);
    let b = src.bytes[i];
    if b == b'!' || !is_plain(b) {
        return None;
    }
    Some(i)
}

// A line opened, at one go where it begins with a plain byte before the fence.
fn open_plain(src: &Source, at: Spot) -> Opening
    requires { Within src.now.bytes.now at.at at.line }
    ensures { Opens src.now.bytes.now at.at at.line result.heading result.at result.line }
{
    match plain_start(src, at.at) {
        Some(i) => Opening {
            heading: false,
            at: i,
            line: at.line,
        },
        None => src.open_line(at),
    }
}

// The line that starts at `at`, under the heading p.
pub fn rule_line(src: &Source, at: Spot, p: Present) -> Result<RuleLine, Fault>
    requires { Within src.now.bytes.now at.at at.line × (at.at < length src.now.bytes.now) × (p.left ≤ 4) × (p.right ≤ 5) }
    ensures { RuleLineOf src.now.bytes.now at.at at.line p result }
{
    let o = open_plain(src, at);
    let words = Spot {
        at: o.at,
        line: o.line,
    };
    if o.heading {
        return Ok(RuleLine::Heading(words));
    }
    if let Some(end) = rest_end(src, words.at, p) {
        let next = Spot {
            at: end,
            line: words.line + 1,
        };
        return Ok(RuleLine::Read { words, next });
    }
    let next = judge_words(src, words, p)?;
    Ok(RuleLine::Read { words, next })
}
