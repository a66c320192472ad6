// The heading of a set, judged and read at once.
ghost use Rattle.std.specs.Prelude.{◌≡◌, [], true, false, get_or};
ghost use Rattle.text.specs.Told.{fault_number};
ghost use Rattle.text.specs.Words.{words_fault};
ghost use Rattle.text.specs.Reading.{left};
ghost use Rattle.text.specs.Sources.{Within};
ghost use Rattle.rules.specs.Words.{has_dollar};
ghost use Rattle.rules.specs.Splitting.{words_of, Tallied, IsSplit};
ghost use Rattle.rules.specs.Entries.{set_entry, entry_of};
ghost use Rattle.rules.specs.Checking.{line_of};
ghost use Rattle.judging.specs.Sets.{SetOf, SetLineOf};

use super::SetLine;
use rules::lines::split_line;
use rules::placed::PlacedWords;
use rules::sets::read_set;
use rules::{SetHeading, Split, Tally};
use text::compare::same;
use text::faults::Fault;
use text::source::Source;
use text::{Span, Spot};

// A heading that begins neither with `$` nor with `include`.
fn judge_set(line: &PlacedWords, t: Tally) -> Result<SetHeading, Fault>
    requires { Tallied (words_of line.now.text.now) t }
    ensures { SetOf (set_entry (words_of line.now.text.now)) result }
{
    let Some(first) = t.equals else {
        return Err(Fault::BadLine);
    };
    if first == 0 || t.count - first < 2 || t.again {
        return Err(Fault::BadLine);
    }
    read_set(line, first).ok_or(Fault::BadHeading)
}

// A split heading whose first word does not begin with `$`.
fn judge_heading(line: &PlacedWords, l: Split) -> Result<SetHeading, Fault>
    requires { IsSplit true line.now.text.now line.now.places.now l × (has_dollar (get_or (words_of line.now.text.now) 0 []) ≡ false) }
    ensures { SetOf (entry_of (line_of 0 true (words_of line.now.text.now))) result }
{
    if let Some(fault) = l.fault {
        return Err(fault);
    }
    if line.count == 0 {
        return Err(Fault::BadLine);
    }
    if same(line.word(0), b"include") {
        return Err(Fault::IncludeLine);
    }
    judge_set(line, l.tally)
}

// The heading whose words begin at `words`.
pub fn set_line(src: &Source, words: Spot) -> SetLine
    requires { Within src.now.bytes.now words.at words.line × (has_dollar (get_or (left src.now.bytes.now words.at) 0 []) ≡ false) }
    ensures { SetLineOf src.now.bytes.now words.at words.line result }
{
    let rest = src.behind(words.at);
    let mut places = [Span { start: 0, end: 0 }; 10];
    let l = split_line(true, &rest, &mut places);
    let line = PlacedWords {
        text: rest.bytes,
        places: &places,
        count: l.tally.count,
    };
    SetLine {
        set: judge_heading(&line, l),
        next: Spot {
            at: words.at + l.next.at,
            line: words.line + l.next.line,
        },
    }
}
