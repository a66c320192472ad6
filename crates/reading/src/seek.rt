// The walk over the rules of a set.
ghost use Rattle.text.specs.Sources.{Within};
ghost use Rattle.reading.specs.Seeking.{Seekable, Seeks};

use super::left::left_word;
use super::{LeftWords, OpenSet, Sought};
use judging::RuleLine;
use judging::rule::rule_line;
use names::Names;
use text::Spot;
use text::faults::Refusal;
use text::source::Source;

// The walk from a line on over the rules of a set and their left words, up to the first rule that matches at a layout that wants one. Lines are judged on the way;
// a heading, a line that is refused, or the end of the file ends it too.
pub fn seek_rule(src: &Source, at: Spot, o: &OpenSet, names: &Names) -> Result<Sought, Refusal>
    requires { Within src.now.bytes.now at.at at.line × Seekable o.now }
    ensures { Seeks names.now o.now src.now.bytes.now at.at at.line result }
{
    let mut here = at;
    let mut found = Sought::End;
    'rules: while here.at < src.bytes.len() {
        match rule_line(src, here, o.present) {
            Ok(RuleLine::Read { words, next }) => {
                let mut x = LeftWords {
                    layouts: o.wanted,
                    end: words,
                };
                for column in o.set.columns.items() {
                    if x.layouts == 0 {
                        here = next;
                        continue 'rules;
                    }
                    x = left_word(src, x, *column, names);
                }
                if x.layouts == 0 {
                    here = next;
                    continue 'rules;
                }
                found = Sought::Rule {
                    place: x.end.at,
                    layouts: x.layouts,
                    next,
                };
                break 'rules;
            }
            Ok(RuleLine::Heading(words)) => {
                found = Sought::Heading { at: here, words };
                break 'rules;
            }
            Err(fault) => {
                return Err(Refusal {
                    fault,
                    place: here.line,
                });
            }
        }
    }
    Ok(found)
}
