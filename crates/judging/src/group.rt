// A group line: its words are judged, and their rows are found, as they are read.
ghost use Rattle.std.specs.Prelude.{◌≡◌, ◌&&◌, cond};
ghost use Rattle.std.specs.Option.{option_or};
ghost use Rattle.rules.specs.Words.{is_equals, is_group_name};
ghost use Rattle.text.specs.declared.faults.Fault.TheVariants.{BadLine};
ghost use Rattle.text.specs.Sources.{Within};
ghost use Rattle.judging.specs.Groups.{FirstWordAt, DollarWord, MembersOf, GroupLineOf};

use super::{FirstWord, GroupLine, Members};
use names::{Names, Row};
use rules::words::{is_equals, is_group_name, is_ordinary};
use text::Spot;
use text::faults::{Fault, lower};
use text::source::{Next, Source};

// The first word of a heading, whose words begin at `from`, if it begins with `$`.
pub fn first_word(src: &Source, from: Spot) -> Option<FirstWord>
    requires { Within src.now.bytes.now from.at from.line }
    ensures { FirstWordAt src.now.bytes.now from.at from.line result }
{
    match src.word_at(from) {
        Next::Found {
            start,
            end,
            line,
            fault,
        } => {
            if src.bytes[start] != b'$' {
                return None;
            }
            Some(FirstWord {
                start,
                end: Spot { at: end, line },
                fault,
            })
        }
        Next::Stop { .. } => None,
    }
}

// The words of a line from a place on.
fn read_members(src: &Source, from: Spot, names: &Names) -> Members
    requires { Within src.now.bytes.now from.at from.line }
    ensures { MembersOf src.now.bytes.now from.at from.line names.now.table result }
{
    let mut members = Members {
        fault: None,
        ordinary: true,
        row: Row::NONE,
        next: from,
    };
    loop {
        match src.next_word(members.next) {
            Next::Found {
                start,
                end,
                line,
                fault,
            } => {
                let word = src.word(start, end);
                let row = names.row(word);
                members.fault = lower(members.fault, fault);
                members.ordinary = members.ordinary && is_ordinary(word);
                members.row = members.row.union(row);
                members.next = Spot { at: end, line };
            }
            Next::Stop { next, line } => {
                members.next = Spot { at: next, line };
                return members;
            }
        }
    }
}

fn is_group(name: &[u8], equals: &[u8], ordinary: bool) -> bool
    ensures { result ≡ (is_group_name name.now && (is_equals equals.now && ordinary)) }
{
    is_group_name(name) && is_equals(equals) && ordinary
}

// The fault of a line that should be a group's, by that of its words.
fn group_fault(fault: Option<Fault>, good: bool) -> Option<Fault>
    ensures { result ≡ cond good fault (option_or fault (Some BadLine)) }
{
    if good {
        return fault;
    }
    fault.or(Some(Fault::BadLine))
}

// The heading whose first word is x, which begins with `$`.
pub fn group_line(src: &Source, x: FirstWord, names: &Names) -> GroupLine
    requires { DollarWord src.now.bytes.now x }
    ensures { GroupLineOf src.now.bytes.now x names.now.table result }
{
    match src.word_at(x.end) {
        Next::Found {
            start,
            end,
            line,
            fault,
        } => {
            let name = src.word(x.start, x.end.at);
            let equals = src.word(start, end);
            let from = Spot { at: end, line };
            let members = read_members(src, from, names);
            let good = is_group(name, equals, members.ordinary);
            let fault = lower(lower(x.fault, fault), members.fault);
            GroupLine {
                fault: group_fault(fault, good),
                row: members.row,
                next: members.next,
            }
        }
        Next::Stop { next, line } => GroupLine {
            fault: group_fault(x.fault, false),
            row: Row::NONE,
            next: Spot { at: next, line },
        },
    }
}
