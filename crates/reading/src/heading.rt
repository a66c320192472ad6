// A heading: a set is opened, or a group defined.
ghost use Rattle.std.specs.Prelude.{◌≡◌, [], false, get_or};
ghost use Rattle.text.specs.Reading.{left};
ghost use Rattle.text.specs.Sources.{Within};
ghost use Rattle.rules.specs.Words.{has_dollar};
ghost use Rattle.names.specs.Defining.{RoomForGroups};
ghost use Rattle.judging.specs.Groups.{DollarWord};
ghost use Rattle.reading.specs.Heads.{AtHeading, AtGroup, HeadRead};

use super::{OpenSet, Reading};
use judging::FirstWord;
use judging::group::{first_word, group_line};
use judging::set::set_line;
use names::Names;
use rules::NO_HEADING;
use text::Spot;
use text::faults::{Fault, Refusal};
use text::source::Source;

impl Reading {
    // The refusal of the next line.
    fn refusal(&self, fault: Fault) -> Refusal
        ensures { result ≡ record { fault = fault; place = self.now.at.line } }
    {
        Refusal {
            fault,
            place: self.at.line,
        }
    }

    // The heading of a set, whose words begin at `words`.
    fn read_set(&mut self, src: &Source, names: &Names, words: Spot) -> Result<(), Refusal>
        requires { Within src.now.bytes.now words.at words.line × AtHeading src.now.bytes.now self.old words
            × (has_dollar (get_or (left src.now.bytes.now words.at) 0 []) ≡ false) }
        ensures { HeadRead src.now.bytes.now names.now names.now self.old self.new result }
    {
        let line = set_line(src, words);
        let set = match line.set {
            Ok(set) => set,
            Err(fault) => return Err(self.refusal(fault)),
        };
        self.set = OpenSet::open(set, names.layouts);
        self.at = line.next;
        Ok(())
    }

    // A group line, whose first word is x.
    fn read_group(&mut self, src: &Source, names: &mut Names, x: FirstWord) -> Result<(), Refusal>
        requires { DollarWord src.now.bytes.now x × AtGroup src.now.bytes.now self.old x × RoomForGroups names.old }
        ensures { HeadRead src.now.bytes.now names.old names.new self.old self.new result }
    {
        let line = group_line(src, x, names);
        if let Some(fault) = line.fault {
            return Err(self.refusal(fault));
        }
        let name = src.word(x.start, x.end.at);
        if let Err(fault) = names.define_group(name, line.row) {
            return Err(self.refusal(fault));
        }
        self.set = OpenSet::closed(NO_HEADING, self.set.set);
        self.at = line.next;
        Ok(())
    }

    // A heading, whose words begin at `words`.
    pub fn read_heading(
        &mut self,
        src: &Source,
        names: &mut Names,
        words: Spot,
    ) -> Result<(), Refusal>
        requires { Within src.now.bytes.now words.at words.line × AtHeading src.now.bytes.now self.old words × RoomForGroups names.old }
        ensures { HeadRead src.now.bytes.now names.old names.new self.old self.new result }
    {
        match first_word(src, words) {
            Some(x) => self.read_group(src, names, x),
            None => self.read_set(src, names, words),
        }
    }
}
