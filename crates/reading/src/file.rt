// A file read to its end, or to its first refused line.
ghost use Rattle.std.specs.Prelude.{◌≡◌, ◌≤◌, ◌<◌, length};
ghost use Rattle.output.specs.Store.{farthest};
ghost use Rattle.rules.specs.Held.{SetSized};
ghost use Rattle.firing.specs.Writing.{Low};
ghost use Rattle.names.specs.Defining.{RoomForGroups};
ghost use Rattle.reading.specs.Owed.{wanting};
ghost use Rattle.reading.specs.States.{Sound};
ghost use Rattle.reading.specs.Steps.{Stepped};
ghost use Rattle.reading.specs.Files.{Started, FileReadOf};
ghost use Rattle.reading.specs.Closing.{Closed};

use super::keep::{fire_kept, keep_rule};
use super::seek::seek_rule;
use super::{OpenSet, Reading, Sought};
use bitsets::without;
use firing::Cursors;
use names::Names;
use rules::listing::Listing;
use rules::{Column, Index, NO_HEADING, SetHeading};
use text::Spot;
use text::faults::Refusal;
use text::source::Source;

// Stands for the heading where there is no set.
fn no_set() -> SetHeading
    ensures { SetSized result }
{
    SetHeading {
        columns: Listing {
            count: 1,
            items: [Column::Model; 5],
        },
        index: Index::Absent,
        components: Listing {
            count: 0,
            items: [0; 5],
        },
    }
}

impl Reading {
    // Before the first line.
    fn new(cursors: Cursors) -> Reading
        ensures { Started cursors result }
    {
        Reading {
            at: Spot { at: 0, line: 1 },
            set: OpenSet::closed(NO_HEADING, no_set()),
            places: [0; 33],
            cursors,
        }
    }

    // The kept rules of the set fire, and the set is over.
    fn close_set(&mut self, src: &Source, names: &Names, scratch: &mut [u8], buf: &mut [u8])
        requires { Sound src.now.bytes.now names.now scratch.old buf.old self.old }
        ensures { Closed src.now.bytes.now names.now scratch.old scratch.new buf.old buf.new self.old self.new }
    {
        let set = self.set;
        self.cursors = fire_kept(
            src,
            &set,
            &self.places,
            &names.values(),
            scratch,
            buf,
            self.cursors,
        );
        self.set = OpenSet::closed(set.present, set.set);
    }

    // One step on: to the next rule that matches, which is kept or fired; over a heading, before which the kept rules of its set are fired; or to the end, and then
    // `false`.
    fn step(
        &mut self,
        src: &Source,
        names: &mut Names,
        scratch: &mut [u8],
        buf: &mut [u8],
    ) -> Result<bool, Refusal>
        requires { Sound src.now.bytes.now names.old scratch.old buf.old self.old }
        ensures { Stepped src.now.bytes.now names.old names.new scratch.old scratch.new buf.old buf.new self.old self.new result }
    {
        let set = self.set;
        match seek_rule(src, self.at, &set, names)? {
            Sought::Rule {
                place,
                layouts,
                next,
            } => {
                keep_rule(&mut self.places, &set, layouts, place);
                let wanted = without(set.wanted, layouts);
                let wanting = OpenSet { wanted, ..set };
                self.at = next;
                if set.every {
                    self.cursors = fire_kept(
                        src,
                        &wanting,
                        &self.places,
                        &names.values(),
                        scratch,
                        buf,
                        self.cursors,
                    );
                    return Ok(true);
                }
                self.set = wanting;
                Ok(true)
            }
            Sought::Heading { at, words } => {
                self.close_set(src, names, scratch, buf);
                self.at = at;
                self.read_heading(src, names, words)?;
                Ok(true)
            }
            Sought::End => {
                self.close_set(src, names, scratch, buf);
                Ok(false)
            }
        }
    }
}

// A file read for a profile that is compiled into the names: all that fires is written from the cursors on, or the file's first refusal.
pub fn read_file(
    src: &Source,
    names: &mut Names,
    buf: &mut [u8],
    q: Cursors,
) -> Result<Cursors, Refusal>
    requires { (names.old.layouts < 10) × RoomForGroups names.old × (length buf.old ≤ farthest) × Low q.at }
    ensures { FileReadOf src.now.bytes.now names.old names.new buf.old buf.new q result }
{
    let mut scratch = [0; 8192];
    let mut reading = Reading::new(q);
    while reading.step(src, names, &mut scratch, buf)? {}
    Ok(reading.cursors)
}
