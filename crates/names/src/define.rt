// A group is defined: its name is listed with the row of its words.
use super::{Names, Row};
use text::faults::Fault;

impl Names {
    ghost use Rattle.std.specs.Prelude.{◌≡◌, true};
    ghost use Rattle.rules.specs.Words.{has_dollar};
    ghost use Rattle.names.specs.Defining.{RoomForName, Defines};

    // A group of the name `name`, which begins with `$`, with the row of its words: refused if the name is listed already or there are 64 groups, and then nothing
    // is changed; else the name is copied behind the text and listed with the row.
    pub fn define_group(&mut self, name: &[u8], row: Row) -> Result<(), Fault>
        requires { RoomForName name.now self.old × (has_dollar name.now ≡ true) }
        ensures { Defines name.now row self.old self.new result }
    {
        if 64 <= self.groups {
            return Err(Fault::BadGroup);
        }
        if self.table.list.has_name(name) {
            return Err(Fault::BadGroup);
        }
        self.table.add_name(name, row);
        self.groups += 1;
        Ok(())
    }
}
