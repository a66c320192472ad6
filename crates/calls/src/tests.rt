// The expected values are read off the texts by hand.
ghost use Rattle.std.specs.Prelude.{◌≡◌};
ghost use Rattle.names.specs.Defining.{RoomForGroups};
ghost use Rattle.reading.specs.Seeking.{Seekable};

use firing::Cursors;
use names::places::{place_all_values, place_values};
use names::{Names, Row};
use profile::texts::Texts;
use reading::seek::seek_rule;
use reading::{OpenSet, Reading, Sought};
use rules::listing::Listing;
use rules::{Column, Index, NO_HEADING, SetHeading};
use std::test::Fail;
use text::Spot;
use text::faults::{Fault, Refusal};
use text::source::Source;

// The model, two layouts, and a variant of the second.
fn two_layouts() -> Texts<'static> {
    Texts {
        model: b"pc105",
        layouts: b"us,de",
        variants: b",neo",
        options: b"",
    }
}

#[test]
fn missing_values(rt: HostRuntime) -> Result<(), Fail> {
    let texts = two_layouts();
    texts.check()?;
    let some = place_values(&texts);
    let all = place_all_values(&texts);
    // the value's number, and its place in `pc105us,de,neo` by each
    let wanted = [
        (0, (0, 5), (0, 5)),
        (1, (5, 7), (5, 7)),
        (2, (8, 10), (8, 10)),
        (3, (0, 0), (10, 10)),
        (32, (0, 0), (10, 10)),
        (33, (10, 10), (10, 10)),
        (34, (11, 14), (11, 14)),
        (35, (0, 0), (14, 14)),
        (64, (0, 0), (14, 14)),
    ];
    for (j, place, place_in_all) in wanted {
        assert!(rt; j < 65);
        assert_eq!(rt; (some[j].start, some[j].end), place, "at {j}");
        assert_eq!(rt; (all[j].start, all[j].end), place_in_all, "at {j}");
    }
    Ok(())
}

#[test]
fn groups(rt: HostRuntime) -> Result<(), Fail> {
    let texts = two_layouts();
    texts.check()?;
    let mut names = Names::new();
    names.compile(&texts);
    let row = Row {
        layouts: 2,
        variants: 0,
    };
    assert_eq!(rt; names.define_group(b"$own", row), Ok(()));
    assert_eq!(rt; names.row(b"$own"), row);
    assert_eq!(rt; names.row(b"$other"), Row::NONE);
    assert_eq!(rt; names.define_group(b"$own", row), Err(Fault::BadGroup));
    assert_eq!(rt; names.groups, 1);
    Ok(())
}

// Before a heading, where no set is being read.
fn before_heading() -> Reading
    ensures { (result.at ≡ record { at = 0; line = 1 }) × Seekable result.set }
{
    let set = SetHeading {
        columns: Listing {
            count: 1,
            items: [Column::Model; 5],
        },
        index: Index::Absent,
        components: Listing {
            count: 0,
            items: [0; 5],
        },
    };
    Reading {
        at: Spot { at: 0, line: 1 },
        set: OpenSet::closed(NO_HEADING, set),
        places: [0; 33],
        cursors: Cursors {
            at: [0; 10],
            based: [false; 5],
            total: 0,
        },
    }
}

// One heading read: the end of its line, or its refusal.
fn read_line(line: &[u8], names: &mut Names) -> Result<Spot, Refusal>
    requires { RoomForGroups names.old }
    ensures { RoomForGroups names.new }
{
    let src = Source::new(line);
    let mut reading = before_heading();
    if let Sought::Heading { at, words } = seek_rule(&src, reading.at, &reading.set, names)? {
        reading.at = at;
        reading.set = OpenSet::closed(reading.set.present, reading.set.set);
        reading.read_heading(&src, names, words)?;
    }
    Ok(reading.at)
}

#[test]
fn headings(rt: HostRuntime) -> Result<(), Fail> {
    let texts = two_layouts();
    texts.check()?;
    let mut names = Names::new();
    names.compile(&texts);
    assert_eq!(rt; read_line(b"! $own = us fr\n", &mut names)?.at, 15);
    assert_eq!(rt; read_line(b"\n! layout[1] = symbols\n", &mut names)?.at, 23);
    assert_eq!(rt; read_line(b"! $other =\n", &mut names)?.at, 11);
    let refusal = Refusal {
        fault: Fault::BadGroup,
        place: 2,
    };
    assert_eq!(rt;
        read_line(b"\n! $own = de\n", &mut names).err(),
        Some(refusal)
    );
    assert_eq!(rt; names.groups, 2);
    Ok(())
}
