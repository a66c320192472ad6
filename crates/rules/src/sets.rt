// A set heading, read from the words of a split line.
ghost use Rattle.std.specs.Prelude.{◌≡◌, ◌≤◌, ◌+◌, ◌++◌, ◌∷◌, [], List, Option, map, length};
ghost use Rattle.rules.specs.Headings.{left_item, component_of};
ghost use Rattle.rules.specs.Entries.{before, after};
ghost use Rattle.rules.specs.Placed.{words_in};
ghost use Rattle.rules.specs.Sets.{IsSet};
ghost use Rattle.rules.specs.declared.Item.{Item};
ghost use Rattle.rules.specs.Sides.{LeftHeld, LeftOf, RightOf};

use super::headings::{component_of, left_item};
use super::listing::Listing;
use super::placed::PlacedWords;
use super::{Column, Index, Item, SetHeading};

// The left items of a heading as they are read: their columns, and the first index.
#[derive(Clone, Copy)]
pub struct LeftSide {
    pub columns: Listing<Column, 5>,
    pub index: Option<Index>,
}

impl LeftSide {
    // With an item more; none where its column is there, or its index is unlike the first.
    fn with(&self, item: Item) -> Option<LeftSide>
        ensures { (ls : List (Option Item)) → LeftHeld ls self.now → LeftOf (ls ++ (Some item ∷ [])) result }
    {
        let columns = self.columns.with(item.column())?;
        match (self.index, item.index()) {
            (Some(first), Some(index)) => {
                let alike = first == index;
                if !alike {
                    return None;
                }
                Some(LeftSide {
                    columns,
                    index: Some(first),
                })
            }
            (Some(first), None) => Some(LeftSide {
                columns,
                index: Some(first),
            }),
            (None, index) => Some(LeftSide { columns, index }),
        }
    }
}

fn left_side(line: &PlacedWords, first: usize) -> Option<LeftSide>
    requires { (first ≡ length (before (words_in line.now))) × (line.now.count ≤ 10) }
    ensures { LeftOf (map left_item (before (words_in line.now))) result }
{
    let mut side = LeftSide {
        columns: Listing::none(Column::Model),
        index: None,
    };
    for j in 0..first {
        side = side.with(left_item(line.word(j))?)?;
    }
    Some(side)
}

fn right_side(line: &PlacedWords, from: usize) -> Option<Listing<usize, 5>>
    requires { (from ≡ length (before (words_in line.now)) + 1) × (line.now.count ≤ 10) }
    ensures { RightOf (map component_of (after (words_in line.now))) result }
{
    let mut components = Listing::none(0);
    for j in from..line.count {
        components = components.with(component_of(line.word(j))?)?;
    }
    Some(components)
}

// The heading of a line that is split, `first` words standing before the first `=`.
pub fn read_set(line: &PlacedWords, first: usize) -> Option<SetHeading>
    requires { first ≡ length (before (words_in line.now)) }
    ensures { IsSet (words_in line.now) result }
{
    if line.places.len() < line.count {
        return None;
    }
    let left = left_side(line, first)?;
    let components = right_side(line, first + 1)?;
    Some(SetHeading {
        columns: left.columns,
        index: left.index.unwrap_or(Index::Absent),
        components,
    })
}
