// Which sets apply at which layouts, from the columns and the index of a heading.
ghost use Rattle.std.specs.Prelude.{◌≡◌};
ghost use Rattle.text.specs.Bytes.{any_of};
ghost use Rattle.rules.specs.declared.Index.TheVariants as index;
ghost use Rattle.rules.specs.Headings.{up_from};
ghost use Rattle.rules.specs.Held.{heading_by};
ghost use Rattle.answers.specs.Layouts.{layouts_at, layouts_of, per_layout};
ghost use Rattle.answers.specs.Matching.{is_options};

use super::Range;
use rules::{Column, Index, SetHeading};

#[tactic(auto, unfolding(answers::specs::Matching::is_options))]
fn is_options(column: &Column) -> bool
    ensures { result ≡ is_options column.now }
{
    matches!(column, Column::Options)
}

// Whether a column is one of layouts or variants.
#[tactic(auto, unfolding(answers::specs::Layouts::per_layout))]
fn is_per_layout(column: &Column) -> bool
    ensures { result ≡ per_layout column.now }
{
    matches!(column, Column::Layout | Column::Variant)
}

// Whether a heading has a column of options.
pub fn has_options(h: &SetHeading) -> bool
    ensures { result ≡ any_of is_options (heading_by h.now).columns }
{
    h.columns.items().iter().any(is_options)
}

// Whether a heading has a column of layouts or variants.
fn has_layouts(h: &SetHeading) -> bool
    ensures { result ≡ any_of per_layout (heading_by h.now).columns }
{
    h.columns.items().iter().any(is_per_layout)
}

// Layout 1 of one layout only.
fn alone(n: usize) -> Range
    ensures { up_from result.count result.first ≡ layouts_at n index.Absent }
{
    let count = usize::from(n == 1);
    Range { first: 1, count }
}

// The layouts of an index, of n.
fn range_of(index: Index, n: usize) -> Range
    ensures { up_from result.count result.first ≡ layouts_at n index }
{
    match index {
        Index::Absent | Index::Single => alone(n),
        Index::First => Range { first: 1, count: 1 },
        Index::Later => Range {
            first: 2,
            count: n.saturating_sub(1),
        },
        Index::Any => Range { first: 1, count: n },
        Index::Numbered(k) => {
            let lone = n <= 1;
            if lone || n < k {
                return Range { first: k, count: 0 };
            }
            Range { first: k, count: 1 }
        }
    }
}

// The layouts of a heading, of n: `count` of them from `first` on.
pub fn layout_range(h: &SetHeading, n: usize) -> Range
    ensures { up_from result.count result.first ≡ layouts_of n (heading_by h.now) }
{
    if has_layouts(h) {
        return range_of(h.index, n);
    }
    Range { first: 0, count: 1 }
}
