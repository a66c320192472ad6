// A profile compiled: `*` and the profile's values listed with their rows.
ghost use Rattle.std.specs.Prelude.{◌≡◌, [], ◌∷◌, ◌+◌, ◌≤◌, ◌<◌, length};
ghost use Rattle.text.specs.Limits.{most_options};
ghost use Rattle.profile.specs.Profile.{options_of};
ghost use Rattle.profile.specs.Refusals.{profile_refusals};
ghost use Rattle.profile.specs.Spans.{most_values, Placed};
ghost use Rattle.listing.specs.Names.{most_names};
ghost use Rattle.listing.specs.Lists.{text_of, names_of, bytes_at};
ghost use Rattle.names.specs.Rows.{says};
ghost use Rattle.names.specs.Marked.{value_asks, Marked};
ghost use Rattle.names.specs.Placing.{ShortTexts, AllValuesPlaced, Lies, TextsCopied};
ghost use Rattle.names.specs.Asked.{ValueRow, values_ask, options_ask, Begun, TableCompiled};

use super::places::{place_all_values, some_set};
use super::sieve::FLAGS;
use super::table::Table;
use super::{Names, Row};
use bitsets::with;
use profile::texts::Texts;
use text::Span;

// The row of the value of a number: 0 is the model, then come 32 layouts and 32 variants.
fn value_row(j: usize) -> Row
    requires { j < most_values }
    ensures { ValueRow j result }
{
    if j < 33 {
        Row {
            layouts: with(0, j),
            variants: 0,
        }
    } else {
        Row {
            layouts: 0,
            variants: with(0, j - 32),
        }
    }
}

const OPTION: Row = Row {
    layouts: 0,
    variants: 1,
};

impl Table {
    // Forgets all names, and copies the four texts, one after the other, and `*`: the place of `*`.
    pub fn copy_texts(&mut self, texts: &Texts) -> Span
        requires { ShortTexts texts.now }
        ensures { TextsCopied texts.now self.new result }
    {
        self.list.clear();
        self.flags = [false; FLAGS];
        self.list.append(texts.model);
        self.list.append(texts.layouts);
        self.list.append(texts.variants);
        self.list.append(texts.options);
        self.list.append(b"*")
    }

    // Marks the model, the layouts and the variants.
    fn mark_values(&mut self, bounds: &[Span; 65])
        requires { Placed (text_of self.old.list) bounds.now × (self.old.list.count + most_values ≤ most_names) }
        ensures { Marked self.old self.new most_values (values_ask (text_of self.old.list) bounds.now most_values) }
    {
        for (j, span) in bounds.iter().enumerate() {
            self.mark_value(*span, value_row(j));
        }
    }

    // Marks the options, whose text stands from `base` on.
    fn mark_options(&mut self, options: &[u8], base: usize)
        requires { Lies (text_of self.old.list) base options.now × (self.old.list.count + length (options_of options.now) < most_names) }
        ensures { Marked self.old self.new (length (options_of options.now)) (options_ask (options_of options.now)) }
    {
        let mut start = base;
        for option in options.split(|b| *b == b',') {
            let end = start + option.len();
            self.mark_value(Span { start, end }, OPTION);
            start = end + 1;
        }
    }

    // Lists `*` and all values of a profile that is not refused.
    fn compile(&mut self, texts: &Texts, bounds: &[Span; 65])
        requires { (profile_refusals texts.now ≡ []) × AllValuesPlaced texts.now bounds.now }
        ensures { TableCompiled texts.now bounds.now self.new }
    {
        let star = self.copy_texts(texts);
        let row = Row {
            layouts: some_set(bounds, 0),
            variants: some_set(bounds, 32),
        };
        self.list_row(star, row);
        self.mark_values(bounds);
        let base = texts.model.len() + texts.layouts.len() + texts.variants.len();
        self.mark_options(texts.options, base);
    }
}

impl Names {
    ghost use Rattle.names.specs.Ready.{Ready};
    ghost use Rattle.names.specs.Defining.{Roomy};

    // A profile that is not refused, with no group yet, in place of what was held, with room for the names of 64 groups.
    pub fn compile(&mut self, texts: &Texts)
        requires { profile_refusals texts.now ≡ [] }
        ensures { Ready texts.now [] self.new × Roomy self.new }
    {
        let bounds = place_all_values(texts);
        self.table.compile(texts, &bounds);
        self.bounds = bounds;
        self.layouts = texts.layout_count();
        self.groups = 0;
    }
}
