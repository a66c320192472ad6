// The places of a profile's values in the names' text, and which of them are not empty.
ghost use Rattle.std.specs.Prelude.{◌≡◌, ◌||◌, ◌&&◌, [], ℕ, ◌+◌, ◌*◌, ◌≤◌, ◌<◌, eqb, length};
ghost use Rattle.text.specs.Limits.{longest_text};
ghost use Rattle.profile.specs.Refusals.{profile_refusals};
ghost use Rattle.bitsets.specs.Sets.{is_in};
ghost use Rattle.names.specs.Placing.{Emptied, FieldsPlaced, AllValuesPlaced, ValuesPlaced, SomeSet};

use bitsets::with;
use profile::fields::field_count;
use profile::texts::Texts;
use text::Span;

// 32 values are empty, from the number `first` on, each at `at`; the other places are left as they are.
fn empty_places(at: usize, first: usize, bounds: &mut [Span; 65])
    requires { first ≤ 33 }
    ensures { Emptied at first (first + 32) bounds.old bounds.new }
{
    for j in first..first + 32 {
        bounds[j] = Span { start: at, end: at };
    }
}

// The places of a text's first 32 fields, from the value number `first` on, where the text stands from `base` on. A
// value that has no field is empty, where the text ends; the other places are left as they are.
fn place_fields(text: &[u8], base: usize, first: usize, bounds: &mut [Span; 65])
    requires { (first ≤ 33) × (base + length text.now ≤ 4 * longest_text) }
    ensures { FieldsPlaced text.now base first bounds.old bounds.new }
{
    empty_places(base + text.len(), first, bounds);
    let mut start = base;
    for (j, field) in text.split(|b| *b == b',').take(32).enumerate() {
        let end = start + field.len();
        bounds[first + j] = Span { start, end };
        start = end + 1;
    }
}

// The places of the model, 32 layouts and 32 variants, in the four texts one after the other: a value that has no field is empty, where its text ends.
pub fn place_all_values(texts: &Texts) -> [Span; 65]
    requires { (length texts.now.model ≤ longest_text) × (length texts.now.layouts ≤ longest_text) × (length texts.now.variants ≤ longest_text) }
    ensures { AllValuesPlaced texts.now result }
{
    let mut bounds = [Span { start: 0, end: 0 }; 65];
    let layouts = texts.model.len();
    let variants = layouts + texts.layouts.len();
    bounds[0] = Span {
        start: 0,
        end: layouts,
    };
    place_fields(texts.layouts, layouts, 1, &mut bounds);
    place_fields(texts.variants, variants, 33, &mut bounds);
    bounds
}

// The values from the number `first` up to `end` are empty, at the start of the four texts. Not by `empty_places`: were its end an argument, the machine code of the
// whole reading would change.
fn unplace(first: usize, end: usize, bounds: &mut [Span; 65])
    requires { (first ≤ end) × (end ≤ 65) }
    ensures { Emptied 0 first end bounds.old bounds.new }
{
    for j in first..end {
        bounds[j] = Span { start: 0, end: 0 };
    }
}

// The same places, of a profile that is not refused, but that a value that has no field is empty at the start of the four texts.
pub fn place_values(texts: &Texts) -> [Span; 65]
    requires { profile_refusals texts.now ≡ [] }
    ensures { ValuesPlaced texts.now result }
{
    let mut bounds = place_all_values(texts);
    unplace(1 + field_count(texts.layouts), 33, &mut bounds);
    unplace(33 + field_count(texts.variants), 65, &mut bounds);
    bounds
}

// The set, with k if that is wanted.
fn with_if(s: u64, k: usize, wanted: bool) -> u64
    requires { k < 64 }
    ensures { (j : ℕ) → is_in j result ≡ (is_in j s || (wanted && eqb k j)) }
{
    if wanted { with(s, k) } else { s }
}

// A set of 0 and of the layouts at which `*` matches: those whose value, from the number `before` on, is not empty.
#[tactic(auto, using(bitsets::proofs::Bits::in_none))]
pub fn some_set(bounds: &[Span; 65], before: usize) -> u64
    requires { before ≤ 32 }
    ensures { SomeSet bounds.now before result }
{
    let mut set = with(0, 0);
    for k in 1..33 {
        let Span { start, end } = bounds[before + k];
        set = with_if(set, k, start < end);
    }
    set
}
