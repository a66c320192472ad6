// The words of a set heading: its left items with their indexes, and its components.
ghost use Rattle.std.specs.Prelude.{◌≡◌, ◌∷◌, [], length, take, option_to_list};
ghost use Rattle.text.specs.Bytes.{same as same_text};
ghost use Rattle.text.specs.Limits.{most_layouts};
ghost use Rattle.rules.specs.Headings.{numbered_in, up_from, index_of, left_item, columns_in, indexes_in, component_of, has_word};
ghost use Rattle.rules.specs.Sets.{known_component};

use super::percent::tail;
use super::{Column, Index, Item};
use text::compare::same;

// `[1]` to `[4]`.
#[tactic(auto, using(crate::proofs::Keyed::numbered_reads, std::proofs::lemmas::Bool::Decides::nat_tests))]
pub fn numbered(w: &[u8]) -> Option<Index>
    ensures { result ≡ numbered_in w.now (up_from most_layouts 1) }
{
    match w {
        [b'[', d @ b'1'..=b'4', b']'] => Some(Index::Numbered(usize::from(*d - b'0'))),
        _ => None,
    }
}

// What follows `layout` or `variant`.
#[tactic(auto, using(crate::proofs::Keyed::index_reads, std::proofs::lemmas::Bool::Decides::nat_tests))]
fn index_of(w: &[u8]) -> Option<Index>
    ensures { result ≡ index_of w.now }
{
    if w.is_empty() {
        return Some(Index::Absent);
    }
    if same(w, b"[single]") {
        return Some(Index::Single);
    }
    if same(w, b"[first]") {
        return Some(Index::First);
    }
    if same(w, b"[later]") {
        return Some(Index::Later);
    }
    if same(w, b"[any]") {
        return Some(Index::Any);
    }
    numbered(w)
}

// Whether a word begins with a keyword.
#[tactic(auto, using(crate::proofs::Keyed::begins_short))]
pub fn begins(w: &[u8], k: &[u8]) -> bool
    ensures { result ≡ same_text (take (length k.now) w.now) k.now }
{
    let n = k.len();
    if w.len() < n {
        return false;
    }
    same(&w[..n], k)
}

// A left item; its index is what follows `layout` or `variant`.
#[tactic(auto, using(crate::proofs::Keyed::left_reads))]
pub fn left_item(w: &[u8]) -> Option<Item>
    ensures { result ≡ left_item w.now }
{
    if same(w, b"model") {
        return Some(Item::Model);
    }
    if same(w, b"option") {
        return Some(Item::Options);
    }
    if begins(w, b"layout") {
        return Some(Item::Layout(index_of(tail(w, 6))?));
    }
    if begins(w, b"variant") {
        return Some(Item::Variant(index_of(tail(w, 7))?));
    }
    None
}

// The number of a component in the answer.
#[tactic(auto, using(crate::proofs::Keyed::component_reads))]
pub fn component_of(w: &[u8]) -> Option<usize>
    ensures { result ≡ known_component (component_of w.now) }
{
    if same(w, b"keycodes") {
        return Some(0);
    }
    if same(w, b"types") {
        return Some(1);
    }
    if same(w, b"compat") {
        return Some(2);
    }
    if same(w, b"symbols") {
        return Some(3);
    }
    if same(w, b"geometry") {
        return Some(4);
    }
    None
}

impl Item {
    #[tactic(auto, unfolding(crate::specs::Headings::columns_in))]
    pub fn column(self) -> Column
        ensures { result ∷ [] ≡ columns_in (Some self) }
    {
        match self {
            Item::Model => Column::Model,
            Item::Layout(_) => Column::Layout,
            Item::Variant(_) => Column::Variant,
            Item::Options => Column::Options,
        }
    }

    // The index of an item that takes one.
    #[tactic(auto, unfolding(crate::specs::Headings::indexes_in))]
    pub fn index(self) -> Option<Index>
        ensures { option_to_list result ≡ indexes_in (Some self) }
    {
        match self {
            Item::Layout(index) | Item::Variant(index) => Some(index),
            Item::Model | Item::Options => None,
        }
    }
}

impl Index {
    // Whether it is one of the four index words.
    #[tactic(auto, unfolding(crate::specs::Headings::has_word))]
    pub fn has_word(self) -> bool
        ensures { result ≡ has_word self }
    {
        matches!(
            self,
            Index::Single | Index::First | Index::Later | Index::Any
        )
    }
}
