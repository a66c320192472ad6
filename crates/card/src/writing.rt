// A card written into a lent buffer, once it is known that nothing is refused.
ghost use Rattle.std.specs.Prelude.{◌≡◌, [], true, false, ◌+◌, ◌≤◌, length, MatchOption};
ghost use Rattle.text.specs.Limits.{longest_text};
ghost use Rattle.text.specs.Bytes.{any_of};
ghost use Rattle.output.specs.Store.{stored};
ghost use Rattle.profile.specs.Refusals.{profile_refusals};
ghost use Rattle.answers.specs.Answer.{sum, texts_in};
ghost use Rattle.card.specs.Card.{longest_section, section, card_of, card_texts};
ghost use Rattle.card.specs.Writing.{long_section, lent_texts, unwritable, Short, Writes};

use answers::components::sum_first;
use output::store;
use profile::texts::Texts;
use text::faults::{Fault, Refusal};

// A section's length is in two bytes.
const LONGEST_SECTION: u32 = 65535;

const NO_ROOM: Refusal = Refusal {
    fault: Fault::NoRoom,
    place: 0,
};

// Whether one of ten sections is over 65,535 bytes.
fn any_long(lengths: &[u32; 10]) -> bool
    ensures { result ≡ any_of long_section lengths.now }
{
    lengths.iter().any(|length| LONGEST_SECTION < *length)
}

// One section: the length of a text in two bytes, the lowest first, then the text. Gives the place behind it.
fn put_section(text: &[u8], card: &mut [u8], at: usize) -> usize
    requires { (length text.now ≤ longest_section) × (at + (2 + length text.now) ≤ length card.old) }
    ensures { (card.new ≡ stored card.old at (section text.now)) × (result ≡ at + (2 + length text.now)) }
{
    store(&(text.len() as u16).to_le_bytes(), card, at);
    store(text, card, at + 2);
    at + (2 + text.len())
}

// The four texts of a profile, as the first sections. Gives the place behind them.
fn put_profile(texts: &Texts, card: &mut [u8]) -> usize
    requires { Short texts.now (length card.old) }
    ensures { (card.new ≡ stored card.old 0 (card_of (card_texts texts.now [])))
        × (result ≡ length (card_of (card_texts texts.now []))) }
{
    let at = put_section(texts.model, card, 0);
    let at = put_section(texts.layouts, card, at);
    let at = put_section(texts.variants, card, at);
    put_section(texts.options, card, at)
}

// The ten texts of these lengths that `ten` begins with, as sections from a place on.
fn put_components(ten: &[u8], lengths: [u32; 10], card: &mut [u8], mut at: usize)
    requires { (any_of long_section lengths ≡ false) × (sum lengths ≤ length ten.now) × (at + (20 + sum lengths) ≤ length card.old) }
    ensures { card.new ≡ stored card.old at (card_of (texts_in ten.now lengths)) }
{
    let mut rest = ten;
    for length in lengths {
        let (text, more) = rest.split_at(length as usize);
        at = put_section(text, card, at);
        rest = more;
    }
}

// The length of a card that can be written: no section is too long, and there are enough lent texts and enough room.
fn card_size(texts: &Texts, ten: &[u8], lengths: [u32; 10], room: usize) -> Option<usize>
    requires { profile_refusals texts.now ≡ [] }
    ensures { MatchOption result (unwritable room texts.now ten.now lengths ≡ true)
        (λ n. (unwritable room texts.now ten.now lengths ≡ false) × (n ≡ length (card_of (lent_texts texts.now ten.now lengths)))) }
{
    if any_long(&lengths) {
        return None;
    }
    let total = sum_first(lengths, 10);
    // two bytes for each of the fourteen lengths
    let size = 28
        + (texts.model.len() + texts.layouts.len() + texts.variants.len() + texts.options.len())
        + total;
    let fits = total <= ten.len() && size <= room;
    fits.then_some(size)
}

// Writes the card of a profile and of the ten texts of these lengths that `ten` begins with, and gives its length. A refusal leaves the buffer as it was.
pub fn write(
    texts: &Texts,
    ten: &[u8],
    lengths: [u32; 10],
    card: &mut [u8],
) -> Result<usize, Refusal>
    ensures { Writes texts.now ten.now lengths card.old card.new result }
{
    texts.check()?;
    let size = card_size(texts, ten, lengths, card.len()).ok_or(NO_ROOM)?;
    let at = put_profile(texts, card);
    put_components(ten, lengths, card, at);
    Ok(size)
}
