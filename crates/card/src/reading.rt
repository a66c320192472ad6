// A card read from a slice: its fourteen texts are found, the profile among them is checked, and then they are copied.
ghost use Rattle.std.specs.Prelude.{◌≡◌, [], ◌∷◌, true, false, ◌≤◌, length, map, MatchOption, MatchResult};
ghost use Rattle.text.specs.Bytes.{any_of};
ghost use Rattle.answers.specs.Answer.{total, accepted, buffer_after};
ghost use Rattle.card.specs.Card.{section_count, card_profile, section_text, behind_section, cut_short, broken};
ghost use Rattle.card.specs.Writing.{long_section};
ghost use Rattle.card.specs.Reading.{texts_on, card_refusals, Clear, Judges, Reads};

use output::store;
use profile::texts::Texts;
use text::faults::Fault;

// The text of the section that a card begins with, and what stands behind it; nothing where the section is cut short.
fn split_section(card: &[u8]) -> Option<(&[u8], &[u8])>
    ensures { MatchOption result (cut_short card.now ≡ true)
        (λ p. (cut_short card.now ≡ false) × (p.0.now ≡ section_text card.now) × (p.1.now ≡ behind_section card.now)) }
{
    let (size, behind) = card.split_first_chunk::<2>()?;
    behind.split_at_checked(usize::from(u16::from_le_bytes(*size)))
}

// The texts of the fourteen sections that are all that a card holds.
#[derive(Clone, Copy)]
struct Sections<'a> {
    texts: [&'a [u8]; 14],
    ghost short: { any_of long_section (map length (map (λ t. t.now) texts)) ≡ false },
}

impl<'a> Sections<'a> {
    // Nothing where a card holds anything else. Inlined, as `judged` is, so that the 224 bytes of the sections are not moved.
    #[inline(always)]
    fn find(card: &'a [u8]) -> Option<Sections<'a>>
        ensures { MatchOption result (broken section_count card.now ≡ true)
            (λ r. (broken section_count card.now ≡ false) × (map (λ t. t.now) r.texts ≡ texts_on card.now)) }
    {
        let mut texts: [&[u8]; 14] = [&[]; 14];
        let mut rest = card;
        // by index: a loop over `iter_mut` of an array of references is not covered yet
        for i in 0..14 {
            let (text, behind) = split_section(rest)?;
            texts[i] = text;
            rest = behind;
        }
        let whole = rest.is_empty();
        if whole {
            Some(Sections { texts })
        } else {
            None
        }
    }

    fn profile(&self) -> Texts<'a>
        ensures { result ≡ card_profile (map (λ t. t.now) self.now.texts) }
    {
        Texts {
            model: self.texts[0],
            layouts: self.texts[1],
            variants: self.texts[2],
            options: self.texts[3],
        }
    }

    fn lengths(&self) -> [u32; 14]
        ensures { result ≡ map length (map (λ t. t.now) self.now.texts) }
    {
        let mut lengths: [u32; 14] = [0; 14];
        for (i, text) in self.texts.iter().enumerate() {
            lengths[i] = text.len() as u32;
        }
        lengths
    }

    // The texts one after the other without gaps.
    fn copy(&self, buffer: &mut [u8])
        requires { total (map (λ t. t.now) self.now.texts) ≤ length buffer.old }
        ensures { buffer.new ≡ buffer_after buffer.old (accepted (map (λ t. t.now) self.now.texts)) }
    {
        let mut at = 0;
        for text in self.texts {
            store(text, buffer, at);
            at += text.len();
        }
    }
}

// A card by itself, before there is a buffer for its texts: its sections, or 16.
#[inline(always)]
fn judged(card: &[u8]) -> Result<Sections<'_>, Fault>
    ensures { MatchResult result (λ r. Clear card.now (map (λ t. t.now) r.texts))
        (λ f. (f ≡ Fault.BadCard) × (card_refusals card.now ≡ record { number = 16; place = 0 } ∷ [])) }
{
    let sections = Sections::find(card).ok_or(Fault::BadCard)?;
    let refused = sections.profile().check().is_err();
    if refused {
        return Err(Fault::BadCard);
    }
    Ok(sections)
}

// The lengths of a card's texts, or 16.
pub fn judge(card: &[u8]) -> Result<[u32; 14], Fault>
    ensures { Judges card.now result }
{
    Ok(judged(card)?.lengths())
}

// Reads a card: its texts into the buffer, one after the other, and their lengths. A refusal leaves the buffer as it was.
pub fn read(card: &[u8], texts: &mut [u8]) -> Result<[u32; 14], Fault>
    ensures { Reads card.now texts.old texts.new result }
{
    let sections = judged(card)?;
    if texts.len() < card.len() - 28 {
        return Err(Fault::NoRoom);
    }
    sections.copy(texts);
    Ok(sections.lengths())
}
