// What the entries for C that write and read a desk card do, on byte slices only.
ghost use Rattle.profile.specs.Profile.{texts_of};
ghost use Rattle.xkbrules.specs.Cards.{EntryWrites, EntryReads, CardWrites, CardReads};

use super::lengths::{lengths_in, put_lengths};
use super::{NO_ROOM, packed};
use card::reading::{judge, read};
use card::writing::write;
use profile::texts::Texts;
use text::faults::{Fault, Refusal};

// With a sheet under 40 bytes nothing is written, and the profile alone is checked.
fn write_card(
    profile: &Texts,
    texts: &[u8],
    sheet: &[u8],
    card: &mut [u8],
) -> Result<usize, Refusal>
    ensures { EntryWrites profile.now texts.now sheet.now card.old card.new result }
{
    if sheet.len() < 40 {
        profile.check()?;
        return Err(NO_ROOM);
    }
    write(profile, texts, lengths_in(sheet), card)
}

// Writes the card of a profile of four texts and of ten texts that `texts` begins with; `sheet` has their lengths. Gives the card's length, or a refusal's
// number times 2^48 plus its place, and then `card` is as it was.
pub fn xkbrules_card_write(
    model: &[u8],
    layouts: &[u8],
    variants: &[u8],
    options: &[u8],
    texts: &[u8],
    sheet: &[u8],
    card: &mut [u8],
) -> u64
    ensures { CardWrites (texts_of model.now layouts.now variants.now options.now)
        texts.now sheet.now card.old card.new result }
{
    let profile = Texts {
        model,
        layouts,
        variants,
        options,
    };
    match write_card(&profile, texts, sheet, card) {
        Ok(length) => length as u64,
        Err(refusal) => packed(refusal),
    }
}

// With a sheet under 56 bytes nothing is written, so the card is only judged.
fn read_card(card: &[u8], texts: &mut [u8], sheet: &mut [u8]) -> Result<(), Fault>
    ensures { EntryReads card.now texts.old texts.new sheet.old sheet.new result }
{
    if sheet.len() < 56 {
        judge(card)?;
        return Err(Fault::NoRoom);
    }
    let lengths = read(card, texts)?;
    put_lengths(sheet, &lengths);
    Ok(())
}

// Reads a card: `texts` then starts with its fourteen texts and `sheet` with their lengths, and the answer is 0. A refusal is its number times 2^48 and
// leaves both as they were.
pub fn xkbrules_card_read(card: &[u8], texts: &mut [u8], sheet: &mut [u8]) -> u64
    ensures { CardReads card.now texts.old texts.new sheet.old sheet.new result }
{
    match read_card(card, texts, sheet) {
        Ok(()) => 0,
        Err(fault) => packed(Refusal { fault, place: 0 }),
    }
}
