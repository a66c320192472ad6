// What the entries for C do, on numbers and byte slices only; `xkbrules_c` exports them.
#![tactic(auto)]

ghost use Rattle.std.specs.Prelude.{◌≡◌, ◌+◌, ◌*◌, ◌^◌, ◌≤◌, length};
ghost use Rattle.text.specs.Told.{number_of};
ghost use Rattle.profile.specs.Profile.{texts_of};
ghost use Rattle.answers.specs.Answer.{buffer_after};
ghost use Rattle.xkbrules.specs.Sheet.{entry_answer, code, sheet_after, EntryResolves, component_code};

use answers::components::sum_first;
use lengths::{lengths_in, put_lengths};
use profile::texts::Texts;
use resolver::resolving::{measure, resolve};
use text::faults::{Fault, Refusal};

pub mod cards;
mod lengths;

// Refusal 11.
const NO_ROOM: Refusal = Refusal {
    fault: Fault::NoRoom,
    place: 0,
};

// A refusal's number and place in one number: no place is over 65,537, a line more than the longest file has bytes.
fn packed(refusal: Refusal) -> u64
    requires { refusal.place ≤ 65537 }
    ensures { result ≡ number_of refusal.fault * 2 ^ 48 + refusal.place }
{
    (refusal.fault.number() * 281474976710656 + refusal.place) as u64
}

// The ten texts into a buffer, and their lengths into a sheet. With a sheet under 40 bytes nothing is written, so the answer is measured.
fn resolve_into(
    rules: &[u8],
    profile: &Texts,
    texts: &mut [u8],
    sheet: &mut [u8],
) -> Result<(), Refusal>
    ensures { EntryResolves rules.now profile.now texts.old texts.new sheet.old sheet.new result }
{
    if sheet.len() < 40 {
        measure(rules, profile, texts.len())?;
        return Err(NO_ROOM);
    }
    let lengths = resolve(rules, profile, texts)?;
    put_lengths(sheet, &lengths);
    Ok(())
}

// Resolves `rules` for a profile of four texts. Accepted is 0: then `texts` starts with the ten texts and `sheet` with their lengths. A refusal is its number
// times 2^48 plus its place, and leaves both as they were.
pub fn xkbrules_resolve(
    rules: &[u8],
    model: &[u8],
    layouts: &[u8],
    variants: &[u8],
    options: &[u8],
    texts: &mut [u8],
    sheet: &mut [u8],
) -> u64
    ensures { (result ≡ code (entry_answer (length texts.old) (length sheet.old) rules.now
        (texts_of model.now layouts.now variants.now options.now)))
        × (texts.new ≡ buffer_after texts.old (entry_answer (length texts.old) (length sheet.old) rules.now
        (texts_of model.now layouts.now variants.now options.now)))
        × (sheet.new ≡ sheet_after sheet.old (entry_answer (length texts.old) (length sheet.old) rules.now
        (texts_of model.now layouts.now variants.now options.now))) }
{
    let profile = Texts {
        model,
        layouts,
        variants,
        options,
    };
    match resolve_into(rules, &profile, texts, sheet) {
        Ok(()) => 0,
        Err(refusal) => packed(refusal),
    }
}

// Where a component stands in `texts` by the lengths in `sheet`: its start times 2^32 plus its length. 0 for a number over 4, a sheet under 40 bytes, and
// lengths whose sum is over that of `texts` or over 32 bits.
pub fn xkbrules_component(texts: &[u8], sheet: &[u8], component: u64) -> u64
    ensures { result ≡ component_code (length texts.now) sheet.now component }
{
    if 4 < component {
        return 0;
    }
    if sheet.len() < 40 {
        return 0;
    }
    let lengths = lengths_in(sheet);
    let total = sum_first(lengths, 10);
    if texts.len() < total {
        return 0;
    }
    let over = 4294967296 <= total;
    if over {
        return 0;
    }
    let c = component as usize;
    let start = sum_first(lengths, 2 * c);
    let end = sum_first(lengths, 2 * c + 2);
    (start * 4294967296 + (end - start)) as u64
}
