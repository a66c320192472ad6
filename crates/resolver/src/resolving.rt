// The resolve of a rules file for a profile: its answer, and the ten texts in a lent buffer.
ghost use Rattle.std.specs.Prelude.{◌≡◌, length};
ghost use Rattle.answers.specs.Answer.{answer, outcome, no_room, Resolved};
ghost use Rattle.answers.specs.Told.{outcome_told};
ghost use Rattle.firing.specs.Stage.{stage_size, Staged};

use firing::LONGEST_TOTAL;
use firing::stage::{REGIONS, copy_texts, in_regions, lengths_between};
use firing::writing::places;
use profile::texts::Texts;
use reading::profiled::read_for;
use text::faults::{Fault, Refusal};

// A file has at most so many bytes.
const LONGEST_FILE: usize = 65536;

// Refusal 11: `total` is over the buffer's length, or over the longest total.
#[tactic(auto, unfolding(answers::specs::Answer::no_room))]
fn no_room(room: usize, total: u32) -> bool
    ensures { result ≡ no_room room total }
{
    room < total as usize || LONGEST_TOTAL < total
}

// The ten lengths, or the first refusal, of a resolve that is lent `room` bytes. The texts are left in the stage, each in its region, unless one is longer.
fn staged(s: &[u8], texts: &Texts, room: usize, stage: &mut [u8]) -> Result<[u32; 10], Refusal>
    requires { length stage.old ≡ stage_size }
    ensures { Staged room s.now texts.now stage.new (outcome_told result) }
{
    texts.check()?;
    if LONGEST_FILE < s.len() {
        return Err(Refusal {
            fault: Fault::LongFile,
            place: 0,
        });
    }
    let starts = REGIONS;
    let cursors = read_for(s, texts, starts, stage)?;
    let lengths = lengths_between(starts, cursors.at);
    let sums = places(lengths);
    if no_room(room, sums.total) {
        return Err(Refusal {
            fault: Fault::NoRoom,
            place: 0,
        });
    }
    Ok(lengths)
}

// The ten lengths, or the first refusal, of a resolve that is lent `room` bytes, without the texts.
pub fn measure(s: &[u8], texts: &Texts, room: usize) -> Result<[u32; 10], Refusal>
    ensures { outcome_told result ≡ outcome (answer room s.now texts.now) }
{
    let mut stage: [u8; 5120] = [0; 5120];
    staged(s, texts, room, &mut stage)
}

// The ten lengths, or the first refusal, with the ten texts at the start of the buffer; at a refusal the buffer is as it was.
pub fn resolve(s: &[u8], texts: &Texts, buf: &mut [u8]) -> Result<[u32; 10], Refusal>
    ensures { Resolved s.now texts.now buf.old buf.new (outcome_told result) }
{
    let mut stage: [u8; 5120] = [0; 5120];
    let lengths = staged(s, texts, buf.len(), &mut stage)?;
    if in_regions(lengths) {
        copy_texts(&stage, lengths, buf);
        return Ok(lengths);
    }
    // a text has run into the next region: all are written once more, where they belong
    let sums = places(lengths);
    let total = sums.total as usize;
    read_for(s, texts, sums.at, &mut buf[..total])?;
    Ok(lengths)
}
