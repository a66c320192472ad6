// Texts written into a lent buffer: a byte behind the buffer's end is counted and not stored, so that a text is measured where it has no room.
#![tactic(auto)]

ghost use Rattle.std.specs.Prelude.{◌≡◌, ◌-◌, ◌≤◌, length};
ghost use Rattle.output.specs.Store.{stored, past as past_of, Wrote};

// Positions end here, so that no sum can wrap.
const FARTHEST: usize = 1058817;

// The position n bytes on.
#[tactic(auto, unfolding(crate::specs::Store::past))]
pub fn past(at: u32, n: usize) -> u32
    ensures { result ≡ past_of at n }
{
    (at as usize).saturating_add(n).min(FARTHEST) as u32
}

// Stores at most three bytes, each by itself: with the loop below alone a resolve took up to 28 % more instructions. One after the other: of a `match` by the
// number of bytes the compiler makes a jump table.
#[tactic(auto, unfolding(crate::specs::Store::stored))]
fn store_few(text: &[u8], out: &mut [u8], at: usize)
    requires { (length text.now ≤ 3) × (length text.now ≤ length out.old - at) }
    ensures { out.new ≡ stored out.old at text.now }
{
    let [a, behind @ ..] = text else {
        return;
    };
    out[at] = *a;
    let [b, behind @ ..] = behind else {
        return;
    };
    out[at + 1] = *b;
    let [c, ..] = behind else {
        return;
    };
    out[at + 2] = *c;
}

// Stores a text, for which there is room.
pub fn store(text: &[u8], out: &mut [u8], at: usize)
    requires { length text.now ≤ length out.old - at }
    ensures { out.new ≡ stored out.old at text.now }
{
    if text.len() < 4 {
        store_few(text, out, at);
        return;
    }
    // Compiled to a call of memcpy; copy_from_slice would be one of memmove, which the library does not need otherwise.
    for i in 0..text.len() {
        out[at + i] = text[i];
    }
}

// Writes a text from a position on, as far as there is room, and gives the position after it.
pub fn put(text: &[u8], out: &mut [u8], at: u32) -> u32
    ensures { Wrote out.old out.new at text.now result }
{
    let room = out.len().saturating_sub(at as usize);
    store(&text[..text.len().min(room)], out, at as usize);
    past(at, text.len())
}
