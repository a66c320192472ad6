// What single bytes are.
ghost use Rattle.std.specs.Prelude.{◌≡◌, drop};
ghost use Rattle.text.specs.Bytes.{first};
ghost use Rattle.text.specs.Marks.{ends_line, class_of};
ghost use Rattle.text.specs.Kinds.{blank};
ghost use Rattle.text.specs.Words.{bad_byte};
ghost use Rattle.text.specs.Reading.{in_word};

use super::Class;

// Whether the byte b begins a line end, with c behind it: LF, or the CR before it.
#[tactic(auto, unfolding(crate::specs::Marks::ends_line))]
pub fn ends_line(b: u8, c: u8) -> bool
    ensures { result ≡ ends_line b c }
{
    b == b'\n' || (b == b'\r' && c == b'\n')
}

#[tactic(auto, unfolding(crate::specs::Marks::class_of))]
fn class_of(b: u8, c: u8, d: u8) -> Class
    ensures { result ≡ class_of b c d }
{
    match b {
        b' ' | b'\t' => Class::Blank,
        b'!' => Class::Bang,
        b'\\' => if ends_line(c, d) {
            Class::Join
        } else {
            Class::Other
        },
        b'/' => if c == b'/' {
            Class::Slashes
        } else {
            Class::Other
        },
        _ => if ends_line(b, c) {
            Class::Blank
        } else {
            Class::Other
        },
    }
}

#[tactic(auto, using(crate::proofs::Positions::first_drop, crate::proofs::Positions::first_over))]
pub fn peek(s: &[u8], at: usize) -> u8
    ensures { result ≡ first (drop at s.now) }
{
    if at < s.len() { s[at] } else { 0 }
}

#[tactic(auto, unfolding(crate::specs::Reading::in_word, crate::specs::Reading::wordly))]
pub fn in_word(b: u8, c: u8, d: u8) -> bool
    ensures { result ≡ in_word b c d }
{
    if b == b'\n' {
        return false;
    }
    match class_of(b, c, d) {
        Class::Blank => false,
        Class::Join => false,
        Class::Slashes => true,
        Class::Bang => true,
        Class::Other => true,
    }
}

#[tactic(auto, unfolding(crate::specs::Words::bad_byte))]
pub fn bad_byte(b: u8) -> bool
    ensures { result ≡ bad_byte b }
{
    b < b'!' || (b'~' < b || b == b'\\')
}

#[tactic(auto, unfolding(crate::specs::Kinds::blank))]
pub fn is_blank(b: u8) -> bool
    ensures { result ≡ blank b }
{
    b == b' ' || b == b'\t'
}
