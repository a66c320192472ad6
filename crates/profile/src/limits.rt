// The limits of one text: its length, its bytes, the lengths of its fields.
ghost use Rattle.std.specs.Prelude.{◌≡◌, [], ◌∷◌};
ghost use Rattle.text.specs.Bytes.{any_of};
ghost use Rattle.profile.specs.Profile.{fields};
ghost use Rattle.profile.specs.Refusals.{outside, bad_text};

// Some byte is not from 0x21 to 0x7E.
fn any_outside(text: &[u8]) -> bool
    ensures { result ≡ any_of outside text.now }
{
    text.iter().any(|b| !b.is_ascii_graphic())
}

// The model is bad: it is one field, commas included.
#[tactic(auto, unfolding(crate::specs::Refusals::bad_text, crate::specs::Refusals::long_field, text::specs::Bytes::any_of))]
pub fn bad_model(text: &[u8]) -> bool
    ensures { result ≡ bad_text text.now (text.now ∷ []) }
{
    64 < text.len() || any_outside(text)
}

// A text that is split at commas is bad. Bytes and fields are judged at one go, and by index: with a split for the fields a card took up to half as much time
// again, and a loop over the bytes alone takes three instructions more for each.
pub fn bad_fields(text: &[u8]) -> bool
    ensures { result ≡ bad_text text.now (fields text.now) }
{
    if 1024 < text.len() {
        return true;
    }
    let mut start = 0;
    for i in 0..text.len() {
        let b = text[i];
        if !b.is_ascii_graphic() {
            return true;
        }
        if b == b',' {
            let long = 64 < i - start;
            if long {
                return true;
            }
            start = i + 1;
        }
    }
    64 < text.len() - start
}
