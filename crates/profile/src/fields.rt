// The fields of a text, which is split at commas.
ghost use Rattle.std.specs.Prelude.{◌≡◌, ◌+◌, ◌≤◌, length};
ghost use Rattle.profile.specs.Profile.{fields as fields_of, options_of};
ghost use Rattle.profile.specs.Splitting.{FieldEnd};

// Where the field that begins at `from` ends: at the next comma, or at the text's end.
pub fn field_end(text: &[u8], from: usize) -> usize
    requires { from ≤ length text.now }
    ensures { FieldEnd text.now from result }
{
    match text[from..].iter().position(|b| *b == b',') {
        Some(n) => from + n,
        None => text.len(),
    }
}

// How many fields a text has; of the layouts text this is the layout count.
pub fn field_count(text: &[u8]) -> usize
    ensures { result ≡ length (fields_of text.now) }
{
    let mut count = 1;
    for b in text {
        if *b == b',' {
            count += 1;
        }
    }
    count
}

// How many options a text has, empty fields dropped. The step is the length of a field; a split, filtered and counted, takes two instructions more for each byte.
pub fn option_count(options: &[u8]) -> usize
    ensures { result ≡ length (options_of options.now) }
{
    let mut count = 0;
    let mut start = 0;
    while start < options.len() {
        let end = field_end(options, start);
        if start < end {
            count += 1;
        }
        start = end + 1;
    }
    count
}
