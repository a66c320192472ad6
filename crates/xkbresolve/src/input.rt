// The lines of the input.
ghost use Rattle.std.specs.Prelude.{◌≡◌};
ghost use Rattle.xkbresolve.specs.Program.{first_line, later_lines};

// The first line, without its line end, and what stands behind it.
pub fn split_line(s: &[u8]) -> (&[u8], &[u8])
    ensures { (result.0.now ≡ first_line s.now) × (result.1.now ≡ later_lines s.now) }
{
    match s.iter().position(|b| *b == b'\n') {
        Some(feed) => {
            let line = &s[..feed];
            (line.strip_suffix(b"\r").unwrap_or(line), &s[feed + 1..])
        }
        None => (s, &[]),
    }
}
