// Percent items replaced by the profile's values.
ghost use Rattle.std.specs.Prelude.{◌≡◌, ◌≤◌, length};
ghost use Rattle.text.specs.Bytes.{any_of};
ghost use Rattle.output.specs.Store.{farthest, Wrote};
ghost use Rattle.values.specs.Filling.{enclosed, prefixed, is_percent};

use super::write;

// Writes a value after its prefix, or nothing where it is empty.
pub fn put_prefixed(b: u8, t: &[u8], out: &mut [u8], at: u32) -> u32
    requires { (length out.old ≤ farthest) × (at ≤ farthest) }
    ensures { Wrote out.old out.new at (prefixed b t.now) result }
{
    if t.is_empty() {
        return at;
    }
    let start = write::put_byte(b, out, at);
    output::put(t, out, start)
}

// Writes a value in parentheses, or nothing where it is empty.
pub fn put_parens(t: &[u8], out: &mut [u8], at: u32) -> u32
    requires { (length out.old ≤ farthest) × (at ≤ farthest) }
    ensures { Wrote out.old out.new at (enclosed t.now) result }
{
    if t.is_empty() {
        return at;
    }
    let end = put_prefixed(b'(', t, out, at);
    write::put_byte(b')', out, end)
}

// Whether a word has a percent sign; one that has none is its own value.
pub fn has_percent(w: &[u8]) -> bool
    ensures { result ≡ any_of is_percent w.now }
{
    w.contains(&b'%')
}
