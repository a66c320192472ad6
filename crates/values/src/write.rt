// Bytes, texts and numbers written one after the other into a lent buffer.
ghost use Rattle.std.specs.Prelude.{[], ◌∷◌, ◌≤◌, ◌<◌, length};
ghost use Rattle.output.specs.Store.{farthest, Wrote};
ghost use Rattle.rules.specs.Headings.{decimal};

pub fn put_byte(b: u8, out: &mut [u8], at: u32) -> u32
    ensures { Wrote out.old out.new at (b ∷ []) result }
{
    let i = at as usize;
    if i < out.len() {
        out[i] = b;
        // a return of its own: where the compiler knows how long `out` is, no position is looked at
        return output::past(at, 1);
    }
    output::past(at, 1)
}

// Writes a number below 100 in decimal.
pub fn put_number(k: usize, out: &mut [u8], at: u32) -> u32
    requires { (k < 100) × (length out.old ≤ farthest) }
    ensures { Wrote out.old out.new at (decimal k) result }
{
    if k < 10 {
        return put_byte(b'0' + k as u8, out, at);
    }
    let next = put_byte(b'0' + (k / 10) as u8, out, at);
    put_byte(b'0' + (k % 10) as u8, out, next)
}
