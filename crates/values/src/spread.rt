// `:all`: a value cut before its signs, and each piece that ends with `:all` as copies.
ghost use Rattle.std.specs.Prelude.{◌≡◌, ◌∷◌, ◌++◌, true, ◌+◌, ◌*◌, ◌-◌, ◌≤◌, ◌<◌, length};
ghost use Rattle.text.specs.Bytes.{concat_map};
ghost use Rattle.output.specs.Store.{stored, farthest, Wrote};
ghost use Rattle.rules.specs.Headings.{decimal};
ghost use Rattle.values.specs.Spread.{is_sign, signed, cuts, copy, copies, spread};
ghost use Rattle.values.specs.Cutting.{closes_all, ToColon, NextAll, start_of, sign_of, behind_sign, more_copies};

use super::write;

// Whether a byte is a sign.
fn is_sign(b: u8) -> bool
    ensures { result ≡ is_sign b }
{
    b == b'+' || b == b'|'
}

// Whether a text begins with a sign.
pub fn is_signed(t: &[u8]) -> bool
    ensures { result ≡ signed t.now }
{
    match t {
        [b, ..] => is_sign(*b),
        [] => false,
    }
}

// Writes a text, `:` and a number of one digit.
fn put_numbered(t: &[u8], k: usize, out: &mut [u8], at: u32) -> u32
    requires { (k < 10) × (length out.old ≤ farthest) × (at ≤ farthest) }
    ensures { Wrote out.old out.new at (t.now ++ (58 ∷ decimal k)) result }
{
    let start = at as usize;
    let n = t.len();
    if start + n + 2 <= out.len() {
        output::store(t, out, start);
        out[start + n] = b':';
        out[start + n + 1] = b'0' + k as u8;
        return at + (n + 2) as u32;
    }
    let colon = output::put(t, out, at);
    let number = write::put_byte(b':', out, colon);
    write::put_number(k, out, number)
}

// The copies of a piece behind the first: each has the sign, what stands behind it, `:` and its number.
#[derive(Clone, Copy)]
struct Copies<'a> {
    sign: u8,
    rest: &'a [u8],
    ghost is_sign: { is_sign sign ≡ true },
}

impl<'a> Copies<'a> {
    // Those of the piece t, without its `:all`.
    fn of(t: &'a [u8]) -> Copies<'a>
        ensures { (result.sign ≡ sign_of t.now) × (result.rest.now ≡ behind_sign t.now) }
    {
        if is_signed(t) {
            return Copies {
                sign: t[0],
                rest: &t[1..],
            };
        }
        Copies {
            sign: b'+',
            rest: t,
        }
    }

    // How long the copies 2 to n are together.
    fn length(&self, n: usize) -> usize
        requires { (1 ≤ n) × (n < 10) × (length self.now.rest.now ≤ farthest) }
        ensures { result ≡ (n - 1) * (length self.now.rest.now + 3) }
    {
        (n - 1) * (self.rest.len() + 3)
    }

    // Writes them, where there is room for them. The room is looked at once for all: with `put` alone the worst files take up to a third more instructions.
    fn write(&self, n: usize, out: &mut [u8], at: usize)
        requires { (1 ≤ n) × (n < 10) × (at + (n - 1) * (length self.now.rest.now + 3) ≤ length out.old) × (length out.old ≤ farthest) }
        ensures { out.new ≡ stored out.old at (copies (n - 1) 2 (self.now.sign ∷ self.now.rest.now)) }
    {
        let rest = self.rest;
        let mut o = at;
        for k in 2..=n {
            out[o] = self.sign;
            output::store(rest, out, o + 1);
            let colon = o + 1 + rest.len();
            out[colon] = b':';
            out[colon + 1] = b'0' + k as u8;
            o = colon + 2;
        }
    }

    // Writes them as far as there is room.
    fn put(&self, n: usize, out: &mut [u8], at: u32) -> u32
        requires { (1 ≤ n) × (n < 10) × (length out.old ≤ farthest) × (at ≤ farthest) }
        ensures { Wrote out.old out.new at (copies (n - 1) 2 (self.now.sign ∷ self.now.rest.now)) result }
    {
        let rest = self.rest;
        let mut o = at;
        for k in 2..=n {
            let behind = write::put_byte(self.sign, out, o);
            o = put_numbered(rest, k, out, behind);
        }
        o
    }
}

// The first colon from `from` on; none where too few bytes are left for `:all`.
fn to_colon(t: &[u8], from: usize) -> Option<usize>
    requires { from ≤ length t.now }
    ensures { ToColon t.now from result }
{
    let mut i: usize = from;
    // four bytes a turn, three instructions a byte: `position` takes five
    while i + 3 < t.len() {
        if t[i] == b':' {
            return Some(i);
        }
        if t[i + 1] == b':' {
            return Some(i + 1);
        }
        if t[i + 2] == b':' {
            return Some(i + 2);
        }
        if t[i + 3] == b':' {
            return Some(i + 3);
        }
        i += 4;
    }
    None
}

// Whether a piece ends with the `:all` that a text begins with.
fn closes_all(t: &[u8]) -> bool
    ensures { result ≡ closes_all t.now }
{
    match t.strip_prefix(b":all") {
        Some(rest) => rest.is_empty() || is_signed(rest),
        None => false,
    }
}

// The first place from `from` on where an `:all` begins that a piece ends with.
fn next_all(t: &[u8], from: usize) -> Option<usize>
    requires { from ≤ length t.now }
    ensures { NextAll t.now from result }
{
    let mut colon = to_colon(t, from);
    while let Some(c) = colon {
        if closes_all(&t[c..]) {
            return Some(c);
        }
        colon = to_colon(t, c + 1);
    }
    None
}

// Where the piece starts that the place c stands in: at a sign, or at `from`.
fn piece_start(t: &[u8], from: usize, c: usize) -> usize
    requires { (from ≤ c) × (c < length t.now) }
    ensures { result ≡ start_of t.now from c }
{
    for p in (from + 1..c + 1).rev() {
        if is_sign(t[p]) {
            return p;
        }
    }
    from
}

// Writes the copies 2 to n of the piece whose `:all` begins at c. It starts at `from` or behind it.
fn put_more(t: &[u8], from: usize, c: usize, n: usize, out: &mut [u8], at: u32) -> u32
    requires { (from ≤ c) × (c < length t.now) × (1 ≤ n) × (n < 10) × (length t.now ≤ farthest) × (length out.old ≤ farthest) × (at ≤ farthest) }
    ensures { Wrote out.old out.new at (more_copies n t.now from c) result }
{
    if n < 2 {
        return at;
    }
    let copies = Copies::of(&t[piece_start(t, from, c)..c]);
    let length = copies.length(n);
    let start = at as usize;
    if start + length <= out.len() {
        copies.write(n, out, start);
        return at + length as u32;
    }
    copies.put(n, out, at)
}

// How long they are together.
fn more_length(t: &[u8], from: usize, c: usize, n: usize) -> usize
    requires { (from ≤ c) × (c < length t.now) × (1 ≤ n) × (n < 10) × (length t.now ≤ farthest) }
    ensures { result ≡ length (more_copies n t.now from c) }
{
    if n < 2 {
        return 0;
    }
    Copies::of(&t[piece_start(t, from, c)..c]).length(n)
}

// How long a filled value is with its `:all` spread over n layouts.
fn spread_length(t: &[u8], n: usize) -> usize
    requires { (1 ≤ n) × (n < 10) × (length t.now ≤ farthest) }
    ensures { result ≡ length (concat_map (spread n) (cuts t.now)) }
{
    let mut i: usize = 0;
    let mut m: usize = 0;
    while let Some(c) = next_all(t, i) {
        m = m + (c - i) + 2 + more_length(t, i, c, n);
        i = c + 4;
    }
    m + (t.len() - i)
}

// Writes a filled value with its `:all` spread over n layouts. The first copy of a piece stands as the piece does, but for its end. Behind the buffer's end all is
// counted alone.
pub fn put_spread(t: &[u8], n: usize, out: &mut [u8], at: u32) -> u32
    requires { (1 ≤ n) × (n < 10) × (length t.now ≤ farthest) × (length out.old ≤ farthest) × (at ≤ farthest) }
    ensures { Wrote out.old out.new at (concat_map (spread n) (cuts t.now)) result }
{
    // too short for `:all`
    if t.len() < 4 {
        return output::put(t, out, at);
    }
    if out.len() <= at as usize {
        return output::past(at, spread_length(t, n));
    }
    let mut i: usize = 0;
    let mut o: u32 = at;
    while let Some(c) = next_all(t, i) {
        let behind_first = put_numbered(&t[i..c], 1, out, o);
        o = put_more(t, i, c, n, out, behind_first);
        i = c + 4;
    }
    output::put(&t[i..], out, o)
}
