// One component of an answer: where it stands in the buffer.
ghost use Rattle.std.specs.Prelude.{◌≡◌, ◌≤◌, length, take};
ghost use Rattle.answers.specs.Answer.{sum, stretch};

// Lengths added up: ten numbers of 32 bits don't wrap in 64.
fn summed(lengths: &[u32]) -> usize
    requires { length lengths.now ≤ 10 }
    ensures { result ≡ sum lengths.now }
{
    lengths.iter().map(|x| *x as usize).sum()
}

// The first n of ten lengths, added up.
pub fn sum_first(lengths: [u32; 10], n: usize) -> usize
    ensures { result ≡ sum (take n lengths) }
{
    summed(&lengths[..n.min(10)])
}

// Base and additions of component c, as a part of the buffer: empty for a number over 4, or for lengths that add up to more than the buffer's.
pub fn component<'a>(texts: &'a [u8], lengths: [u32; 10], c: usize) -> &'a [u8]
    ensures { result.now ≡ stretch texts.now lengths c }
{
    if 4 < c || texts.len() < sum_first(lengths, 10) {
        return &texts[..0];
    }
    let start = sum_first(lengths, 2 * c);
    let end = sum_first(lengths, 2 * c + 2);
    &texts[start..end]
}
