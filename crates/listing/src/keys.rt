// The keys of names.
ghost use Rattle.std.specs.Prelude.{◌≡◌, ◌-◌, ◌/◌, length, slice_index};
ghost use Rattle.listing.specs.Names.{key_of};

// The first byte of a name, its last and its middle one; zeros where it is empty.
pub fn ends(w: &[u8]) -> (u8, u8, u8)
    ensures { (result.0 ≡ slice_index w.now 0)
        × (result.1 ≡ slice_index w.now (length w.now - 1))
        × (result.2 ≡ slice_index w.now (length w.now / 2)) }
{
    let n = w.len();
    if n == 0 {
        (0, 0, 0)
    } else {
        (w[0], w[n - 1], w[n / 2])
    }
}

// The key of a name, of these three bytes: most are told apart by it.
#[tactic(auto, unfolding(crate::specs::Names::key_of))]
pub fn key_of(w: &[u8]) -> usize
    ensures { result ≡ key_of w.now }
{
    let (first, last, middle) = ends(w);
    usize::from(first) * 65536 + usize::from(last) * 256 + usize::from(middle)
}
