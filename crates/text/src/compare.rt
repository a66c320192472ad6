// Two texts compared: the one comparison that every keyword, value and group name goes through.
ghost use Rattle.std.specs.Prelude.{◌≡◌};
ghost use Rattle.text.specs.Bytes.{same as same_text};

// The last bytes are compared first: words that are listed often begin alike.
#[tactic(auto, using(crate::proofs::Comparing::same_length, crate::proofs::Comparing::same_none, crate::proofs::Comparing::same_differ, crate::proofs::Comparing::pointwise_same))]
pub fn same(a: &[u8], b: &[u8]) -> bool
    ensures { result ≡ same_text a.now b.now }
{
    let n = a.len();
    if n != b.len() {
        return false;
    }
    if n == 0 {
        return true;
    }
    if a[n - 1] != b[n - 1] {
        return false;
    }
    a == b
}
