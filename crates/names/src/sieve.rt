// The filter before a list of names: a word whose number is that of no name is none of them.
ghost use Rattle.std.specs.Prelude.{◌≡◌};
ghost use Rattle.names.specs.Compiled.{sieve_of};

use listing::keys::ends;

// How many flags the filter has.
pub const FLAGS: usize = 1024;

// The number of a word in the filter.
#[tactic(auto, unfolding(crate::specs::Compiled::sieve_of))]
pub fn sieve_of(w: &[u8]) -> usize
    ensures { result ≡ sieve_of w.now }
{
    let (first, last, middle) = ends(w);
    (usize::from(first) * 41 + usize::from(last) * 7 + usize::from(middle)) % FLAGS
}
