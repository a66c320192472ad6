// Kinds of words, told by the length and the first byte alone.
ghost use Rattle.std.specs.Prelude.{◌≡◌};
ghost use Rattle.rules.specs.Words.{is_equals, is_star, ordinary, is_group_name, left_word};

#[tactic(auto, using(crate::proofs::Kind::equals_reads))]
pub fn is_equals(w: &[u8]) -> bool
    ensures { result ≡ is_equals w.now }
{
    matches!(w, b"=")
}

#[tactic(auto, using(crate::proofs::Kind::star_reads))]
pub fn is_star(w: &[u8]) -> bool
    ensures { result ≡ is_star w.now }
{
    matches!(w, b"*")
}

// `=` alone is no ordinary word, but `=a` is one.
#[tactic(auto, using(crate::proofs::Kind::ordinary_reads))]
pub fn is_ordinary(w: &[u8]) -> bool
    ensures { result ≡ ordinary w.now }
{
    match w {
        [b'!' | b'$' | b'*', ..] | b"=" => false,
        _ => true,
    }
}

// `$name` with a name that is not empty.
#[tactic(auto, using(crate::proofs::Kind::group_reads))]
pub fn is_group_name(w: &[u8]) -> bool
    ensures { result ≡ is_group_name w.now }
{
    matches!(w, [b'$', _, ..])
}

// A word that may stand on a rule's left side.
#[tactic(auto, unfolding(crate::specs::Words::left_word))]
pub fn is_left_word(w: &[u8]) -> bool
    ensures { result ≡ left_word w.now }
{
    is_ordinary(w) || is_star(w) || is_group_name(w)
}
