// Sets as bare numbers, until their holders hold a Set.
ghost use Rattle.std.specs.Prelude.{◌≡◌, ◌||◌, ◌&&◌, not, ℕ, ◌+◌, ◌<◌, ◌≤◌, eqb};
ghost use Rattle.bitsets.specs.Sets.{is_in, Spans};

use crate::Set;

pub fn contains(s: u64, k: usize) -> bool
    requires { k < 64 }
    ensures { result ≡ is_in k s }
{
    Set { bits: s }.contains(k)
}

pub fn with(s: u64, k: usize) -> u64
    requires { k < 64 }
    ensures { (j : ℕ) → is_in j result ≡ (is_in j s || eqb k j) }
{
    Set { bits: s }.with(k).bits
}

pub fn both(s: u64, t: u64) -> u64
    ensures { (j : ℕ) → is_in j result ≡ (is_in j s && is_in j t) }
{
    Set { bits: s }.intersection(Set { bits: t }).bits
}

pub fn without(s: u64, t: u64) -> u64
    ensures { (j : ℕ) → is_in j result ≡ (is_in j s && not (is_in j t)) }
{
    Set { bits: s }.without(Set { bits: t }).bits
}

// The numbers from `first` on.
pub fn span(first: usize, count: usize) -> u64
    requires { first + count ≤ 64 }
    ensures { Spans first count result }
{
    Set::span(first, count).bits
}
