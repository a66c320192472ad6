// Values kept in order, none twice.
ghost use Rattle.std.specs.Prelude.{◌≡◌, ◌≤◌, ◌+◌, ◌⊎◌, ◌++◌, ◌∷◌, [], length, take, set, true, false, MatchOption, ⊤};
ghost use Rattle.std.specs.List.{list_any};

use std::alloc::AllocError;

// The first `count` of the items.
pub struct Listing<T, const N: usize> {
    pub count: usize,
    pub items: [T; N],
    pub ghost few: { count ≤ N },
    pub ghost sized: { length items ≡ N },
}

impl<T: Copy, const N: usize> Clone for Listing<T, N> {
    ghost is_clone = { λ x y. y ≡ x };

    ghost is_infallible = { λ _. ⊤ };

    fn clone(&self) -> Result<Self, AllocError> {
        Ok(*self)
    }
}

impl<T: Copy, const N: usize> Copy for Listing<T, N> {}

impl<T: Copy + Eq, const N: usize> Listing<T, N> {
    // No values; `x` stands where there will be some.
    pub fn none(x: T) -> Listing<T, N>
        ensures { result.count ≡ 0 }
    {
        Listing {
            count: 0,
            items: [x; N],
        }
    }

    pub fn items(&self) -> &[T]
        ensures { result.now ≡ take self.now.count self.now.items }
    {
        &self.items[..self.count]
    }

    // With a value more; none where there is no room, or it is there.
    pub fn with(&self, x: T) -> Option<Listing<T, N>>
        ensures { let there = list_any (λ y. T.eq y x) (take self.now.count self.now.items) in
            MatchOption result ((self.now.count ≡ N) ⊎ (there ≡ true))
            (λ l. (there ≡ false) × (l.count ≡ self.now.count + 1) × (take l.count l.items ≡ take self.now.count self.now.items ++ (x ∷ []))
            × (l.items ≡ set self.now.items self.now.count x)) }
    {
        if self.count == N {
            return None;
        }
        if self.items().contains(&x) {
            return None;
        }
        let mut items = self.items;
        items[self.count] = x;
        Some(Listing {
            count: self.count + 1,
            items,
        })
    }
}
