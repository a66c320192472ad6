// The words of a line that is split: how many there are, and where the first ten stand.
ghost use Rattle.std.specs.Prelude.{◌≡◌, [], ◌<◌, length, get_or};
ghost use Rattle.rules.specs.Splitting.{words_of, Placed};

use text::Span;

#[derive(Clone, Copy)]
pub struct PlacedWords<'a> {
    pub text: &'a [u8],
    pub places: &'a [Span; 10],
    pub count: usize,
    pub ghost placed: { Placed text.now places.now (words_of text.now) (length (words_of text.now)) },
    pub ghost counted: { count ≡ length (words_of text.now) },
}

impl<'a> PlacedWords<'a> {
    ghost use Rattle.rules.specs.Placed.{words_in};

    // The j-th word, of the first ten.
    #[tactic(auto, unfolding(text::specs::Bytes::part))]
    pub fn word(&self, j: usize) -> &'a [u8]
        requires { (j < 10) × (j < self.now.count) }
        ensures { result.now ≡ get_or (words_in self.now) j [] }
    {
        let place = self.places[j];
        &self.text[place.start..place.end]
    }
}
