// What is refused, as the code speaks of it: each fault by its name. The definitions speak of numbers.
ghost use Rattle.std.specs.Prelude.{◌≡◌};
ghost use Rattle.text.specs.Told.{number_of, fault_number};
ghost use Rattle.text.specs.Reading.{lower as lower_of};

// Each fault has the number that the definitions give it.
#[derive(Clone, Copy, PartialEq, Eq, Debug)]
pub enum Fault {
    BadText = 1,
    TooMany = 2,
    LongFile = 3,
    BadByte = 4,
    LongWord = 5,
    BadLine = 6,
    BadHeading = 7,
    BadPercent = 8,
    IncludeLine = 9,
    BadGroup = 10,
    NoRoom = 11,
    BadCard = 16,
}

impl Fault {
    pub fn number(self) -> usize
        ensures { result ≡ number_of self }
    {
        self as usize
    }
}

// A fault, and the place that goes with it.
#[derive(Clone, Copy, PartialEq, Eq, Debug)]
pub struct Refusal {
    pub fault: Fault,
    pub place: usize,
}

// The fault of the lower number, if there is any.
#[tactic(auto, using(crate::proofs::Told::lower_left, crate::proofs::Told::lower_right))]
pub fn lower(f: Option<Fault>, g: Option<Fault>) -> Option<Fault>
    ensures { fault_number result ≡ lower_of (fault_number f) (fault_number g) }
{
    match (f, g) {
        (Some(a), Some(b)) => if b.number() < a.number() { g } else { f },
        (None, _) => g,
        (_, None) => f,
    }
}
