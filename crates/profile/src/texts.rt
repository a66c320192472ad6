// The four texts of a profile, as they are lent.
ghost use Rattle.std.specs.Prelude.{◌≡◌, MatchResult, length, true, false};
ghost use Rattle.text.specs.Told.{told};
ghost use Rattle.text.specs.Refusals.{first_refusal};
ghost use Rattle.profile.specs.Profile.{fields as fields_of};
ghost use Rattle.profile.specs.Refusals.{profile_refusals};

use crate::fields::{field_count, option_count};
use crate::limits::{bad_fields, bad_model};
use std::marker::Model;
use text::faults::{Fault, Refusal};

// One test of a profile: text `place` is 1 model, 2 layouts, 3 variants, 4 options.
fn refuse_if(bad: bool, fault: Fault, place: usize) -> Result<(), Refusal>
    ensures { MatchResult result (λ _. bad ≡ false) (λ r. (bad ≡ true) × (r ≡ record { fault = fault; place = place })) }
{
    if bad {
        Err(Refusal { fault, place })
    } else {
        Ok(())
    }
}

// In a clause this is the definitions' record of the four texts.
#[derive(Drop)]
pub struct Texts<'a> {
    pub model: &'a [u8],
    pub layouts: &'a [u8],
    pub variants: &'a [u8],
    pub options: &'a [u8],
}

impl<'a> Model for Texts<'a> {
    ghost use Rattle.profile.specs.Profile.{texts_of, Texts};

    ghost Value = { Texts };

    ghost view = { λ x. texts_of x.model.now x.layouts.now x.variants.now x.options.now };
}

impl<'a> Texts<'a> {
    // The layout count.
    pub fn layout_count(&self) -> usize
        ensures { result ≡ length (fields_of self.now.layouts) }
    {
        field_count(self.layouts)
    }

    // The first refusal: 1 over all texts in turn, then 2 likewise.
    #[tactic(auto, unfolding(crate::specs::Refusals::profile_refusals, crate::specs::Refusals::text_refusals, crate::specs::Refusals::count_refusals, text::specs::Refusals::refused_if, text::specs::Refusals::first_refusal))]
    pub fn check(&self) -> Result<(), Refusal>
        ensures { told result ≡ first_refusal (profile_refusals self.now) }
    {
        refuse_if(bad_model(self.model), Fault::BadText, 1)?;
        refuse_if(bad_fields(self.layouts), Fault::BadText, 2)?;
        refuse_if(bad_fields(self.variants), Fault::BadText, 3)?;
        refuse_if(bad_fields(self.options), Fault::BadText, 4)?;
        let n = self.layout_count();
        refuse_if(4 < n, Fault::TooMany, 2)?;
        refuse_if(n < field_count(self.variants), Fault::TooMany, 3)?;
        refuse_if(64 < option_count(self.options), Fault::TooMany, 4)
    }
}
