// Tests 1 to 4, which look at a module alone: its length, its layout, its depth, its names.
#![tactic(auto)]

ghost use Rattle.std.specs.Prelude.{◌≡◌};
ghost use Rattle.refusal.specs.Refusal.{refusal_of};
ghost use Rattle.module_tests.specs.Refusal.{module_refusal};

use layout::check_layout;
use name_index::repeated_name;
use refusal::Refusal;

// Tests 1 to 4: why the module is turned back, whatever is lent.
#[tactic(auto, using(crate::proofs::Refusals::refusals))]
pub fn module_refusal(input: &[u8]) -> Result<(), Refusal>
    ensures { refusal_of result ≡ module_refusal input.now }
{
    check_layout(input)?;
    match repeated_name(input) {
        None => Ok(()),
        Some(place) => Err(Refusal::RepeatedName(place)),
    }
}
