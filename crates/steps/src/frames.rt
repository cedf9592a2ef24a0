// Step 12: a frame is retired.
#![tactic(auto, unfolding(crate::specs::Steps::perform), using(crate::proofs::GuardLaws::guards))]

ghost use Rattle.std.specs.Prelude.{◌≡◌, ℕ};
ghost use Rattle.steps.specs.declared.Kind.TheVariants.{Retire};
ghost use Rattle.steps.specs.Steps.{outcome_of, perform};

use crate::{Call, Plan, View};
use tables::{Edit, Refusal};

pub(crate) fn retire(view: View, call: Call) -> Result<Plan, Refusal>
    ensures { (size : ℕ) → outcome_of result ≡ perform view call size Retire }
{
    let holder = view.holder;
    if holder.is_retired() {
        return Ok(Plan::editing(Edit::Kept));
    }
    if !holder.is_free() {
        return Err(Refusal::FrameHeld);
    }
    Ok(Plan::retiring(call.frame))
}
