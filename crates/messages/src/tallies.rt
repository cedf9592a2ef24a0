// The tally of a run.
ghost use Rattle.std.specs.Prelude.{◌≡◌};
ghost use Rattle.messages.specs.Replies.{counted};

use crate::Tally;

// Brings the tally up to date in place.
#[tactic(auto, unfolding(crate::specs::Replies::up_to))]
pub fn count(t: &mut Tally, refused: bool, laid: u16)
    ensures { t.new ≡ counted t.old refused laid }
{
    t.messages = t.messages.saturating_add(1);
    t.refusals = t.refusals.saturating_add(u32::from(refused));
    t.laid = t.laid.saturating_add(u32::from(laid));
}

// The tally after a message, for a caller that has the tally by value.
pub fn tally_after(mut t: Tally, refused: bool, laid: u16) -> Tally
    ensures { result ≡ counted t refused laid }
{
    count(&mut t, refused, laid);
    t
}
