// Number 7: whether a call names something that is too large.
ghost use Rattle.std.specs.Prelude.{◌≡◌, ◌||◌};
ghost use Rattle.tables.specs.Numbers.{answer_number};
ghost use Rattle.steps.specs.Calls.{name_outside, frame_outside, bad_span, span_outside, outside};

use crate::{Call, Kind};
use tables::Refusal;

// Whether the offset is too large, the count is 0, or both together go past the page.
fn bad_span(offset: u8, count: usize) -> bool
    ensures { result ≡ bad_span offset count }
{
    let o = usize::from(offset);
    if o > 63 {
        return true;
    }
    (count == 0) | (count > 64 - o)
}

// Whether a call names something too large, of so many frames. What its kind does not name plays no part.
#[tactic(auto, unfolding(crate::specs::Kinds::names, crate::specs::Kinds::among, crate::specs::Kinds::code), using(crate::proofs::RangeLaws::or_one, crate::proofs::RangeLaws::or_two, crate::proofs::RangeLaws::or_span, crate::proofs::RangeLaws::or_frame))]
fn is_outside(call: Call, frames: u16, size: usize) -> bool
    ensures { result ≡ (name_outside call || (frame_outside frames call || span_outside size call)) }
{
    let owned = (call.station > 15) | (call.page > 63);
    match call.kind {
        Kind::Create | Kind::DeletePage => owned,
        Kind::Grant => owned | ((call.other > 15) | (call.right > 2)),
        Kind::Read => owned | bad_span(call.offset, usize::from(call.count)),
        Kind::Write => owned | bad_span(call.offset, size),
        Kind::MakeCopy => (call.page > 63) | (u16::from(call.frame) >= frames),
        Kind::DeleteCopy | Kind::SetCurrent | Kind::RemoveCurrent | Kind::LookPage => call.page
            > 63,
        Kind::LookFrame | Kind::Retire => u16::from(call.frame) >= frames,
    }
}

// 7 where the call names something too large.
#[tactic(auto, using(crate::proofs::RangeLaws::outside_any, crate::proofs::RangeLaws::outside_none))]
pub fn outside(call: Call, frames: u16, size: usize) -> Result<(), Refusal>
    ensures { answer_number result ≡ outside frames size call }
{
    if is_outside(call, frames, size) {
        return Err(Refusal::OutOfRange);
    }
    Ok(())
}
