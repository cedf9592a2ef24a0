// Steps 10 and 11: what the tables show of a page and of a frame.
#![tactic(auto, unfolding(crate::specs::Steps::perform), using(crate::proofs::GuardLaws::guards))]

ghost use Rattle.std.specs.Prelude.{◌≡◌, [], ◌∷◌, ℕ, ◌≤◌, length};
ghost use Rattle.tables.specs.Model.{copies_in_use};
ghost use Rattle.tables.specs.Search.{shown};
ghost use Rattle.steps.specs.declared.Kind.TheVariants.{LookPage, LookFrame};
ghost use Rattle.steps.specs.declared.Call.{Call};
ghost use Rattle.steps.specs.Stores.{over};
ghost use Rattle.steps.specs.Steps.{accept, outcome_of, perform};
ghost use Rattle.steps.specs.Effects.{copies_shown};

use crate::stores::put;
use crate::{Plan, Show, View};
use tables::{Copy, Holder, Page, Refusal};

// The three bytes that show a copy.
#[tactic(auto, unfolding(crate::specs::Effects::copies_shown))]
fn copy_shown(c: Copy) -> [u8; 3]
    ensures { result ≡ copies_shown (c ∷ []) }
{
    [c.frame, u8::from(c.current), u8::from(c.recent)]
}

pub(crate) fn look_page(view: View) -> Result<Plan, Refusal>
    ensures { (c : Call) (size : ℕ) → outcome_of result ≡ perform view c size LookPage }
{
    let page = view.page;
    if page.n == 0 {
        return Err(Refusal::NoPage);
    }
    Ok(Plan::showing(1 + 3 * page.in_use(), Show::Page))
}

pub(crate) fn look_frame(view: View) -> Plan
    ensures { (c : Call) (size : ℕ) → accept result ≡ perform view c size LookFrame }
{
    let holder = view.holder;
    Plan::showing(3, Show::Holder { holder })
}

// Shows n and the copies of a page at the front of the buffer.
pub(crate) fn show_page(page: Page, out: &mut [u8])
    requires { 25 ≤ length out.old }
    ensures { out.new ≡ over (page.n ∷ copies_shown (copies_in_use page)) out.old }
{
    out[0] = page.n;
    for (k, c) in page.copies_in_use().iter().enumerate() {
        put(out, 1 + 3 * k, &copy_shown(*c));
    }
}

// Shows the holder of a frame at the front of the buffer.
#[tactic(auto, using(crate::proofs::StoreLaws::splice_front))]
pub(crate) fn show_holder(holder: Holder, out: &mut [u8])
    requires { 3 ≤ length out.old }
    ensures { out.new ≡ over (shown holder) out.old }
{
    put(out, 0, &holder.bytes());
}
