// Steps 1 to 3: a page created or deleted, and a right granted.
#![tactic(auto, unfolding(crate::specs::Steps::perform), using(crate::proofs::GuardLaws::guards, tables::proofs::ListLaws::count_is))]

ghost use Rattle.std.specs.Prelude.{◌≡◌, ℕ, ◌≤◌};
ghost use Rattle.std.specs.List.{count_by};
ghost use Rattle.tables.specs.Numbers.{answer_number};
ghost use Rattle.tables.specs.Model.{copies_in_use};
ghost use Rattle.steps.specs.declared.Kind.TheVariants.{Create, DeletePage, Grant};
ghost use Rattle.steps.specs.Steps.{outcome_of, is_placed, lacks_owner, perform};

use crate::each::is_placed;
use crate::{Call, Lay, Plan, View};
use tables::{Edit, Page, Refusal};

pub(crate) fn create(view: View, call: Call) -> Result<Plan, Refusal>
    ensures { (size : ℕ) → outcome_of result ≡ perform view call size Create }
{
    if view.page.n != 0 {
        return Err(Refusal::PageStands);
    }
    Ok(Plan::editing(Edit::Created {
        station: call.station,
    }))
}

// 9 and 10 of a step that only the page's owner may take.
fn lacks_owner(page: Page, station: u8) -> Result<(), Refusal>
    ensures { answer_number result ≡ lacks_owner page station }
{
    if page.n == 0 {
        return Err(Refusal::NoPage);
    }
    if page.owner != station {
        return Err(Refusal::NoRight);
    }
    Ok(())
}

// How many copies have a frame.
fn placed_count(page: &Page) -> usize
    ensures { (result ≡ count_by is_placed (copies_in_use page.now)) × (result ≤ 8) }
{
    page.copies_in_use()
        .iter()
        .filter(|c| is_placed(**c))
        .count()
}

pub(crate) fn delete_page(view: View, call: Call) -> Result<Plan, Refusal>
    ensures { (size : ℕ) → outcome_of result ≡ perform view call size DeletePage }
{
    let page = view.page;
    lacks_owner(page, call.station)?;
    let laid = 64 * placed_count(&page);
    Ok(Plan::laying(Edit::Deleted, laid as u16, Lay::ZerosEach))
}

pub(crate) fn grant(view: View, call: Call) -> Result<Plan, Refusal>
    ensures { (size : ℕ) → outcome_of result ≡ perform view call size Grant }
{
    lacks_owner(view.page, call.station)?;
    Ok(Plan::editing(Edit::Granted {
        station: call.other,
        right: call.right,
    }))
}
