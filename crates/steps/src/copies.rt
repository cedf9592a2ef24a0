// Steps 6 to 9: the copies of a page.
#![tactic(auto, unfolding(crate::specs::Steps::perform), using(crate::proofs::GuardLaws::guards, tables::proofs::ListLaws::count_is))]

ghost use Rattle.std.specs.Prelude.{◌≡◌, ℕ};
ghost use Rattle.std.specs.List.{count_by};
ghost use Rattle.tables.specs.Numbers.{answer_number};
ghost use Rattle.tables.specs.Model.{copies_in_use};
ghost use Rattle.tables.specs.Rules.{is_recent};
ghost use Rattle.steps.specs.declared.Kind.TheVariants.{MakeCopy, DeleteCopy, SetCurrent, RemoveCurrent};
ghost use Rattle.steps.specs.Steps.{accept, outcome_of, copy_at, lacks_copy, copying, perform};

use crate::{Call, Lay, Plan, View};
use tables::{Copy, Edit, NULL_FRAME, Page, Refusal};

// Copy k of the page.
fn copy_at(page: Page, k: u8) -> Copy
    ensures { result ≡ copy_at page k }
{
    page.copies.get(usize::from(k)).copied().unwrap_or(Copy {
        frame: 0,
        current: false,
        recent: false,
    })
}

// 9 and 12 of a step on copy k.
fn lacks_copy(page: Page, k: u8) -> Result<(), Refusal>
    ensures { answer_number result ≡ lacks_copy page k }
{
    if page.n == 0 {
        return Err(Refusal::NoPage);
    }
    if k >= page.n {
        return Err(Refusal::NoCopy);
    }
    Ok(())
}

// How many copies are MOST RECENT.
fn recents(page: &Page) -> usize
    ensures { result ≡ count_by is_recent (copies_in_use page.now) }
{
    page.copies_in_use().iter().filter(|c| c.recent).count()
}

// Copy c brought to a free frame.
fn copied(c: Copy, frame: u8) -> Plan
    ensures { accept result ≡ copying c frame }
{
    let from = c.frame;
    if from == NULL_FRAME {
        return Plan::laying(Edit::Placed { frame }, 64, Lay::Zeros { frame });
    }
    Plan::laying(
        Edit::Added {
            frame,
            recent: c.recent,
        },
        64,
        Lay::Duplicate { from, to: frame },
    )
}

pub(crate) fn make_copy(view: View, call: Call) -> Result<Plan, Refusal>
    ensures { (size : ℕ) → outcome_of result ≡ perform view call size MakeCopy }
{
    let page = view.page;
    let holder = view.holder;
    lacks_copy(page, call.copy)?;
    if holder.is_retired() {
        return Err(Refusal::Retired);
    }
    if !holder.is_free() {
        return Err(Refusal::FrameHeld);
    }
    if page.n == 8 {
        return Err(Refusal::EightCopies);
    }
    Ok(copied(copy_at(page, call.copy), call.frame))
}

pub(crate) fn delete_copy(view: View, call: Call) -> Result<Plan, Refusal>
    ensures { (size : ℕ) → outcome_of result ≡ perform view call size DeleteCopy }
{
    let page = view.page;
    lacks_copy(page, call.copy)?;
    let c = copy_at(page, call.copy);
    if c.recent && recents(&page) == 1 {
        return Err(Refusal::LastRecent);
    }
    Ok(Plan::clearing(Edit::Removed { copy: call.copy }, c.frame))
}

pub(crate) fn set_current(view: View, call: Call) -> Result<Plan, Refusal>
    ensures { (size : ℕ) → outcome_of result ≡ perform view call size SetCurrent }
{
    let page = view.page;
    lacks_copy(page, call.copy)?;
    let c = copy_at(page, call.copy);
    if c.frame == NULL_FRAME {
        return Err(Refusal::NoFrame);
    }
    if !c.recent {
        return Err(Refusal::Stale);
    }
    Ok(Plan::editing(Edit::Marked {
        copy: call.copy,
        current: true,
    }))
}

pub(crate) fn remove_current(view: View, call: Call) -> Result<Plan, Refusal>
    ensures { (size : ℕ) → outcome_of result ≡ perform view call size RemoveCurrent }
{
    lacks_copy(view.page, call.copy)?;
    Ok(Plan::editing(Edit::Marked {
        copy: call.copy,
        current: false,
    }))
}
