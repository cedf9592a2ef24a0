// Steps 4 and 5: a station reads and writes.
#![tactic(auto, unfolding(crate::specs::Steps::perform), using(crate::proofs::GuardLaws::guards, tables::proofs::ListLaws::count_is))]

ghost use Rattle.std.specs.Prelude.{◌≡◌, ℕ, ◌≤◌};
ghost use Rattle.steps.specs.declared.Kind.TheVariants.{Read, Write};
ghost use Rattle.steps.specs.Rights.{allows};
ghost use Rattle.tables.specs.Numbers.{answer_number};
ghost use Rattle.steps.specs.Steps.{outcome_of, right_of, lacks_right, perform};
ghost use Rattle.std.specs.List.{find, count_by};
ghost use Rattle.tables.specs.Model.{copies_in_use};
ghost use Rattle.tables.specs.Rules.{is_current};

use crate::{Act, Call, Lay, Plan, Show, View};
use tables::{Copy, Edit, Page, Refusal};

// The right of a station at a page.
fn right_of(page: Page, station: u8) -> u8
    ensures { result ≡ right_of page station }
{
    page.rights.get(usize::from(station)).copied().unwrap_or(0)
}

// Whether a right allows an act: document 01's rights and the two acts, pair by pair.
fn allows(right: u8, act: Act) -> bool
    ensures { result ≡ allows right act }
{
    match right {
        // 0 none
        0 => match act {
            Act::Read => false,
            Act::Write => false,
        },
        // 1 read
        1 => match act {
            Act::Read => true,
            Act::Write => false,
        },
        // 2 read and write; this case also takes what is above 2, which no sound table has
        2..=255 => match act {
            Act::Read => true,
            Act::Write => true,
        },
    }
}

// The lowest-numbered CURRENT copy.
fn first_current(page: Page) -> Option<Copy>
    ensures { result ≡ find is_current (copies_in_use page) }
{
    page.copies_in_use().iter().copied().find(|c| c.current)
}

// How many copies are CURRENT. By `filter` and `count` they take 13 instructions each for 6.
fn currents(page: &Page) -> usize
    ensures { (result ≡ count_by is_current (copies_in_use page.now)) × (result ≤ 8) }
{
    page.copies_in_use()
        .iter()
        .map(|c| usize::from(c.current))
        .sum()
}

// 9 and 10 of an act on a page.
fn lacks_right(page: Page, station: u8, act: Act) -> Result<(), Refusal>
    ensures { answer_number result ≡ lacks_right page station act }
{
    if page.n == 0 {
        return Err(Refusal::NoPage);
    }
    let right = right_of(page, station);
    if !allows(right, act) {
        return Err(Refusal::NoRight);
    }
    Ok(())
}

pub(crate) fn read_page(view: View, call: Call) -> Result<Plan, Refusal>
    ensures { (size : ℕ) → outcome_of result ≡ perform view call size Read }
{
    let page = view.page;
    lacks_right(page, call.station, Act::Read)?;
    match first_current(page) {
        Some(c) => Ok(Plan::showing(
            call.count as usize,
            Show::Frame {
                frame: c.frame,
                offset: call.offset,
            },
        )),
        None => Err(Refusal::NothingCurrent),
    }
}

pub(crate) fn write_page(view: View, call: Call, size: usize) -> Result<Plan, Refusal>
    requires { size ≤ 64 }
    ensures { outcome_of result ≡ perform view call size Write }
{
    let page = view.page;
    lacks_right(page, call.station, Act::Write)?;
    let k = currents(&page);
    if k == 0 {
        return Err(Refusal::NothingCurrent);
    }
    let laid = size * k;
    Ok(Plan::laying(
        Edit::Staled,
        laid as u16,
        Lay::Spread {
            offset: call.offset,
        },
    ))
}
