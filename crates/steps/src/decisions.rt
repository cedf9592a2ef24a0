// What a call comes to, decided from the tables, the call and the number of a write's bytes: no store is needed.
ghost use Rattle.std.specs.Prelude.{◌≡◌, ◌-◌, ◌≤◌, ◌<◌};
ghost use Rattle.tables.specs.Numbers.{answer_number};
ghost use Rattle.tables.specs.Model.{frame_count, page_at};
ghost use Rattle.steps.specs.declared.Kind.TheVariants.{Write};
ghost use Rattle.steps.specs.Steps.{accept, outcome_of, editing, retiring, showing, laying, clearing, perform, decide_on, page_for, decide, rules_number, decide_any};
ghost use Rattle.steps.specs.Promises.{change_for, decision_of, held_in, settled, held_after};
ghost use Rattle.steps.specs.Private.{no_plan};

use crate::access::{read_page, write_page};
use crate::copies::{delete_copy, make_copy, remove_current, set_current};
use crate::frames::retire;
use crate::looks::{look_frame, look_page};
use crate::pages::{create, delete_page, grant};
use crate::range::outside;
use crate::{Call, Decision, Kind, Lay, Plan, Show, View, Work};
use tables::{Change, Edit, NULL_FRAME, Page, Refusal, Shared, Tables};

impl Plan {
    // Nothing changes, and nothing is shown, laid or filled.
    fn none() -> Plan
        ensures { result ≡ no_plan }
    {
        Plan {
            retires: NULL_FRAME,
            edit: Edit::Kept,
            laid: 0,
            len: 0,
            work: Work::Lays {
                lay: Lay::Nothing,
                clears: NULL_FRAME,
            },
        }
    }

    // Only the record changes.
    pub(crate) fn editing(edit: Edit) -> Plan
        ensures { accept result ≡ editing edit }
    {
        Plan {
            edit,
            ..Plan::none()
        }
    }

    // Only a frame is retired.
    pub(crate) fn retiring(frame: u8) -> Plan
        ensures { accept result ≡ retiring frame }
    {
        Plan {
            retires: frame,
            ..Plan::none()
        }
    }

    // So many bytes are shown, and nothing changes.
    pub(crate) fn showing(len: usize, show: Show) -> Plan
        ensures { accept result ≡ showing len show }
    {
        Plan {
            len,
            work: Work::Shows { show },
            ..Plan::none()
        }
    }

    // So many bytes are laid, and the record changes.
    pub(crate) fn laying(edit: Edit, laid: u16, lay: Lay) -> Plan
        ensures { accept result ≡ laying edit laid lay }
    {
        Plan {
            edit,
            laid,
            work: Work::Lays {
                lay,
                clears: NULL_FRAME,
            },
            ..Plan::none()
        }
    }

    // The record changes, and the frame that this frees is filled.
    pub(crate) fn clearing(edit: Edit, frame: u8) -> Plan
        ensures { accept result ≡ clearing edit frame }
    {
        Plan {
            edit,
            laid: 64,
            work: Work::Lays {
                lay: Lay::Nothing,
                clears: frame,
            },
            ..Plan::none()
        }
    }
}

// The call on what it looks at: the tests of its kind. A write has 64 bytes at the most.
fn perform(view: View, call: Call, size: usize) -> Result<Plan, Refusal>
    requires { call.kind ≡ Write → size ≤ 64 }
    ensures { outcome_of result ≡ perform view call size call.kind }
{
    match call.kind {
        Kind::Create => create(view, call),
        Kind::DeletePage => delete_page(view, call),
        Kind::Grant => grant(view, call),
        Kind::Read => read_page(view, call),
        Kind::Write => write_page(view, call, size),
        Kind::MakeCopy => make_copy(view, call),
        Kind::DeleteCopy => delete_copy(view, call),
        Kind::SetCurrent => set_current(view, call),
        Kind::RemoveCurrent => remove_current(view, call),
        Kind::LookPage => look_page(view),
        Kind::LookFrame => Ok(look_frame(view)),
        Kind::Retire => retire(view, call),
    }
}

// The call on what it looks at: 7, and then the tests of its kind.
#[tactic(auto, unfolding(crate::specs::Steps::decide_on), using(crate::proofs::GuardLaws::guards, crate::proofs::RangeLaws::write_short))]
fn decide_on(view: View, call: Call, size: usize) -> Result<Plan, Refusal>
    ensures { outcome_of result ≡ decide_on view call size }
{
    outside(call, view.frames, size)?;
    perform(view, call, size)
}

fn frame_count(shared: Shared) -> u16
    ensures { result ≡ frame_count shared }
{
    u16::from(shared.p) + u16::from(shared.s)
}

// The change by which a plan moves the tables, on page p with this record. There is none where the record is seen to
// stay and no frame is retired.
fn change_for(p: u8, page: Page, plan: Plan) -> Option<Change>
    ensures { result ≡ change_for p page plan.edit plan.retires }
{
    if page.keeps(plan.edit) & (plan.retires == NULL_FRAME) {
        return None;
    }
    Some(Change {
        page: p,
        becomes: page.after(plan.edit),
        retires: plan.retires,
    })
}

// The page whose record a call is decided on.
fn page_for(call: Call) -> u8
    ensures { result ≡ page_for call }
{
    if call.page < 64 { call.page } else { 0 }
}

// The record of a page. It is read through a reference, so that the tables are not copied.
fn page_at(tables: &Tables, i: usize) -> Page
    requires { i < 64 }
    ensures { result ≡ page_at tables.now i }
{
    tables.pages[i]
}

// What a call comes to.
#[tactic(auto, using(crate::proofs::DecisionLaws::decided_at))]
fn decide_at(tables: &Tables, call: Call, size: usize) -> Result<Decision, Refusal>
    ensures { outcome_of result ≡ decision_of tables.now call (decide tables.now call size) }
{
    let p = page_for(call);
    let page = page_at(tables, usize::from(p));
    let view = View {
        frames: frame_count(tables.shared),
        page,
        holder: tables.registered(call.frame),
    };
    let plan = decide_on(view, call, size)?;
    Ok(Decision {
        laid: plan.laid,
        len: plan.len,
        work: plan.work,
        change: change_for(p, page, plan),
        before: page,
    })
}

// What a call comes to on tables that keep the rules, with stores that fit. `size` is the number of a write's bytes.
pub fn decide(tables: Tables, call: Call, size: usize) -> Result<Decision, Refusal>
    ensures { outcome_of result ≡ decision_of tables call (decide tables call size) }
{
    decide_at(&tables, call, size)
}

// 5 or 6 for these tables and stores of these lengths.
#[tactic(auto, unfolding(crate::specs::Stores::fits))]
pub fn rules(tables: Tables, fast_len: usize, slow_len: usize) -> Result<(), Refusal>
    ensures { answer_number result ≡ rules_number tables fast_len slow_len }
{
    if !tables.sound() {
        return Err(Refusal::BrokenTables);
    }
    let p = usize::from(tables.shared.p);
    let s = usize::from(tables.shared.s);
    if !((fast_len == 64 * p) & (slow_len == 64 * s)) {
        return Err(Refusal::MisfitStore);
    }
    Ok(())
}

// 5 for tables that break a rule; else how many frames are held. The test is `rules` with stores that fit: with a
// second call of `sound` in the library the compiler no longer puts it into `rules`, and each answer copies the
// tables once more.
#[tactic(auto, using(crate::proofs::HeldLaws::held_refused, crate::proofs::HeldLaws::held_told, crate::proofs::HeldLaws::held_fits))]
pub fn held_in(tables: Tables) -> Result<u8, Refusal>
    ensures { outcome_of result ≡ held_in tables }
{
    let p = usize::from(tables.shared.p);
    let s = usize::from(tables.shared.s);
    rules(tables, 64 * p, 64 * s)?;
    Ok(tables.held() as u8)
}

// Decides a call on any tables and for stores of any lengths: 5 and 6 first.
pub fn decide_any(
    tables: Tables,
    call: Call,
    size: usize,
    fast_len: usize,
    slow_len: usize,
) -> Result<Decision, Refusal>
    ensures { outcome_of result ≡ decision_of tables call (decide_any tables fast_len slow_len call size) }
{
    rules(tables, fast_len, slow_len)?;
    decide_at(&tables, call, size)
}

// The tables with what was decided put into them, where it moves them. A caller that sees no change can spare the call.
// Small, so that it is part of its caller.
pub fn settle(tables: Tables, d: Decision) -> Tables
    ensures { result ≡ settled tables d }
{
    match d.change {
        Some(change) => tables.after(change),
        None => tables,
    }
}

// How many frames are held once what was decided is put into the tables, where so many were before: the frames of the
// page's copies before the decision go, and those of its copies after the decision come.
pub fn held_after(held: u8, d: Decision) -> u16
    ensures { result ≡ held_after held d }
{
    let before = d.before.frame_total();
    let after = match d.change {
        Some(change) => change.becomes.frame_total(),
        None => before,
    };
    u16::from(held.saturating_sub(before)) + u16::from(after)
}
