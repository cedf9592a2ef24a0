// What was decided, carried out on the two lent stores and the reply; a call on any tables and stores; a read as a
// part of a store.
ghost use Rattle.std.specs.Prelude.{◌≡◌, [], ◌++◌, ℕ, ◌+◌, ◌≤◌, leb, length, true};
ghost use Rattle.steps.specs.Stores.{over};
ghost use Rattle.steps.specs.Effects.{laid_in, cleared_in, shown_of, step, read_call, no_place, shown_at, read_place};
ghost use Rattle.steps.specs.Promises.{state_of, lent, lay_within, show_within, clear_within, carried, Stepped, ReadPart};
ghost use Rattle.steps.specs.Private.{WholeFrames, Same, bytes_of, frames_lent};

use crate::decisions::{decide_any, settle};
use crate::each::{frames_within, is_placed};
use crate::looks::{show_holder, show_page};
use crate::stores::{Stores, frame_place, part_at, put};
use crate::{Call, Decision, Done, Kind, Lay, Place, Show, Work};
use tables::{NULL_FRAME, Page, Tables};

// Whether so many bytes from an offset on lie within a page.
fn span_within(offset: u8, count: usize) -> bool
    ensures { result ≡ leb (offset + count) 64 }
{
    let o = usize::from(offset);
    o <= 64 && count <= 64 - o
}

// Whether what is laid lies within stores of so many frames, where a write has `size` bytes.
fn lay_within(page: Page, lay: Lay, frames: usize, size: usize) -> bool
    ensures { result ≡ lay_within page frames size lay }
{
    match lay {
        Lay::Nothing => true,
        Lay::Zeros { frame } => usize::from(frame) < frames,
        Lay::ZerosEach => frames_within(&page, is_placed, frames),
        Lay::Duplicate { from, to } => (usize::from(from) < frames) & (usize::from(to) < frames),
        Lay::Spread { offset } => {
            span_within(offset, size) && frames_within(&page, |c| c.current, frames)
        }
    }
}

// Whether `len` bytes that are shown lie within stores of so many frames.
fn show_within(show: Show, frames: usize, len: usize) -> bool
    ensures { result ≡ show_within len frames show }
{
    match show {
        Show::Frame { frame, offset } => ((frame as usize) < frames) & span_within(offset, len),
        Show::Page | Show::Holder { .. } => true,
    }
}

// Whether the frame that is filled is one of so many, or none.
fn clear_within(frame: u8, frames: usize) -> bool
    ensures { result ≡ clear_within frames frame }
{
    (frame == NULL_FRAME) | (usize::from(frame) < frames)
}

// Shows in the reply `len` bytes of the stores, or what the tables say of the page or of a frame.
#[tactic(auto, unfolding(crate::specs::Effects::shown_of), using(crate::proofs::StoreLaws::splice_front))]
fn show_in(page: Page, show: Show, len: usize, stores: &Stores, out: &mut [u8])
    requires whole { WholeFrames stores.now }
    requires in_bounds { 64 ≤ length out.old }
    requires show_value { show_within len (frames_lent stores.now) show ≡ true }
    ensures { out.new ≡ over (shown_of page show len (bytes_of stores.now)) out.old }
{
    match show {
        Show::Frame { frame, offset } => put(out, 0, stores.part(frame, offset, len)),
        Show::Page => show_page(page, out),
        Show::Holder { holder } => show_holder(holder, out),
    }
}

// Lays bytes into the stores.
#[tactic(auto, unfolding(crate::specs::Effects::laid_frames, crate::specs::Stores::lay_frames))]
fn lay_in(page: Page, lay: Lay, bytes: &[u8], stores: &mut Stores)
    requires whole { WholeFrames stores.old }
    requires lay_value { lay_within page (frames_lent stores.old) (length bytes.now) lay ≡ true }
    ensures same { Same stores.old stores.new }
    ensures laid { bytes_of stores.new ≡ laid_in page lay bytes.now (bytes_of stores.old) }
{
    match lay {
        Lay::Nothing => {}
        Lay::Zeros { frame } => stores.clear(frame),
        Lay::ZerosEach => stores.lay_each(&page, is_placed, 0, &[0; 64]),
        Lay::Duplicate { from, to } => stores.copy(from, to),
        Lay::Spread { offset } => stores.lay_each(&page, |c| c.current, offset, bytes),
    }
}

// Fills a frame that is freed, if there is one.
#[tactic(auto, unfolding(crate::specs::Stores::lay_frames))]
fn clear_in(frame: u8, stores: &mut Stores)
    requires whole { WholeFrames stores.old }
    requires frame_value { clear_within (frames_lent stores.old) frame ≡ true }
    ensures same { Same stores.old stores.new }
    ensures laid { bytes_of stores.new ≡ cleared_in frame (bytes_of stores.old) }
{
    if frame != NULL_FRAME {
        stores.clear(frame);
    }
}

// Shows or lays what was decided. Where that does not lie within what is lent, nothing is done: a decision on
// tables that the stores fit always does.
pub fn carry(d: Decision, bytes: &[u8], fast: &mut [u8], slow: &mut [u8], out: &mut [u8])
    ensures { lent fast.new slow.new out.new
        ≡ carried d bytes.now (lent fast.old slow.old out.old) }
{
    if (out.len() < 64) | (fast.len() % 64 != 0) {
        return;
    }
    let page = d.before;
    let frames = fast.len() / 64 + slow.len() / 64;
    let mut stores = Stores { fast, slow };
    match d.work {
        Work::Shows { show } => {
            if show_within(show, frames, d.len) {
                show_in(page, show, d.len, &stores, out);
            }
        }
        Work::Lays { lay, clears } => {
            if clear_within(clears, frames) && lay_within(page, lay, frames, bytes.len()) {
                lay_in(page, lay, bytes, &mut stores);
                clear_in(clears, &mut stores);
            }
        }
    }
}

// A call on any tables and stores.
pub fn step(
    tables: Tables,
    fast: &mut [u8],
    slow: &mut [u8],
    call: Call,
    bytes: &[u8],
    out: &mut [u8; 64],
) -> Done
    ensures { Stepped (state_of tables fast.old slow.old)
        (step (state_of tables fast.old slow.old) call bytes.now)
        out.old (state_of result.tables fast.new slow.new) out.new result }
{
    match decide_any(tables, call, bytes.len(), fast.len(), slow.len()) {
        Ok(d) => {
            carry(d, bytes, fast, slow, out);
            Done {
                answer: Ok(()),
                laid: d.laid,
                len: d.len,
                tables: settle(tables, d),
            }
        }
        Err(refusal) => Done {
            answer: Err(refusal),
            laid: 0,
            len: 0,
            tables,
        },
    }
}

fn no_place() -> Place
    ensures { result ≡ no_place }
{
    Place {
        slow: false,
        start: 0,
        len: 0,
    }
}

// Where the bytes that are shown are, if they are a frame's.
fn shown_place(p: usize, show: Show, len: usize) -> Place
    ensures { result ≡ shown_at p show len }
{
    match show {
        Show::Frame { frame, offset } => frame_place(p, frame, offset, len),
        Show::Page | Show::Holder { .. } => no_place(),
    }
}

// Where the bytes of a read are, on any tables and for stores of these lengths; nowhere if it is refused.
#[tactic(auto, unfolding(crate::specs::Kinds::names, crate::specs::Kinds::code, crate::specs::Kinds::argument, crate::specs::Kinds::call_of), using(crate::proofs::PlaceLaws::place_told, crate::proofs::PlaceLaws::no_place_told))]
pub fn read_place(
    tables: Tables,
    fast: usize,
    slow: usize,
    station: u8,
    page: u8,
    offset: u8,
    count: u8,
) -> Place
    ensures { result ≡ read_place tables fast slow (read_call station page offset count) }
{
    let asked = Kind::Read.form([station, page, offset, count]);
    let p = usize::from(tables.shared.p);
    match decide_any(tables, asked.call, 0, fast, slow) {
        Ok(d) => match d.work {
            Work::Shows { show } => shown_place(p, show, d.len),
            Work::Lays { .. } => no_place(),
        },
        Err(_) => no_place(),
    }
}

// A read on any tables and stores, as a part of one store or the other: the part that `read_place` tells. None where it
// is refused.
pub fn read<'a>(
    tables: Tables,
    fast: &'a [u8],
    slow: &'a [u8],
    station: u8,
    page: u8,
    offset: u8,
    count: u8,
) -> &'a [u8]
    ensures { ReadPart
        (step (state_of tables fast.now slow.now) (read_call station page offset count) [])
        (read_place tables (length fast.now) (length slow.now)
        (read_call station page offset count))
        fast.entry.ref_ptr slow.entry.ref_ptr result.ref_ptr result.now }
{
    let place = read_place(tables, fast.len(), slow.len(), station, page, offset, count);
    part_at(fast, slow, place)
}
