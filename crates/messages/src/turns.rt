// One message, and the run over a call file.
ghost use Rattle.std.specs.Prelude.{◌≡◌, false, length, ◌+◌, ◌<◌};
ghost use Rattle.tables.specs.Numbers.{answer_number};
ghost use Rattle.steps.specs.Steps.{outcome_of};
ghost use Rattle.steps.specs.Promises.{state_of};
ghost use Rattle.messages.specs.Run.{answer, run, part_from};
ghost use Rattle.messages.specs.Promises.{sent_alone, Replied, RunEnded, PartEnded};
ghost use Rattle.messages.specs.Private.{due_at, is_end, past_of, FoundIn, message_bytes, asked_at, early, decided_on, decided_any, serving, ahead, ServeEnded};

use crate::parse::{parse, write_bytes};
use crate::reading::message_at;
use crate::replies::reply;
use crate::tallies::count;
use crate::{Answered, Filled, Next, Ran, Tally};
use steps::{Call, Decision, decide, decide_any, rules, settle};
use tables::{Refusal, Tables};

// The first of these that turns a message back, and else its call: 18; its own 1 to 4; `known`, which in a run is the 5
// or 6 of its tables and stores (`answer` leaves these to `decide_any`).
fn early(
    parsed: Result<Call, Refusal>,
    known: Result<(), Refusal>,
    room: usize,
) -> Result<Call, Refusal>
    ensures { outcome_of result ≡ early (outcome_of parsed) (answer_number known) room }
{
    if room < 70 {
        return Err(Refusal::ShortBuffer);
    }
    let call = parsed?;
    known?;
    Ok(call)
}

// The bytes after the length of the message that the reader yields; none where it is cut short.
pub(crate) fn bytes_in(file: &[u8], next: Next) -> &[u8]
    requires { FoundIn file.now next }
    ensures { result.now ≡ message_bytes file.now next }
{
    match next {
        Next::Message { start, next, .. } => &file[start..next],
        Next::Cut | Next::End => &[],
    }
}

// What it asks for: no bytes at all count as cut short.
pub(crate) fn asked_in(next: Next, m: &[u8]) -> Result<Call, Refusal>
    ensures { outcome_of result ≡ asked_at next m.now }
{
    match next {
        Next::Message { .. } => parse(m),
        Next::Cut | Next::End => Err(Refusal::CutShort),
    }
}

// What a message that asks for this comes to on tables that keep the rules, with stores that fit.
pub(crate) fn decide_asked(
    tables: Tables,
    asked: Result<Call, Refusal>,
    size: usize,
) -> Result<Decision, Refusal>
    ensures { outcome_of result ≡ decided_on tables size (outcome_of asked) }
{
    decide(tables, asked?, size)
}

// What it comes to on any tables, with stores of any lengths.
fn decide_asked_any(
    tables: Tables,
    asked: Result<Call, Refusal>,
    size: usize,
    fast_len: usize,
    slow_len: usize,
) -> Result<Decision, Refusal>
    ensures { outcome_of result ≡ decided_any tables fast_len slow_len size (outcome_of asked) }
{
    decide_any(tables, asked?, size, fast_len, slow_len)
}

// One message, its length first, on any tables and stores and with any reply buffer.
pub fn answer(
    mut tables: Tables,
    fast: &mut [u8],
    slow: &mut [u8],
    message: &[u8],
    out: &mut [u8],
) -> Answered
    ensures { Replied (state_of tables fast.old slow.old)
        (answer (length out.old) (state_of tables fast.old slow.old)
        (sent_alone message.now))
        out.old (state_of result.tables fast.new slow.new) out.new result }
{
    let next = message_at(message, 0);
    let m = bytes_in(message, next);
    let bytes = write_bytes(m);
    let asked = early(asked_in(next, m), Ok(()), out.len());
    let decided = decide_asked_any(tables, asked, bytes.len(), fast.len(), slow.len());
    let len = reply(decided, bytes, fast, slow, out);
    // Each end gives `tables` as they are: in a value that a `match` picks they would be set to zeros first.
    let d = match decided {
        Ok(d) => d,
        Err(refusal) => {
            return Answered {
                answer: Err(refusal),
                len,
                laid: 0,
                moved: false,
                tables,
            };
        }
    };
    if d.change.is_some() {
        tables = settle(tables, d);
        return Answered {
            answer: Ok(()),
            len,
            laid: d.laid,
            moved: true,
            tables,
        };
    }
    Answered {
        answer: Ok(()),
        len,
        laid: d.laid,
        moved: false,
        tables,
    }
}

// What is due at a place of the file: nothing more, as at the end, where the reply buffer is full.
fn due_at(file: &[u8], at: usize, full: bool) -> Next
    ensures { result ≡ due_at file.now at full }
{
    if full {
        Next::End
    } else {
        message_at(file, at)
    }
}

pub(crate) fn is_end(next: Next) -> bool
    ensures { result ≡ is_end next }
{
    matches!(next, Next::End)
}

// The place past a message; one cut short ends the file.
pub(crate) fn past(next: Next, end: usize) -> usize
    ensures { result ≡ past_of end next }
{
    match next {
        Next::Message { next, .. } => next,
        Next::Cut | Next::End => end,
    }
}

// Where the next reply goes: behind one of `len` bytes that is kept, or again to the same place.
fn ahead(keep: bool, used: usize, len: usize) -> usize
    requires { used + len < 18446744073709551616 }
    ensures { result ≡ ahead keep used len }
{
    if keep { used + len } else { used }
}

// Message after message from a place of the file on, each on the tables and stores that the one before it left; the
// tally is brought up to date after each. Replies that are kept go one behind the other, until the buffer is full; else
// each goes to the front. The rules are tested once for all of them: every step keeps them.
fn serve(
    mut tables: Tables,
    fast: &mut [u8],
    slow: &mut [u8],
    file: &[u8],
    mut at: usize,
    out: &mut [u8],
    mut tally: Tally,
    keep: bool,
) -> Filled
    ensures { ServeEnded keep file.now
        (serving at 0 (state_of tables fast.old slow.old) out.old tally false)
        (state_of result.tables fast.new slow.new) out.new result }
{
    let known = rules(tables, fast.len(), slow.len());
    let last = out.len().saturating_sub(70);
    let mut moved = false;
    let mut used = 0;
    loop {
        let next = due_at(file, at, used > last);
        if is_end(next) {
            return Filled {
                at,
                used,
                moved,
                tables,
                tally,
            };
        }
        at = past(next, file.len());
        let m = bytes_in(file, next);
        let bytes = write_bytes(m);
        let rest = &mut out[used..];
        let asked = early(asked_in(next, m), known, rest.len());
        let decided = decide_asked(tables, asked, bytes.len());
        let len = reply(decided, bytes, fast, slow, rest);
        used = ahead(keep, used, len);
        match decided {
            Ok(d) => {
                count(&mut tally, false, d.laid);
                if d.change.is_some() {
                    tables = settle(tables, d);
                    moved = true;
                }
            }
            Err(_) => count(&mut tally, true, 0),
        }
    }
}

// The run over a call file. The buffer has the replies in turn, each at its front.
pub fn run(
    tables: Tables,
    fast: &mut [u8],
    slow: &mut [u8],
    file: &[u8],
    out: &mut [u8],
    tally: Tally,
) -> Ran
    ensures { RunEnded (state_of tables fast.old slow.old)
        (run (length out.old) file.now (state_of tables fast.old slow.old))
        tally
        out.old (state_of result.tables fast.new slow.new) out.new result }
{
    let done = serve(tables, fast, slow, file, 0, out, tally, false);
    let left = done.tables;
    let counted = done.tally;
    Ran {
        moved: done.moved,
        tables: left,
        tally: counted,
    }
}

// A part of a run, from a place of the file on: reply after reply, until the file ends or fewer than 70 bytes of the
// buffer are left. The caller empties the buffer and goes on from the place reached. With a buffer below 70 bytes every
// message is answered 18, to the file's end.
pub fn fill(
    tables: Tables,
    fast: &mut [u8],
    slow: &mut [u8],
    file: &[u8],
    at: usize,
    out: &mut [u8],
    tally: Tally,
) -> Filled
    ensures { PartEnded (state_of tables fast.old slow.old)
        (part_from (length out.old) file.now at
        (state_of tables fast.old slow.old)) tally
        out.old (state_of result.tables fast.new slow.new) out.new result }
{
    serve(tables, fast, slow, file, at, out, tally, true)
}
