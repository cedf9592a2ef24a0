// The writer for calls.
ghost use Rattle.std.specs.Prelude.{◌≡◌, [], ◌∷◌, length};
ghost use Rattle.steps.specs.Kinds.{kind_number};
ghost use Rattle.steps.specs.Stores.{over};
ghost use Rattle.stations.specs.Writer.{written, written_as};
ghost use Rattle.stations.specs.Promises.{Wrote};
ghost use Rattle.stations.specs.Private.{singles, tail, Lengths, laid_message, MessageRoom, arguments};

use crate::{FRAME_NUMBERS, MESSAGE_SIZE};
use steps::{Call, Form, Kind, lay_bytes, outside};
use tables::Refusal;

// How many arguments of one byte messages of this form have: those that may be longer end with bytes.
fn count_of(form: Form) -> usize
    requires { Lengths form.least form.most }
    ensures { result ≡ singles form.least form.most }
{
    if form.least < form.most {
        usize::from(form.least) - 3
    } else {
        usize::from(form.least) - 2
    }
}

// The bytes of a write, for a kind whose messages end with bytes; else none.
fn tail_of(form: Form, bytes: &[u8]) -> &[u8]
    ensures { result.now ≡ tail form.least form.most bytes.now }
{
    if form.least < form.most {
        bytes
    } else {
        &bytes[..0]
    }
}

// Lays the message of a call of this form to the front of the buffer, and gives its length. `bytes` end it where its
// kind has them.
fn lay_message(form: Form, arguments: [u8; 4], bytes: &[u8], out: &mut [u8]) -> usize
    requires { MessageRoom form.least form.most bytes.now out.old }
    ensures value { result ≡ length
        (laid_message (kind_number form.call.kind) form.least form.most arguments bytes.now) }
    ensures out_after { out.new ≡ over
        (laid_message (kind_number form.call.kind) form.least form.most arguments bytes.now) out.old }
{
    let count = count_of(form);
    let tail = tail_of(form, bytes);
    let len = 2 + count + tail.len();
    let [first, second, third, fourth] = arguments;
    let head = [
        0,
        len as u8,
        1,
        u8::from(form.call.kind),
        first,
        second,
        third,
        fourth,
    ];
    lay_bytes(out, 0, &head[..4 + count]);
    lay_bytes(out, 4 + count, tail);
    2 + len
}

// Writes the call of a kind byte with its arguments in their order, those past its last one playing no part, and with
// the bytes of a write.
pub fn write_kind(
    kind: u8,
    first: u8,
    second: u8,
    third: u8,
    fourth: u8,
    bytes: &[u8],
    out: &mut [u8],
) -> Result<usize, Refusal>
    ensures { Wrote
        (written_as (length out.old) kind (first ∷ second ∷ third ∷ fourth ∷ []) bytes.now)
        out.old out.new result }
{
    if out.len() < MESSAGE_SIZE {
        return Err(Refusal::ShortBuffer);
    }
    let kind = Kind::try_from(kind)?;
    let arguments = [first, second, third, fourth];
    let form = kind.form(arguments);
    outside(form.call, FRAME_NUMBERS, bytes.len())?;
    Ok(lay_message(form, arguments, bytes, out))
}

// The arguments of a call in the order of its kind: a row a kind, with 0 past the last one.
#[tactic(auto, unfolding(steps::specs::Kinds::names, steps::specs::Kinds::value, steps::specs::Kinds::values))]
fn arguments_of(call: Call) -> [u8; 4]
    ensures { result ≡ arguments call.kind call }
{
    match call.kind {
        Kind::Create | Kind::DeletePage => [call.station, call.page, 0, 0],
        Kind::Grant => [call.station, call.page, call.other, call.right],
        Kind::Read => [call.station, call.page, call.offset, call.count],
        Kind::Write => [call.station, call.page, call.offset, 0],
        Kind::MakeCopy => [call.page, call.copy, call.frame, 0],
        Kind::DeleteCopy | Kind::SetCurrent | Kind::RemoveCurrent => [call.page, call.copy, 0, 0],
        Kind::LookPage => [call.page, 0, 0, 0],
        Kind::LookFrame | Kind::Retire => [call.frame, 0, 0, 0],
    }
}

// Writes a call, with the bytes of a write. What its kind does not name plays no part.
pub fn write_call(call: Call, bytes: &[u8], out: &mut [u8]) -> Result<usize, Refusal>
    ensures { Wrote (written (length out.old) call bytes.now) out.old
        out.new result }
{
    let [first, second, third, fourth] = arguments_of(call);
    write_kind(
        u8::from(call.kind),
        first,
        second,
        third,
        fourth,
        bytes,
        out,
    )
}
