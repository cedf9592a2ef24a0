// Replies.
ghost use Rattle.std.specs.Prelude.{◌≡◌, cond, ◌++◌, ◌+◌, ◌≤◌, length, drop, ltb};
ghost use Rattle.tables.specs.Numbers.{refusal_number};
ghost use Rattle.steps.specs.Stores.{over};
ghost use Rattle.steps.specs.Steps.{refuse, outcome_of};
ghost use Rattle.steps.specs.Promises.{lent};
ghost use Rattle.messages.specs.Replies.{reply_in};
ghost use Rattle.messages.specs.Private.{heading, HeadRoom, ReplyRoom, RoomFor, replied_with, replied_by, reply_len};

use steps::{Decision, carry};
use tables::Refusal;

// Writes the first six bytes of a reply to the front of the buffer: its length, the version, the number and the bytes
// laid.
fn head(out: &mut [u8], number: u8, laid: u16, len: usize)
    requires { HeadRoom out.old len }
    ensures { out.new ≡ heading number laid len ++ drop 6 out.old }
{
    let size = (4 + len as u16).to_be_bytes();
    let laid = laid.to_be_bytes();
    out[..6].copy_from_slice(&[size[0], size[1], 1, number, laid[0], laid[1]]);
}

// Answers a message that is turned back; a buffer below 70 bytes gets no reply.
fn reply_refusal(out: &mut [u8], refusal: Refusal)
    ensures { out.new ≡ over (reply_in (length out.old) (refuse (refusal_number refusal))) out.old }
{
    if out.len() >= 70 {
        head(out, u8::from(refusal), 0, 0);
    }
}

// Carries out what was decided, and replies.
fn reply_decided(d: Decision, bytes: &[u8], fast: &mut [u8], slow: &mut [u8], out: &mut [u8])
    requires { ReplyRoom out.old d.len }
    ensures { lent fast.new slow.new out.new
        ≡ replied_with d bytes.now (lent fast.old slow.old out.old) }
{
    let data = &mut out[6..70];
    carry(d, bytes, fast, slow, data);
    head(out, 0, d.laid, d.len);
}

// The length of a reply with `len` bytes of data, into a buffer of `room` bytes.
fn reply_length(room: usize, len: usize) -> usize
    requires { len ≤ 64 }
    ensures { result ≡ cond (ltb room 70) 0 (6 + len) }
{
    if room < 70 { 0 } else { 6 + len }
}

// Carries out what a message came to, if it was not turned back, and replies. Gives the length of the reply.
pub(crate) fn reply(
    decided: Result<Decision, Refusal>,
    bytes: &[u8],
    fast: &mut [u8],
    slow: &mut [u8],
    out: &mut [u8],
) -> usize
    requires { RoomFor out.old (outcome_of decided) }
    ensures leaves { lent fast.new slow.new out.new
        ≡ replied_by (outcome_of decided) bytes.now (lent fast.old slow.old out.old) }
    ensures length { result ≡ reply_len (length out.old) (outcome_of decided) }
{
    match decided {
        Ok(d) => {
            reply_decided(d, bytes, fast, slow, out);
            reply_length(out.len(), d.len)
        }
        Err(refusal) => {
            reply_refusal(out, refusal);
            reply_length(out.len(), 0)
        }
    }
}
