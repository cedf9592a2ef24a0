// The reader for replies.
ghost use Rattle.std.specs.Prelude.{◌*◌, ◌≤◌, ◌≡◌, ◌&&◌, length, eqb};
ghost use Rattle.steps.specs.declared.Data.TheVariants.{Copies};
ghost use Rattle.steps.specs.Data.{copy_marks_valid, each_is, formed, many};
ghost use Rattle.steps.specs.Steps.{mapped, outcome_of};
ghost use Rattle.stations.specs.Promises.{ReadOf};
ghost use Rattle.stations.specs.Reader.{carried, reading, read_body};
ghost use Rattle.stations.specs.Private.{number_read, may_carry};

use crate::Reply;
use messages::{Next, message_at};
use steps::{Data, Kind};
use tables::Refusal;

// The refusal whose number a reply carries, none for 0. 4 for a number that is not in the papers' table.
fn refusal_of(number: u8) -> Result<Option<Refusal>, Refusal>
    ensures { mapped carried (outcome_of result) ≡ number_read number }
{
    match number {
        0 => Ok(None),
        _ => Refusal::try_from(number)
            .map(Some)
            .map_err(|_| Refusal::WrongLength),
    }
}

// Whether both marks of each of n copies are 0 or 1, in what a look at a page tells of them, three bytes each. By
// `chunks_exact` and `all` the reply to a look at a page with eight copies is read in twice the time.
fn marks_valid(copies: &[u8], n: usize) -> bool
    requires { 3 * n ≤ length copies.now }
    ensures { result ≡ each_is n 3 copy_marks_valid copies.now }
{
    let mut ok = true;
    for i in 0..n {
        ok &= (copies[3 * i + 1] < 2) & (copies[3 * i + 2] < 2);
    }
    ok
}

// Whether a page may have so many copies.
fn is_copy_count(n: usize) -> bool
    ensures { result ≡ many 1 8 n }
{
    (1..=8).contains(&n)
}

// Whether data are those of a look at a page.
#[tactic(auto, unfolding(steps::specs::Data::formed))]
fn are_copies(d: &[u8]) -> bool
    ensures { result ≡ formed Copies d.now }
{
    let [n, copies @ ..] = d else {
        return false;
    };
    let n = usize::from(*n);
    is_copy_count(n) && copies.len() == 3 * n && marks_valid(copies, n)
}

// Whether data are of the form that is told.
#[tactic(auto, unfolding(steps::specs::Data::formed))]
fn is_formed(tells: Data, d: &[u8]) -> bool
    ensures { result ≡ formed tells d.now }
{
    match tells {
        Data::Empty => d.is_empty(),
        Data::Bytes => (d.len() >= 1) & (d.len() <= 64),
        Data::Copies => are_copies(d),
        Data::Holder => d.len() == 3,
    }
}

// Whether a reply has no bytes laid and no data, as that of a refusal.
fn is_bare(laid: u16, len: usize) -> bool
    ensures { result ≡ (eqb len 0 && eqb laid 0) }
{
    (len == 0) & (laid == 0)
}

// Whether a reply to a message of this kind may carry so many bytes laid and these data.
fn may_carry(kind: Kind, refusal: Option<Refusal>, laid: u16, d: &[u8]) -> bool
    ensures { result ≡ may_carry kind refusal laid d.now }
{
    match refusal {
        Some(_) => is_bare(laid, d.len()),
        None => is_formed(kind.form([0; 4]).tells, d),
    }
}

// What the bytes after the length of a reply tell.
fn read_body(kind: u8, m: &[u8]) -> Result<Reply, Refusal>
    ensures { reading result ≡ read_body kind m.now }
{
    let [1, ..] = m else {
        return Err(Refusal::ForeignVersion);
    };
    let kind = Kind::try_from(kind)?;
    let [_, number, high, low, d @ ..] = m else {
        return Err(Refusal::WrongLength);
    };
    let refusal = refusal_of(*number)?;
    let laid = u16::from_be_bytes([*high, *low]);
    if !may_carry(kind, refusal, laid, d) {
        return Err(Refusal::WrongLength);
    }
    Ok(Reply {
        refusal,
        laid,
        start: 6,
        len: d.len(),
    })
}

// Reads the reply to a message of the kind that is told. Bytes past the reply are not looked at.
pub fn read_reply(kind: u8, bytes: &[u8]) -> Result<Reply, Refusal>
    ensures { ReadOf kind bytes.now result }
{
    let Next::Message { start, next, .. } = message_at(bytes, 0) else {
        return Err(Refusal::CutShort);
    };
    read_body(kind, &bytes[start..next])
}
