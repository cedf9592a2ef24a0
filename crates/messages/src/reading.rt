// The reader over a call file.
ghost use Rattle.std.specs.Prelude.{◌≡◌, drop};
ghost use Rattle.messages.specs.Promises.{Yields};

use crate::{Next, Reader};

// The bytes from a place on; none past the end.
pub(crate) fn bytes_from(bytes: &[u8], at: usize) -> &[u8]
    ensures { result.now ≡ drop at bytes.now }
{
    bytes.get(at..).unwrap_or(&[])
}

// What stands at a place of the file.
#[tactic(auto, using(crate::proofs::ReaderLaws::told_cut, crate::proofs::ReaderLaws::meant_cut))]
pub fn next_at(file: &[u8], at: usize) -> Next
    ensures { Yields file.now at result }
{
    match bytes_from(file, at) {
        [] => Next::End,
        [_] => Next::Cut,
        [high, low, rest @ ..] => {
            let len = u16::from_be_bytes([*high, *low]) as usize;
            if rest.len() < len {
                return Next::Cut;
            }
            let start = at + 2;
            Next::Message {
                start,
                len,
                next: start + len,
            }
        }
    }
}

// A reader at a place of the file.
pub fn open<'a>(file: &'a [u8], at: usize) -> Reader<'a>
    ensures { (result.file ≡ file.entry) × (result.at ≡ at) }
{
    Reader { file, at }
}

// What the reader yields at its place.
pub fn next_message<'a>(r: Reader<'a>) -> Next
    ensures { Yields r.entry.file.now r.entry.at result }
{
    next_at(r.file, r.at)
}

// What the reader yields at a place of a file, for a caller that has no `Reader`.
pub fn message_at(file: &[u8], at: usize) -> Next
    ensures { Yields file.now at result }
{
    next_message(open(file, at))
}
