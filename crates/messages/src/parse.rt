// A message, the bytes after its length: what it asks for.
ghost use Rattle.std.specs.Prelude.{◌≡◌, get_or};
ghost use Rattle.steps.specs.Steps.{outcome_of};
ghost use Rattle.messages.specs.Messages.{parse_as, parse, write_bytes};

use crate::reading::bytes_from;
use steps::{Call, Kind};
use tables::Refusal;

// The byte at k; 0 past the end.
fn byte_at(m: &[u8], k: usize) -> u8
    ensures { result ≡ get_or m.now k 0 }
{
    m.get(k).copied().unwrap_or(0)
}

// What a message of a kind asks for: 4, or its call.
fn parse_as(kind: Kind, m: &[u8]) -> Result<Call, Refusal>
    ensures { outcome_of result ≡ parse_as kind m.now }
{
    let form = kind.form([byte_at(m, 2), byte_at(m, 3), byte_at(m, 4), byte_at(m, 5)]);
    if m.len() < usize::from(form.least) || m.len() > usize::from(form.most) {
        return Err(Refusal::WrongLength);
    }
    Ok(form.call)
}

// What a message asks for by its own bytes.
#[tactic(auto, using(crate::proofs::ParseLaws::is_none, crate::proofs::ParseLaws::other_version, crate::proofs::ParseLaws::no_kind, crate::proofs::ParseLaws::kind_refused, crate::proofs::ParseLaws::kind_parsed))]
pub(crate) fn parse(m: &[u8]) -> Result<Call, Refusal>
    ensures { outcome_of result ≡ parse m.now }
{
    match m {
        [1, kind, ..] => parse_as(Kind::try_from(*kind)?, m),
        [1] => Err(Refusal::UnknownKind),
        _ => Err(Refusal::ForeignVersion),
    }
}

// The bytes of a write; none where the message is too short to have any.
pub(crate) fn write_bytes(m: &[u8]) -> &[u8]
    ensures { result.now ≡ write_bytes m.now }
{
    bytes_from(m, 5)
}
