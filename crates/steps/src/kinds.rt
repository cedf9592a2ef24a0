// The kinds of call: what each names, how long its messages are, and what its replies tell.
ghost use Rattle.std.specs.Prelude.{◌≡◌, ◌∷◌, []};
ghost use Rattle.steps.specs.declared.Kind.TheVariants.{Grant};
ghost use Rattle.steps.specs.Kinds.{kind_number, is_unknown};
ghost use Rattle.steps.specs.Steps.{outcome_of};
ghost use Rattle.steps.specs.Promises.{kind_known, kind_form, form_of};
ghost use Rattle.steps.specs.Private.{call_with};

use crate::{Call, Data, Form, KINDS, Kind};
use tables::Refusal;

impl From<Kind> for u8 {
    ghost from_gives = { λ kind number. number ≡ kind_number kind };

    fn from(kind: Kind) -> u8 {
        match kind {
            Kind::Create => 1,
            Kind::DeletePage => 2,
            Kind::Grant => 3,
            Kind::Read => 4,
            Kind::Write => 5,
            Kind::MakeCopy => 6,
            Kind::DeleteCopy => 7,
            Kind::SetCurrent => 8,
            Kind::RemoveCurrent => 9,
            Kind::LookPage => 10,
            Kind::LookFrame => 11,
            Kind::Retire => 12,
        }
    }
}

impl TryFrom<u8> for Kind {
    type Error = Refusal;

    ghost try_from_gives = { λ number answer. outcome_of answer ≡ kind_known number };

    #[tactic(auto, unfolding(crate::specs::Kinds::kinds))]
    fn try_from(number: u8) -> Result<Kind, Refusal> {
        match number {
            1 => Ok(Kind::Create),
            2 => Ok(Kind::DeletePage),
            3 => Ok(Kind::Grant),
            4 => Ok(Kind::Read),
            5 => Ok(Kind::Write),
            6 => Ok(Kind::MakeCopy),
            7 => Ok(Kind::DeleteCopy),
            8 => Ok(Kind::SetCurrent),
            9 => Ok(Kind::RemoveCurrent),
            10 => Ok(Kind::LookPage),
            11 => Ok(Kind::LookFrame),
            12 => Ok(Kind::Retire),
            _ => Err(Refusal::UnknownKind),
        }
    }
}

impl Call {
    // A call of a kind, with 0 for all that it may name.
    fn of(kind: Kind) -> Call
        ensures { result ≡ call_with kind 0 0 0 0 0 0 0 0 }
    {
        Call {
            kind,
            station: 0,
            page: 0,
            other: 0,
            right: 0,
            offset: 0,
            count: 0,
            copy: 0,
            frame: 0,
        }
    }
}

// A call that names a station and a page.
fn by_station(kind: Kind, station: u8, page: u8) -> Call
    ensures { result ≡ call_with kind station page 0 0 0 0 0 0 }
{
    Call {
        station,
        page,
        ..Call::of(kind)
    }
}

// A grant, which names the other station and its right besides.
fn by_owner(station: u8, page: u8, other: u8, right: u8) -> Call
    ensures { result ≡ call_with Grant station page other right 0 0 0 0 }
{
    Call {
        other,
        right,
        ..by_station(Kind::Grant, station, page)
    }
}

// A read or a write, which names a part of the page besides. A write names no count: the number of its bytes stands in
// for that.
fn on_bytes(kind: Kind, station: u8, page: u8, offset: u8, count: u8) -> Call
    ensures { result ≡ call_with kind station page 0 0 offset count 0 0 }
{
    Call {
        offset,
        count,
        ..by_station(kind, station, page)
    }
}

// A move of a copy, a look or a retire: these name no station.
fn by_placement(kind: Kind, page: u8, copy: u8, frame: u8) -> Call
    ensures { result ≡ call_with kind 0 page 0 0 0 0 copy frame }
{
    Call {
        page,
        copy,
        frame,
        ..Call::of(kind)
    }
}

fn form(least: u8, most: u8, tells: Data, call: Call) -> Form
    ensures { result ≡ record { least = least; most = most; tells = tells; call = call } }
{
    Form {
        least,
        most,
        tells,
        call,
    }
}

impl Kind {
    // The form of the kind's messages and replies, and the call of a message with these arguments, as many of them as
    // the kind has: a row a kind, with its least and most length, its data and its call.
    #[tactic(auto, unfolding(crate::specs::Kinds::names, crate::specs::Kinds::tells, crate::specs::Kinds::among, crate::specs::Kinds::code, crate::specs::Kinds::argument, crate::specs::Kinds::call_of))]
    pub fn form(self, arguments: [u8; 4]) -> Form
        ensures { result ≡ kind_form self arguments }
    {
        let [a, b, c, d] = arguments;
        match self {
            Kind::Create | Kind::DeletePage => form(4, 4, Data::Empty, by_station(self, a, b)),
            Kind::Grant => form(6, 6, Data::Empty, by_owner(a, b, c, d)),
            Kind::Read => form(6, 6, Data::Bytes, on_bytes(self, a, b, c, d)),
            Kind::Write => form(6, 69, Data::Empty, on_bytes(self, a, b, c, 0)),
            Kind::MakeCopy => form(5, 5, Data::Empty, by_placement(self, a, b, c)),
            Kind::DeleteCopy | Kind::SetCurrent | Kind::RemoveCurrent => {
                form(4, 4, Data::Empty, by_placement(self, a, b, 0))
            }
            Kind::LookPage => form(3, 3, Data::Copies, by_placement(self, a, 0, 0)),
            Kind::LookFrame => form(3, 3, Data::Holder, by_placement(self, 0, 0, a)),
            Kind::Retire => form(3, 3, Data::Empty, by_placement(self, 0, 0, a)),
        }
    }
}

// The form of the kind with a number, which `Kind::form` tells; an unknown number has the row of create.
#[tactic(auto, using(crate::proofs::KindLaws::known_kind, crate::proofs::KindLaws::no_kind_made))]
pub fn form_of(number: u8, a: u8, b: u8, c: u8, d: u8) -> Form
    ensures { result ≡ form_of number a b c d }
{
    Kind::try_from(number)
        .unwrap_or(Kind::Create)
        .form([a, b, c, d])
}

// The kind byte of a kind.
pub fn number_of(kind: Kind) -> u8
    ensures { result ≡ kind_number kind }
{
    u8::from(kind)
}

// Whether a kind byte is no kind's.
#[tactic(auto, unfolding(crate::specs::Kinds::kinds))]
pub fn is_unknown(number: u8) -> bool
    ensures { result ≡ is_unknown number }
{
    (number == 0) | (number > KINDS)
}
