// Why a message is turned back, and why fresh tables are not made: the papers' table, a variant a row. The last is of
// document 02, request [5], and the others are document 01's.
ghost use Rattle.std.specs.Prelude.{◌≡◌};
ghost use Rattle.tables.specs.Numbers.{refusal_number, RefusalOf};

#[derive(Clone, Copy, Debug, PartialEq, Eq)]
pub enum Refusal {
    CutShort,
    ForeignVersion,
    UnknownKind,
    WrongLength,
    BrokenTables,
    MisfitStore,
    OutOfRange,
    PageStands,
    NoPage,
    NoRight,
    NothingCurrent,
    NoCopy,
    FrameHeld,
    EightCopies,
    LastRecent,
    Stale,
    NoFrame,
    ShortBuffer,
    TooManyFrames,
    Retired,
}

impl From<Refusal> for u8 {
    ghost from_gives = { λ refusal number. number ≡ refusal_number refusal };

    fn from(refusal: Refusal) -> u8 {
        match refusal {
            Refusal::CutShort => 1,
            Refusal::ForeignVersion => 2,
            Refusal::UnknownKind => 3,
            Refusal::WrongLength => 4,
            Refusal::BrokenTables => 5,
            Refusal::MisfitStore => 6,
            Refusal::OutOfRange => 7,
            Refusal::PageStands => 8,
            Refusal::NoPage => 9,
            Refusal::NoRight => 10,
            Refusal::NothingCurrent => 11,
            Refusal::NoCopy => 12,
            Refusal::FrameHeld => 13,
            Refusal::EightCopies => 14,
            Refusal::LastRecent => 15,
            Refusal::Stale => 16,
            Refusal::NoFrame => 17,
            Refusal::ShortBuffer => 18,
            Refusal::TooManyFrames => 19,
            Refusal::Retired => 20,
        }
    }
}

// The refusal with a number; a number of no row is handed back.
impl TryFrom<u8> for Refusal {
    type Error = u8;

    ghost try_from_gives = { λ number answer. RefusalOf number answer };

    fn try_from(number: u8) -> Result<Refusal, u8> {
        match number {
            1 => Ok(Refusal::CutShort),
            2 => Ok(Refusal::ForeignVersion),
            3 => Ok(Refusal::UnknownKind),
            4 => Ok(Refusal::WrongLength),
            5 => Ok(Refusal::BrokenTables),
            6 => Ok(Refusal::MisfitStore),
            7 => Ok(Refusal::OutOfRange),
            8 => Ok(Refusal::PageStands),
            9 => Ok(Refusal::NoPage),
            10 => Ok(Refusal::NoRight),
            11 => Ok(Refusal::NothingCurrent),
            12 => Ok(Refusal::NoCopy),
            13 => Ok(Refusal::FrameHeld),
            14 => Ok(Refusal::EightCopies),
            15 => Ok(Refusal::LastRecent),
            16 => Ok(Refusal::Stale),
            17 => Ok(Refusal::NoFrame),
            18 => Ok(Refusal::ShortBuffer),
            19 => Ok(Refusal::TooManyFrames),
            20 => Ok(Refusal::Retired),
            _ => Err(number),
        }
    }
}
