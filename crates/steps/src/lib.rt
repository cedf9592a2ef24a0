// The steps of document 01. `decide` decides a call from the tables alone; `carry` does on the two lent stores and the
// reply what was decided, and `settle` puts the change into the tables.
#![tactic(auto)]

mod access;
mod copies;
mod decisions;
mod each;
mod effects;
mod frames;
mod kinds;
mod looks;
mod pages;
mod range;
mod stores;

pub use decisions::{decide, decide_any, held_after, held_in, rules, settle};
pub use effects::{carry, read, read_place, step};
pub use kinds::{form_of, is_unknown, number_of};
pub use range::outside;
pub use stores::lay_bytes;
use tables::{Change, Edit, Holder, Page, Refusal, Tables};

// The kinds of call, in the order of their numbers from 1 on.
#[derive(Clone, Copy, Debug, PartialEq, Eq)]
pub enum Kind {
    Create,
    DeletePage,
    Grant,
    Read,
    Write,
    MakeCopy,
    DeleteCopy,
    SetCurrent,
    RemoveCurrent,
    LookPage,
    LookFrame,
    Retire,
}

// How many kinds there are.
pub const KINDS: u8 = 12;

// A step that is asked for, with its arguments; one that its kind does not name plays no part. The bytes of a write
// come beside it.
#[derive(Clone, Copy)]
pub struct Call {
    pub kind: Kind,
    pub station: u8,
    pub page: u8,
    pub other: u8,
    pub right: u8,
    pub offset: u8,
    pub count: u8,
    pub copy: u8,
    pub frame: u8,
}

// What the data of an accepted reply are.
#[derive(Clone, Copy)]
pub enum Data {
    Empty,
    // Of a read: 1 to 64 bytes of a page.
    Bytes,
    // Of a look at a page: n, and three bytes for each of the n copies.
    Copies,
    // Of a look at a frame: three bytes.
    Holder,
}

// The form of a kind's messages: the least and the most bytes after the length, what the data of its replies are, and
// the call that a message asks for.
#[derive(Clone, Copy)]
pub struct Form {
    pub least: u8,
    pub most: u8,
    pub tells: Data,
    pub call: Call,
}

// What a call looks at in the tables: how many frames there are, the record of its page, and the holder of its frame.
#[derive(Clone, Copy)]
pub struct View {
    pub frames: u16,
    pub page: Page,
    pub holder: Holder,
}

// What a right is asked for: to read a page, or to write it.
#[derive(Clone, Copy)]
pub enum Act {
    Read,
    Write,
}

// What a step lays into the stores.
#[derive(Clone, Copy)]
pub enum Lay {
    Nothing,
    // Zeros into a frame.
    Zeros { frame: u8 },
    // Zeros into the frame of each copy of the page that has one.
    ZerosEach,
    // A frame's bytes into another.
    Duplicate { from: u8, to: u8 },
    // A write's bytes into each CURRENT copy of the page.
    Spread { offset: u8 },
}

// What a step shows in the reply.
#[derive(Clone, Copy)]
pub enum Show {
    // Bytes of a frame, as many as the data are long.
    Frame { frame: u8, offset: u8 },
    // The copies of the page.
    Page,
    Holder { holder: Holder },
}

// What a step does besides its change of the tables: it shows something in the reply, or it lays bytes and fills the
// frame that a delete copy frees, 255 for none.
#[derive(Clone, Copy)]
pub enum Work {
    Shows { show: Show },
    Lays { lay: Lay, clears: u8 },
}

// What an accepted call does: the frame that it retires, 255 for none, its edit of the page's record, the bytes laid,
// the length of its data, and what it shows or lays.
#[derive(Clone, Copy)]
pub struct Plan {
    pub retires: u8,
    pub edit: Edit,
    pub laid: u16,
    pub len: usize,
    pub work: Work,
}

// What an accepted call comes to on the tables: the bytes laid, the length of its data, what is to be shown or laid,
// the change by which the tables move, none where they need not be moved, and the page's record before the call, by
// which its copies are found.
#[derive(Clone, Copy)]
pub struct Decision {
    pub laid: u16,
    pub len: usize,
    pub work: Work,
    pub change: Option<Change>,
    pub before: Page,
}

// A part of the fast store or of the slow one: so many bytes of it from `start` on.
#[derive(Clone, Copy)]
pub struct Place {
    pub slow: bool,
    pub start: usize,
    pub len: usize,
}

// What a call on tables and stores leaves: its answer, the bytes laid, the length of the data, and the tables.
#[derive(Clone, Copy)]
pub struct Done {
    pub answer: Result<(), Refusal>,
    pub laid: u16,
    pub len: usize,
    pub tables: Tables,
}
