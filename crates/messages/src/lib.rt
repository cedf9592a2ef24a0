// The message layer of document 01: messages and the reader over a call file, replies, the tally, one
// message, the run and its forecast. Of the layer of the tables it knows the type and the refusals alone.
#![tactic(auto)]

mod forecasts;
mod parse;
mod reading;
mod replies;
mod tallies;
mod turns;

pub use forecasts::forecast;
pub use reading::{message_at, next_at, next_message, open};
use tables::{Refusal, Tables};
pub use tallies::{count, tally_after};
pub use turns::{answer, fill, run};

// How many numbers a forecast counts messages under: 0 to 31, of which the papers name 0 to 27.
pub const NUMBERS: usize = 32;

// What the reader yields at a place of the file: a message, with the place of its first byte after
// the length, its length and the place past it; a message that is cut short; or the end.
#[derive(Clone, Copy, Debug, PartialEq, Eq)]
pub enum Next {
    Message {
        start: usize,
        len: usize,
        next: usize,
    },
    Cut,
    End,
}

// A call file and a place in it.
#[derive(Drop)]
pub struct Reader<'a> {
    pub file: &'a [u8],
    pub at: usize,
}

// Messages, refusals and bytes laid; each stops at 4294967295.
#[derive(Clone, Copy, Debug, PartialEq, Eq)]
pub struct Tally {
    pub messages: u32,
    pub refusals: u32,
    pub laid: u32,
}

// What is forecast of a call file: the most frames held at the start or after any message; the bytes laid in all; and
// for each number how many messages get it. The bytes laid and each count stop at 4294967295; the most frames held is
// never above 254.
#[derive(Clone, Copy)]
pub struct Figures {
    pub most: u8,
    pub laid: u32,
    pub counts: [u32; NUMBERS],
}

// What a message comes to: its answer, the length of its reply, the bytes laid, the tables, and whether it moved them;
// where it did not they are as they were. Here and below `tables` stands before `moved`: a byte before the tables would
// be padded, at the price of one more copy of them.
#[derive(Clone, Copy)]
pub struct Answered {
    pub answer: Result<(), Refusal>,
    pub len: usize,
    pub laid: u16,
    pub tables: Tables,
    pub moved: bool,
}

// What a run leaves: the tables, whether one of its messages moved them, and the tally.
#[derive(Clone, Copy)]
pub struct Ran {
    pub tables: Tables,
    pub moved: bool,
    pub tally: Tally,
}

// What a part of a run leaves: the place of the file that it reached, the bytes of the reply buffer that it used, and
// what a run leaves.
#[derive(Clone, Copy)]
pub struct Filled {
    pub at: usize,
    pub used: usize,
    pub tables: Tables,
    pub moved: bool,
    pub tally: Tally,
}
