// For stations: a writer for calls and a reader for replies, of document 02, request [4]. It needs no tables and no
// stores.
#![tactic(auto)]

mod reader;
mod writer;

pub use reader::read_reply;
use tables::Refusal;
pub use writer::{write_call, write_kind};

// The shortest buffer for a message, whatever its length.
pub(crate) const MESSAGE_SIZE: usize = 71;

// Frames in range are below this: there are 127 fast and 127 slow ones at the most.
pub(crate) const FRAME_NUMBERS: u16 = 254;

// What a reply tells: the refusal whose number it carries, none for 0; the bytes laid; and where its data stand in the
// lent bytes.
#[derive(Clone, Copy, Debug, PartialEq, Eq)]
pub struct Reply {
    pub refusal: Option<Refusal>,
    pub laid: u16,
    pub start: usize,
    pub len: usize,
}
