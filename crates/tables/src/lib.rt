// The tables layer of document 01: the page records, the register of frames, the table rules, the search for a frame's
// holder, and every change of the tables. It needs no store.
#![tactic(auto)]

mod record;
mod refusals;
mod register;
mod rules;
mod search;

ghost use Rattle.std.specs.Prelude.{◌≡◌};
ghost use Rattle.tables.specs.Model.{fresh_tables, made, made_by};
ghost use Rattle.tables.specs.Changes.{after};

use record::fresh_page;
pub use refusals::Refusal;
use register::{enter, occupy, vacate};

// The frame of a null copy.
pub const NULL_FRAME: u8 = 255;

// The register's entries of a free frame and of a retired one: they differ in eight bits, and from any copy's in four
// or more.
pub(crate) const FREE_ENTRY: u16 = 65535;

pub(crate) const RETIRED_ENTRY: u16 = 61680;

// A copy entry: its frame, and the marks CURRENT and MOST RECENT.
#[derive(Clone, Copy, Debug, PartialEq, Eq)]
pub struct Copy {
    pub frame: u8,
    pub current: bool,
    pub recent: bool,
}

// A page's record. The first n entries are in use; a page with n = 0 is absent.
#[derive(Clone, Copy, Debug, PartialEq, Eq)]
pub struct Page {
    pub rights: [u8; 16],
    pub copies: [Copy; 8],
    pub owner: u8,
    pub n: u8,
}

// What all pages share: P, the number of fast frames, and S, that of slow ones.
#[derive(Clone, Copy, Debug, PartialEq, Eq)]
pub struct Shared {
    pub p: u8,
    pub s: u8,
}

// The tables: what is shared, the 64 pages, and the register, which says the state of each frame: the copy on it, as 8
// × page + copy, that it is free, or that it is retired.
#[derive(Clone, Copy, Debug, PartialEq, Eq)]
pub struct Tables {
    pub shared: Shared,
    pub pages: [Page; 64],
    pub register: [u16; 254],
}

// Tables of so many frames are not made, number 19: the fresh tables that stand in their place have no frames.
#[derive(Clone, Copy, Debug, PartialEq, Eq)]
pub struct TooManyFrames {
    pub instead: Tables,
}

// A frame is held by the copy that is on it, free, or retired.
#[derive(Clone, Copy, Debug, PartialEq, Eq)]
pub enum Holder {
    At { page: u8, copy: u8 },
    Free,
    Retired,
}

// What a step changes in a page's record.
#[derive(Clone, Copy, Debug, PartialEq, Eq)]
pub enum Edit {
    Kept,
    Created { station: u8 },
    Deleted,
    Granted { station: u8, right: u8 },
    // After a write, every copy that is not CURRENT loses MOST RECENT.
    Staled,
    // The null copy goes, and a copy on this frame stands in its place.
    Placed { frame: u8 },
    // A new copy at the end.
    Added { frame: u8, recent: bool },
    // A copy deleted, and the gap closed.
    Removed { copy: u8 },
    // A copy's CURRENT mark.
    Marked { copy: u8, current: bool },
}

// A change of the tables: what the record of a page becomes, and the frame that is retired, 255 for none.
#[derive(Clone, Copy, Debug, PartialEq, Eq)]
pub struct Change {
    pub page: u8,
    pub becomes: Page,
    pub retires: u8,
}

// Fresh tables of P fast and S slow frames.
#[tactic(auto, unfolding(crate::specs::Model::fresh_tables))]
fn fresh_tables(p: u8, s: u8) -> Tables
    ensures { result ≡ fresh_tables p s }
{
    Tables {
        shared: Shared { p, s },
        pages: [fresh_page(); 64],
        register: [FREE_ENTRY; 254],
    }
}

impl Tables {
    // Fresh tables of P fast and S slow frames, neither above 127.
    pub fn fresh(p: u8, s: u8) -> Result<Tables, TooManyFrames>
        ensures { made_by result ≡ made p s }
    {
        if p <= 127 && s <= 127 {
            return Ok(fresh_tables(p, s));
        }
        Err(TooManyFrames {
            instead: fresh_tables(0, 0),
        })
    }

    // The tables after a change; a page number above 63 changes no page, and a frame number above 253 retires none.
    #[tactic(auto, unfolding(crate::specs::Changes::after))]
    pub fn after(mut self, change: Change) -> Tables
        ensures { result ≡ after self change }
    {
        let p = usize::from(change.page);
        let g = change.becomes;
        enter(&mut self.register, change.retires, RETIRED_ENTRY);
        if p < 64 {
            let old = self.pages[p];
            self.pages[p] = g;
            vacate(&mut self.register, old);
            occupy(&mut self.register, change.page, g);
        }
        self
    }
}
