// The test of the table rules: one pass over the pages, and the entries of the register counted.
ghost use Rattle.std.specs.Prelude.{◌≡◌, true, false, ◌&&◌, ◌≤◌, drop, fold, count_by};
ghost use Rattle.std.specs.List.{list_all};
ghost use Rattle.tables.specs.Model.{copies_in_use};
ghost use Rattle.tables.specs.Rules.{is_fresh, copy_rule, at_most, absent_rule, standing_rule, sound, frame_totals};
ghost use Rattle.tables.specs.PrivatePass.{entry_is, entries_are, scan_copies, scan_page, is_entry, not_retired, others_ok};

use crate::record::fresh_copy;
use crate::register::entry_for;
use crate::{Copy, FREE_ENTRY, NULL_FRAME, Page, RETIRED_ENTRY, Shared, Tables};

// What the copies of the pages are tested against: the entries of the frames, and how many frames there are.
#[derive(Clone, Copy)]
struct Frames<'a> {
    register: &'a [u16; 254],
    limit: u8,
    ghost in_register: { limit ≤ 254 },
}

// Whether each right is at most `top`; one vector comparison in the compiled code.
fn rights_ok(rights: &[u8; 16], top: u8) -> bool
    ensures { result ≡ fold (λ ok right. ok && at_most top right) true rights.now }
{
    rights.iter().fold(true, |ok, right| ok & (*right <= top))
}

// Whether all these entries are as in fresh tables.
fn unused_ok(copies: &[Copy]) -> bool
    ensures { result ≡ list_all is_fresh copies.now }
{
    copies.iter().all(|c| *c == fresh_copy())
}

fn none_retired(entries: &[u16]) -> bool
    ensures { result ≡ fold (λ ok e. ok && not_retired e) true entries.now }
{
    entries
        .iter()
        .fold(true, |ok, e| ok & (*e != RETIRED_ENTRY))
}

fn absent_ok(page: &Page) -> bool
    ensures { result ≡ absent_rule page.now }
{
    page.owner == 0 && rights_ok(&page.rights, 0) && unused_ok(&page.copies)
}

impl Frames<'_> {
    // The rule of a copy of a page with n copies.
    fn copy_ok(self, c: Copy, n: u8) -> bool
        ensures { result ≡ copy_rule self.entry.limit n c }
    {
        if c.current & !c.recent {
            return false;
        }
        if c.frame == NULL_FRAME {
            return (n == 1) & (c.recent & !c.current);
        }
        c.frame < self.limit
    }

    // The entry of a frame is this one; a null copy has no frame.
    fn entry_is(self, frame: u8, entry: u16) -> bool
        ensures { result ≡ entry_is self.entry.register.now frame entry }
    {
        let register = self.register;
        register.get(usize::from(frame)).is_none_or(|e| *e == entry)
    }

    // The copies of page p keep their rules, their entries name them, and at least one is MOST RECENT.
    fn copies_ok(self, p: u8, page: &Page) -> bool
        ensures { result ≡ scan_copies self.entry.limit page.now.n self.entry.register.now p 0 false
            (copies_in_use page.now) }
    {
        let mut recent = false;
        for (k, c) in page.copies_in_use().iter().enumerate() {
            if !self.copy_ok(*c, page.n) {
                return false;
            }
            if !self.entry_is(c.frame, entry_for(p, k as u8)) {
                return false;
            }
            recent |= c.recent;
        }
        recent
    }

    fn standing_ok(self, p: u8, page: &Page) -> bool
        ensures { result ≡ (standing_rule self.entry.limit page.now
            && entries_are self.entry.register.now p 0 (copies_in_use page.now)) }
    {
        if page.owner > 15 || !rights_ok(&page.rights, 2) || page.n > 8 {
            return false;
        }
        self.copies_ok(p, page) && unused_ok(&page.copies[usize::from(page.n)..])
    }

    fn page_ok(self, p: u8, page: &Page) -> bool
        ensures { result ≡ scan_page self.entry.limit self.entry.register.now p page.now }
    {
        if page.n == 0 {
            absent_ok(page)
        } else {
            self.standing_ok(p, page)
        }
    }

    // How many entries of the register are this one; vector comparisons in the compiled code.
    fn entries_of(self, entry: u16) -> u16
        ensures { result ≡ count_by (is_entry entry) self.entry.register.now }
    {
        let register = self.register;
        register.iter().map(|e| u16::from(*e == entry)).sum()
    }

    // Of pages whose copies are on so many frames and are named: every other entry is that of a free frame, or of a
    // retired one before the limit. Retired frames are rare, so they are counted only where held and free ones are not
    // all.
    fn others_ok(self, held: usize) -> bool
        requires { held ≤ 16320 }
        ensures { result ≡ others_ok self.entry.limit held self.entry.register.now }
    {
        let free = usize::from(self.entries_of(FREE_ENTRY));
        if held + free == 254 {
            return true;
        }
        let retired = usize::from(self.entries_of(RETIRED_ENTRY));
        if held + free + retired != 254 {
            return false;
        }
        let register = self.register;
        none_retired(&register[usize::from(self.limit)..])
    }
}

impl Tables {
    // All table rules, for any tables.
    pub fn sound(self) -> bool
        ensures { result ≡ sound self }
    {
        let Shared { p: fast, s: slow } = self.shared;
        if fast > 127 || slow > 127 {
            return false;
        }
        let frames = Frames {
            register: &self.register,
            limit: fast + slow,
        };
        let mut held: usize = 0;
        for (p, page) in self.pages.iter().enumerate() {
            if !frames.page_ok(p as u8, page) {
                return false;
            }
            held += usize::from(page.frame_total());
        }
        frames.others_ok(held)
    }

    // On how many frames the copies of the pages are, where each page keeps its rule.
    pub fn held(self) -> usize
        ensures { (result ≡ frame_totals self.pages) × (result ≤ 16320) }
    {
        let mut held: usize = 0;
        for page in &self.pages {
            held += usize::from(page.frame_total());
        }
        held
    }
}
