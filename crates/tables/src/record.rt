// A page's record, fresh and after each edit that a step makes.
ghost use Rattle.std.specs.Prelude.{◌≡◌, true, ◌&&◌, map, fold, ◌-◌, ◌≤◌, length, set, get_or};
ghost use Rattle.tables.specs.Model.{fresh_copy, fresh_page, zero_copy, copies_in_use};
ghost use Rattle.tables.specs.Changes.{created, stale_copy, new_copy, with_copy, with_copies, close_gap, with_current, changed};
ghost use Rattle.tables.specs.Rules.{frame_total};
ghost use Rattle.tables.specs.Keep.{leaves_record, stays_recent, current_is};

use crate::{Copy, Edit, NULL_FRAME, Page};

pub(crate) fn fresh_copy() -> Copy
    ensures { result ≡ fresh_copy }
{
    Copy {
        frame: NULL_FRAME,
        current: false,
        recent: false,
    }
}

#[tactic(auto, unfolding(crate::specs::Model::fresh_page))]
pub(crate) fn fresh_page() -> Page
    ensures { result ≡ fresh_page }
{
    Page {
        rights: [0; 16],
        copies: [fresh_copy(); 8],
        owner: 0,
        n: 0,
    }
}

// The rights with one station's changed.
fn with_right(mut rights: [u8; 16], station: u8, right: u8) -> [u8; 16]
    ensures { result ≡ set rights station right }
{
    let s = usize::from(station);
    if s < 16 {
        rights[s] = right;
    }
    rights
}

#[tactic(auto, unfolding(crate::specs::Changes::created))]
fn created_page(station: u8) -> Page
    ensures { result ≡ created station }
{
    let mut copies = [fresh_copy(); 8];
    copies[0].recent = true;
    Page {
        rights: with_right([1; 16], station, 2),
        copies,
        owner: station,
        n: 1,
    }
}

fn stale_copies(mut copies: [Copy; 8]) -> [Copy; 8]
    ensures { result ≡ map stale_copy copies }
{
    for c in &mut copies {
        c.recent &= c.current;
    }
    copies
}

// The copy entries after entry k move down, and the last one is fresh.
fn close_gap(mut copies: [Copy; 8], k: u8) -> [Copy; 8]
    ensures { result ≡ close_gap copies k }
{
    let k = usize::from(k);
    if k < 8 {
        copies.copy_within(k + 1.., k);
        copies[7] = fresh_copy();
    }
    copies
}

// Whether a write would leave every entry's MOST RECENT mark. All eight are compared at once; with `all` a write takes
// 75 instructions more.
fn all_stay_recent(copies: [Copy; 8]) -> bool
    ensures { result ≡ fold (λ ok c. ok && stays_recent c) true copies }
{
    copies
        .iter()
        .fold(true, |ok, c| ok & (c.current | !c.recent))
}

fn current_is(copies: [Copy; 8], copy: u8, current: bool) -> bool
    ensures { result ≡ current_is copies copy current }
{
    copies
        .get(usize::from(copy))
        .is_none_or(|c| c.current == current)
}

impl Page {
    // How many copies the page has: never more than there are entries.
    pub fn in_use(self) -> usize
        ensures { (result ≡ length (copies_in_use self)) × (result ≤ 8) }
    {
        self.copies_in_use().len()
    }

    // The copies that the page has, in their order.
    pub fn copies_in_use(&self) -> &[Copy]
        ensures items { result.now ≡ copies_in_use self.now }
        ensures few { length result.now ≤ 8 }
    {
        let n = usize::from(self.n).min(8);
        &self.copies[..n]
    }

    // On how many frames the copies of a page are, where the page keeps its rule: a null copy is alone.
    pub fn frame_total(self) -> u8
        ensures { result ≡ frame_total self }
    {
        if self.copies[0].frame == NULL_FRAME {
            return 0;
        }
        self.n
    }

    fn staled(mut self) -> Page
        ensures { result ≡ with_copies self self.n (map stale_copy self.copies) }
    {
        self.copies = stale_copies(self.copies);
        self
    }

    fn placed(mut self, frame: u8) -> Page
        ensures { result ≡ with_copies self self.n (set self.copies 0 (new_copy frame true)) }
    {
        self.copies[0] = Copy {
            frame,
            current: false,
            recent: true,
        };
        self
    }

    fn with_copy(mut self, frame: u8, recent: bool) -> Page
        ensures { result ≡ with_copy self (new_copy frame recent) }
    {
        let n = self.n;
        if n < 8 {
            let k = usize::from(n);
            self.copies[k] = Copy {
                frame,
                current: false,
                recent,
            };
            self.n = n + 1;
        }
        self
    }

    fn without_copy(mut self, copy: u8) -> Page
        ensures { result ≡ with_copies self (self.n - 1) (close_gap self.copies copy) }
    {
        self.copies = close_gap(self.copies, copy);
        self.n = self.n.saturating_sub(1);
        self
    }

    fn with_current(mut self, copy: u8, current: bool) -> Page
        ensures { result ≡ with_copies self self.n
            (set self.copies copy (with_current (get_or self.copies copy zero_copy) current)) }
    {
        let k = usize::from(copy);
        if k < 8 {
            self.copies[k].current = current;
        }
        self
    }

    // The record after an edit. Each arm stores into `self`, so that the record stays where it is.
    #[tactic(auto, unfolding(crate::specs::Changes::changed))]
    pub fn after(mut self, edit: Edit) -> Page
        ensures { result ≡ changed self edit }
    {
        match edit {
            Edit::Kept => {}
            Edit::Created { station } => {
                self = created_page(station);
            }
            Edit::Deleted => {
                self = fresh_page();
            }
            Edit::Granted { station, right } => {
                self.rights = with_right(self.rights, station, right);
            }
            Edit::Staled => {
                self = self.staled();
            }
            Edit::Placed { frame } => {
                self = self.placed(frame);
            }
            Edit::Added { frame, recent } => {
                self = self.with_copy(frame, recent);
            }
            Edit::Removed { copy } => {
                self = self.without_copy(copy);
            }
            Edit::Marked { copy, current } => {
                self = self.with_current(copy, current);
            }
        }
        self
    }

    // Whether the edit is seen at a glance to leave the record as it is: the tables then need not be moved for it.
    #[tactic(auto, unfolding(crate::specs::Keep::leaves_record))]
    pub fn keeps(self, edit: Edit) -> bool
        ensures { result ≡ leaves_record self edit }
    {
        match edit {
            Edit::Kept => true,
            Edit::Staled => all_stay_recent(self.copies),
            Edit::Marked { copy, current } => current_is(self.copies, copy, current),
            Edit::Created { .. }
            | Edit::Deleted
            | Edit::Granted { .. }
            | Edit::Placed { .. }
            | Edit::Added { .. }
            | Edit::Removed { .. } => false,
        }
    }
}
