// The register: for each frame the copy on it, that it is free, or that it is retired.
ghost use Rattle.std.specs.Prelude.{◌≡◌, cond, ltb, length, set};
ghost use Rattle.tables.specs.declared.Holder.TheVariants.{Free};
ghost use Rattle.tables.specs.Model.{copies_in_use};
ghost use Rattle.tables.specs.Search.{HolderIs};
ghost use Rattle.tables.specs.Register.{entry_for, holder_of_entry, registered, vacated, occupied};

use crate::{FREE_ENTRY, Holder, Page, RETIRED_ENTRY, Tables};

// The entry of a copy of a page.
pub(crate) fn entry_for(page: u8, copy: u8) -> u16
    ensures { result ≡ entry_for page copy }
{
    8 * u16::from(page) + u16::from(copy)
}

// Sets a frame's entry; 255 is no frame.
pub(crate) fn enter(register: &mut [u16; 254], frame: u8, entry: u16)
    ensures { register.new ≡ set register.old frame entry }
{
    let f = usize::from(frame);
    if f < 254 {
        register[f] = entry;
    }
}

// The frames of the page's copies are free.
pub(crate) fn vacate(register: &mut [u16; 254], page: Page)
    ensures { register.new ≡ vacated (copies_in_use page) register.old }
{
    for copy in page.copies_in_use() {
        enter(register, copy.frame, FREE_ENTRY);
    }
}

// The copies of page p are on their frames.
pub(crate) fn occupy(register: &mut [u16; 254], p: u8, page: Page)
    ensures { register.new ≡ occupied p 0 (copies_in_use page) register.old }
{
    for (k, copy) in page.copies_in_use().iter().enumerate() {
        enter(register, copy.frame, entry_for(p, k as u8));
    }
}

impl Tables {
    // The copy on a frame, or that it is retired, by the register. Behind a reference, so that the tables are not
    // copied.
    pub fn registered(&self, frame: u8) -> Holder
        ensures { HolderIs (registered self.now frame) result }
    {
        match self.register.get(usize::from(frame)) {
            Some(entry) => Holder::of_entry(*entry),
            None => Holder::Free,
        }
    }
}

impl Holder {
    // The holder that an entry names.
    fn of_entry(entry: u16) -> Holder
        ensures { result ≡ holder_of_entry entry }
    {
        if entry < 512 {
            return Holder::At {
                page: (entry / 8) as u8,
                copy: (entry % 8) as u8,
            };
        }
        if entry == RETIRED_ENTRY {
            return Holder::Retired;
        }
        Holder::Free
    }
}
