// Who is on a frame.
ghost use Rattle.std.specs.Prelude.{◌≡◌};
ghost use Rattle.tables.specs.Model.{retired_at};
ghost use Rattle.tables.specs.Rules.{free};
ghost use Rattle.tables.specs.Search.{searched, holder_of, shown, HolderIs, is_free, is_retired};

use crate::{Holder, RETIRED_ENTRY, Tables};

impl Holder {
    // The three bytes that looking at a frame shows.
    pub fn bytes(self) -> [u8; 3]
        ensures { result ≡ shown self }
    {
        match self {
            Holder::At { page, copy } => [1, page, copy],
            Holder::Free => [0, 255, 255],
            Holder::Retired => [2, 255, 255],
        }
    }

    pub fn is_free(self) -> bool
        ensures { result ≡ is_free self }
    {
        self == Holder::Free
    }

    pub fn is_retired(self) -> bool
        ensures { result ≡ is_retired self }
    {
        self == Holder::Retired
    }
}

impl Tables {
    // The first copy, page by page, that is on the frame.
    pub fn search(self, frame: u8) -> Holder
        ensures { HolderIs (searched self frame) result }
    {
        'search: {
            for (p, page) in self.pages.iter().enumerate() {
                for (c, copy) in page.copies_in_use().iter().enumerate() {
                    if copy.frame == frame {
                        break 'search Holder::At {
                            page: p as u8,
                            copy: c as u8,
                        };
                    }
                }
            }
            Holder::Free
        }
    }

    // Whether the frame is retired; a number past the register is not.
    fn retired_at(self, frame: u8) -> bool
        ensures { result ≡ retired_at self frame }
    {
        self.register.get(usize::from(frame)) == Some(&RETIRED_ENTRY)
    }

    // The copy on the frame by the search, or that the frame is retired.
    pub fn holder(self, frame: u8) -> Holder
        ensures holder_is { HolderIs (holder_of self frame) result }
        ensures result_value { is_free result ≡ free self frame }
    {
        if self.retired_at(frame) {
            return Holder::Retired;
        }
        self.search(frame)
    }
}
