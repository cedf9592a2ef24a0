// The copies of a page that a step is about, one by one.
ghost use Rattle.std.specs.Prelude.{◌≡◌, Bool};
ghost use Rattle.std.specs.List.{list_all};
ghost use Rattle.tables.specs.declared.Copy.{Copy};
ghost use Rattle.tables.specs.Model.{copies_in_use};
ghost use Rattle.steps.specs.Promises.{frame_within};
ghost use Rattle.steps.specs.Steps.{is_placed};
ghost use Rattle.steps.specs.Private.{Tells};

use tables::{Copy, NULL_FRAME, Page};

// Whether the copy has a frame.
pub(crate) fn is_placed(c: Copy) -> bool
    ensures { result ≡ is_placed c }
{
    c.frame != NULL_FRAME
}

// Whether the frames of the copies that are meant are below the limit.
pub(crate) fn frames_within<F: Fn(Copy) -> bool>(page: &Page, meant: F, limit: usize) -> bool
    requires { F.IsAlwaysCallable meant }
    ensures { (those : Copy → Bool) → Tells (F.post meant) those
        → result ≡ list_all (frame_within those limit) (copies_in_use page.now) }
{
    page.copies_in_use()
        .iter()
        .all(|c| !meant(*c) || usize::from(c.frame) < limit)
}
