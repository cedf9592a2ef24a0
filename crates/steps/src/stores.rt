// The two lent stores: frame f is in the fast one where f is below P, and else in the slow one.
ghost use Rattle.std.specs.Prelude.{◌≡◌, Bool, true, ◌++◌, ◌+◌, ◌<◌, ◌≤◌, length};
ghost use Rattle.tables.specs.declared.Copy.{Copy};
ghost use Rattle.tables.specs.Model.{copies_in_use};
ghost use Rattle.steps.specs.Stores.{part, splice, spliced_within, block, lay_frame, zeros};
ghost use Rattle.steps.specs.Effects.{frame_place};
ghost use Rattle.steps.specs.Promises.{bytes_at, pointer_at};
ghost use Rattle.steps.specs.Private.{PlaceIn, Tells, WholeFrames, EachBelow, Same, bytes_of, frames_lent, lay_each};

use crate::Place;
use tables::{Copy, Page};

// Lays all of src into dst from index at on. By `copy_from_slice` on a part of dst a write takes 88 instructions for
// 71.
pub(crate) fn put(dst: &mut [u8], at: usize, src: &[u8])
    requires { at + length src.now ≤ length dst.old }
    ensures { dst.new ≡ splice dst.old at src.now }
{
    for (j, b) in src.iter().enumerate() {
        dst[at + j] = *b;
    }
}

// Puts src into dst from `at` on, for any lengths: where src does not fit, dst is left as it was.
pub fn lay_bytes(dst: &mut [u8], at: usize, src: &[u8])
    ensures { dst.new ≡ spliced_within dst.old at src.now }
{
    if at <= dst.len() && src.len() <= dst.len() - at {
        put(dst, at, src);
    }
}

// The two lent stores as one: the bytes of the fast store, and then those of the slow one.
#[derive(Drop)]
pub(crate) struct Stores<'a> {
    pub fast: &'a mut [u8],
    pub slow: &'a mut [u8],
}

// Each method finds the frame's bytes itself: by way of a `Place` a frame is laid in 50 instructions for 45.
impl Stores<'_> {
    // Bytes of a frame, as a part of the store that has them.
    pub(crate) fn part(&self, frame: u8, offset: u8, len: usize) -> &[u8]
        requires whole { WholeFrames self.now }
        requires low { frame < frames_lent self.now }
        requires span { offset + len ≤ 64 }
        ensures bytes { result.now ≡ part (block (bytes_of self.now) frame) offset len }
        ensures len { length result.now ≡ len }
    {
        let p = self.fast.len() / 64;
        let f = frame as usize;
        let o = offset as usize;
        if f < p {
            let at = 64 * f + o;
            &self.fast[at..at + len]
        } else {
            let at = 64 * (f - p) + o;
            &self.slow[at..at + len]
        }
    }

    // Lays src into a frame from an offset on.
    fn lay(&mut self, frame: u8, offset: u8, src: &[u8])
        requires whole { WholeFrames self.old }
        requires low { frame < frames_lent self.old }
        requires span { offset + length src.now ≤ 64 }
        ensures same { Same self.old self.new }
        ensures laid { bytes_of self.new ≡ lay_frame (bytes_of self.old) frame offset src.now }
    {
        let p = self.fast.len() / 64;
        let f = frame as usize;
        let o = offset as usize;
        if f < p {
            put(self.fast, 64 * f + o, src);
        } else {
            put(self.slow, 64 * (f - p) + o, src);
        }
    }

    // Sets a frame to zeros.
    pub(crate) fn clear(&mut self, frame: u8)
        requires whole { WholeFrames self.old }
        requires low { frame < frames_lent self.old }
        ensures same { Same self.old self.new }
        ensures laid { bytes_of self.new ≡ lay_frame (bytes_of self.old) frame 0 zeros }
    {
        self.lay(frame, 0, &[0; 64]);
    }

    // Copies a frame onto another, in either store or across. Through a local array it is moved by a fixed 64-byte
    // copy.
    pub(crate) fn copy(&mut self, from: u8, to: u8)
        requires whole { WholeFrames self.old }
        requires from_low { from < frames_lent self.old }
        requires to_low { to < frames_lent self.old }
        ensures same { Same self.old self.new }
        ensures laid { bytes_of self.new ≡ lay_frame (bytes_of self.old) to 0 (block (bytes_of self.old) from) }
    {
        let mut block = [0; 64];
        put(&mut block, 0, self.part(from, 0, 64));
        self.lay(to, 0, &block);
    }

    // Lays src into the frame of each copy of the page that is meant.
    pub(crate) fn lay_each<F: Fn(Copy) -> bool>(
        &mut self,
        page: &Page,
        meant: F,
        offset: u8,
        src: &[u8],
    )
        requires callable { F.IsAlwaysCallable meant }
        requires whole { WholeFrames self.old }
        requires low { EachBelow (λ c. F.post meant c true) (frames_lent self.old) page.now }
        requires span { offset + length src.now ≤ 64 }
        ensures same { Same self.old self.new }
        ensures laid { (those : Copy → Bool) → Tells (F.post meant) those
            → bytes_of self.new ≡ lay_each those (bytes_of self.old) (copies_in_use page.now) offset
            src.now }
    {
        for c in page.copies_in_use() {
            if meant(*c) {
                self.lay(c.frame, offset, src);
            }
        }
    }
}

// Where the bytes of a frame are from an offset on.
pub(crate) fn frame_place(p: usize, frame: u8, offset: u8, len: usize) -> Place
    ensures { result ≡ frame_place p frame offset len }
{
    let f = frame as usize;
    let o = offset as usize;
    if f < p {
        Place {
            slow: false,
            start: 64 * f + o,
            len,
        }
    } else {
        Place {
            slow: true,
            start: 64 * (f - p) + o,
            len,
        }
    }
}

// The part of a store that a place names.
pub(crate) fn part_at<'a>(fast: &'a [u8], slow: &'a [u8], place: Place) -> &'a [u8]
    requires { PlaceIn place fast.now slow.now }
    ensures result_value { result.now ≡ bytes_at place fast.now slow.now }
    ensures ref_ptr_value { result.ref_ptr ≡ pointer_at place fast.entry.ref_ptr slow.entry.ref_ptr }
{
    let start = place.start;
    let end = start + place.len;
    if place.slow {
        &slow[start..end]
    } else {
        &fast[start..end]
    }
}
