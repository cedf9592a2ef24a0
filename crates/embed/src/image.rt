// The tables as bytes: P, S, then for each of the 64 pages the sixteen rights, the eight entries
// (frame, CURRENT, MOST RECENT; each mark is 0 or 1), the owner and n; then the register, for each of
// the 254 frame numbers two bytes, the low one first: 8 times the page and the copy, in one, 65535 for
// none, or 61680 for a retired frame.
ghost use Rattle.std.specs.Prelude.{ℕ, ◌≡◌, ◌+◌, ◌*◌, ◌≤◌, length, drop};
ghost use mathlib.Core.List.{List, flat_map};
ghost use Rattle.steps.specs.Data.{copy_marks_valid};
ghost use Rattle.embed.specs.Bytes.{page_size, tables_size};
ghost use Rattle.embed.specs.Bytes.{copy_bytes, page_bytes, le16, tables_bytes};
ghost use Rattle.embed.specs.Bytes.{from_each, copy_from, page_from, entry_from, tables_from, page_marks_valid, marks_valid};
ghost use Rattle.embed.specs.Private.{Puts};

use std::array;
use tables::{Copy, NULL_FRAME, Page, Shared, Tables};

// How many bytes a page takes.
const PAGE_SIZE: usize = 42;

// Where the register begins.
const REGISTER_AT: usize = 2 + 64 * PAGE_SIZE;

// How many bytes the tables take.
pub(crate) const TABLES_SIZE: usize = REGISTER_AT + 2 * 254;

// ---- the tables from bytes

// The entry at an index of a row of entries.
fn copy_at(row: &[u8], i: usize) -> Copy
    requires { 3 * (i + 1) ≤ length row.now }
    ensures { result ≡ copy_from (drop (3 * i) row.now) }
{
    let bytes = &row[3 * i..];
    Copy {
        frame: bytes[0],
        current: bytes[1] % 2 == 1,
        recent: bytes[2] % 2 == 1,
    }
}

// The page at an index of a row of pages.
fn page_at(row: &[u8], i: usize) -> Page
    requires { page_size * (i + 1) ≤ length row.now }
    ensures { result ≡ page_from (drop (page_size * i) row.now) }
{
    let bytes = &row[PAGE_SIZE * i..];
    let mut rights = [0; 16];
    rights.copy_from_slice(&bytes[..16]);
    let entries = &bytes[16..];
    Page {
        rights,
        copies: array::from_fn(|k| copy_at(entries, k)),
        owner: bytes[40],
        n: bytes[41],
    }
}

// What an element holds until its page is read. The compiler sets it sixteen bytes at a time, zeros one by one.
const NO_PAGE: Page = Page {
    rights: [0; 16],
    copies: [Copy {
        frame: NULL_FRAME,
        current: false,
        recent: false,
    }; 8],
    owner: 0,
    n: 0,
};

// By `array::from_fn` the compiler would copy the whole array once more.
fn pages_from(row: &[u8]) -> [Page; 64]
    requires { page_size * 64 ≤ length row.now }
    ensures { result ≡ from_each 64 page_size page_from row.now }
{
    let mut pages = [NO_PAGE; 64];
    for (i, page) in pages.iter_mut().enumerate() {
        *page = page_at(row, i);
    }
    pages
}

fn register_from(row: &[u8]) -> [u16; 254]
    requires { 2 * 254 ≤ length row.now }
    ensures { result ≡ from_each 254 2 entry_from row.now }
{
    array::from_fn(|f| u16::from_le_bytes([row[2 * f], row[2 * f + 1]]))
}

pub(crate) fn tables_from(bytes: &[u8]) -> Tables
    requires { length bytes.now ≡ tables_size }
    ensures { result ≡ tables_from bytes.now }
{
    Tables {
        shared: Shared {
            p: bytes[0],
            s: bytes[1],
        },
        pages: pages_from(&bytes[2..]),
        register: register_from(&bytes[REGISTER_AT..]),
    }
}

// ---- the marks

fn copy_marks_valid(row: &[u8], i: usize) -> bool
    requires { 3 * (i + 1) ≤ length row.now }
    ensures { result ≡ copy_marks_valid (drop (3 * i) row.now) }
{
    let bytes = &row[3 * i..];
    (bytes[1] < 2) & (bytes[2] < 2)
}

// No branch within a page: its sixteen marks are nearly always right.
fn page_marks_valid(row: &[u8], i: usize) -> bool
    requires { page_size * (i + 1) ≤ length row.now }
    ensures { result ≡ page_marks_valid (drop (page_size * i) row.now) }
{
    let entries = &row[PAGE_SIZE * i + 16..];
    let mut ok = true;
    for k in 0..8 {
        ok &= copy_marks_valid(entries, k);
    }
    ok
}

pub(crate) fn marks_valid(bytes: &[u8]) -> bool
    requires { length bytes.now ≡ tables_size }
    ensures { result ≡ marks_valid bytes.now }
{
    let pages = &bytes[2..];
    (0..64).all(|i| page_marks_valid(pages, i))
}

// ---- the tables into bytes

// Lays a row of values, one behind the other, by a function that fills the bytes of one.
fn put_each<T, F: Fn(&T, &mut [u8])>(values: &[T], size: usize, bytes: &mut [u8], put: F)
    requires callable { (x : _) (b : _) → length b.now ≡ size → F.pre put x b }
    requires long { length bytes.old ≡ size * length values.now }
    ensures { (to : T → List ℕ) → Puts size (F.post put) to → bytes.new ≡ flat_map to values.now }
{
    for (i, x) in values.iter().enumerate() {
        put(x, &mut bytes[size * i..size * (i + 1)]);
    }
}

fn put_copy(c: &Copy, bytes: &mut [u8])
    requires { length bytes.old ≡ 3 }
    ensures { bytes.new ≡ copy_bytes c.now }
{
    bytes.copy_from_slice(&[c.frame, u8::from(c.current), u8::from(c.recent)]);
}

fn put_page(g: &Page, bytes: &mut [u8])
    requires { length bytes.old ≡ page_size }
    ensures { bytes.new ≡ page_bytes g.now }
{
    bytes[..16].copy_from_slice(&g.rights);
    put_each(&g.copies, 3, &mut bytes[16..40], put_copy);
    bytes[40..].copy_from_slice(&[g.owner, g.n]);
}

pub(crate) fn put_tables(tables: Tables, bytes: &mut [u8])
    requires { length bytes.old ≡ tables_size }
    ensures { bytes.new ≡ tables_bytes tables }
{
    bytes[..2].copy_from_slice(&[tables.shared.p, tables.shared.s]);
    put_each(
        &tables.pages,
        PAGE_SIZE,
        &mut bytes[2..REGISTER_AT],
        put_page,
    );
    put_each(
        &tables.register,
        2,
        &mut bytes[REGISTER_AT..],
        |entry, b| b.copy_from_slice(&entry.to_le_bytes()),
    );
}
