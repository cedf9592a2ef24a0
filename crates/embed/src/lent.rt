// What is lent: bytes of any length for the tables, numbers for a tally, and numbers packed into one.
ghost use Rattle.std.specs.Prelude.{◌≡◌, true, cond, ◌<◌, length};
ghost use Rattle.tables.specs.Numbers.{answer_number};
ghost use Rattle.messages.specs.Forecast.{figures_told};
ghost use Rattle.stations.specs.Reader.{reading, carried};
ghost use Rattle.embed.specs.Bytes.{tables_size, tables_bytes};
ghost use Rattle.embed.specs.Private.{Small, Low};
ghost use Rattle.embed.specs.Exports.{tables_in, no_tables, tables_of, with_tables, tally_of, with_tally, with_figures};
ghost use Rattle.embed.specs.Exports.{store_number, place_number, packed, reading_number};

use crate::image::{TABLES_SIZE, marks_valid, put_tables, tables_from};
use messages::{Figures, NUMBERS, Tally};
use stations::Reply;
use steps::Place;
use tables::{Refusal, Tables};

// How many figures a forecast has: the most frames held, the bytes laid, and the counts.
const FIGURES_SIZE: usize = 2 + NUMBERS;

// Tables that break a rule: P is above 127.
fn no_tables() -> Tables
    ensures { result ≡ no_tables }
{
    let made = Tables::fresh(0, 0);
    let mut t = made.tables;
    t.shared.p = 255;
    t
}

// Whether lent bytes hold tables: as many as tables take, with each mark 0 or 1.
fn holds_tables(bytes: &[u8]) -> bool
    ensures { result ≡ tables_in bytes.now }
{
    bytes.len() == TABLES_SIZE && marks_valid(bytes)
}

pub fn tables_of(bytes: &[u8]) -> Tables
    ensures { result ≡ tables_of bytes.now }
{
    if holds_tables(bytes) {
        tables_from(bytes)
    } else {
        no_tables()
    }
}

pub fn put_back(tables: Tables, bytes: &mut [u8])
    ensures { bytes.new ≡ with_tables bytes.old tables }
{
    if holds_tables(&bytes[..]) {
        put_tables(tables, bytes);
    }
}

pub(crate) fn tally_of(numbers: &[u32]) -> Tally
    ensures { result ≡ tally_of numbers.now }
{
    match numbers {
        [messages, refusals, laid] => Tally {
            messages: *messages,
            refusals: *refusals,
            laid: *laid,
        },
        _ => Tally {
            messages: 0,
            refusals: 0,
            laid: 0,
        },
    }
}

pub(crate) fn put_tally(tally: Tally, numbers: &mut [u32])
    ensures { numbers.new ≡ with_tally numbers.old tally }
{
    if numbers.len() == 3 {
        numbers.copy_from_slice(&[tally.messages, tally.refusals, tally.laid]);
    }
}

// The figures of a forecast: the most frames held, the bytes laid, and the counts, from number 0 on.
pub(crate) fn put_figures(f: Figures, numbers: &mut [u32])
    ensures { numbers.new ≡ with_figures numbers.old (figures_told f) }
{
    if numbers.len() == FIGURES_SIZE {
        numbers[..2].copy_from_slice(&[u32::from(f.most), f.laid]);
        numbers[2..].copy_from_slice(&f.counts);
    }
}

// The number of an answer: that of its refusal, or 0.
pub(crate) fn answer_number(answer: Result<(), Refusal>) -> u8
    ensures { result ≡ answer_number answer }
{
    match answer {
        Ok(()) => 0,
        Err(refusal) => u8::from(refusal),
    }
}

pub(crate) fn packed(number: u8, len: usize, laid: u16) -> u32
    requires { len < 256 }
    ensures { result ≡ packed number len laid }
{
    u32::from(number) + 256 * len as u32 + 65536 * u32::from(laid)
}

pub(crate) fn place_number(place: Place) -> u32
    requires { Small place }
    ensures { result ≡ place_number place }
{
    place.len as u32 + 256 * u32::from(place.slow) + 65536 * place.start as u32
}

// The number that a reply carries.
fn carried(refusal: Option<Refusal>) -> u8
    ensures { result ≡ carried refusal }
{
    match refusal {
        Some(refusal) => u8::from(refusal),
        None => 0,
    }
}

// What the reader of replies gives, in one number: its refusal, or 0 with what the reply tells.
pub(crate) fn reading_number(read: Result<Reply, Refusal>) -> u64
    requires { Low (reading read) }
    ensures { result ≡ reading_number (reading read) }
{
    match read {
        Ok(reply) => {
            256 * u64::from(carried(reply.refusal))
                + 65536 * u64::from(reply.laid)
                + 4294967296 * reply.start as u64
                + 1099511627776 * reply.len as u64
        }
        Err(refusal) => u64::from(u8::from(refusal)),
    }
}
