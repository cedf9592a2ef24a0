// The kernel for programs in C or Rust. The tables are lent as bytes, so a caller needs no type of
// ours. `embed_c` exports these functions to them.
#![tactic(auto)]

mod image;
mod lent;

ghost use Rattle.std.specs.Prelude.{◌≡◌, [], ◌∷◌, length};
ghost use Rattle.steps.specs.Effects.{read_call};
ghost use Rattle.steps.specs.Steps.{rules_number};
ghost use Rattle.stations.specs.Writer.{written_as};
ghost use Rattle.stations.specs.Reader.{read_reply};
ghost use Rattle.embed.specs.Exports.{version, tables_of, fresh_into, read_number, kept};
ghost use Rattle.embed.specs.Exports.{AnswerPromised, RunPromised, RepliesPromised, ForecastPromised, WriteLent, reading_number};

use image::{TABLES_SIZE, put_tables};
use lent::{answer_number, packed, place_number, put_figures, put_tally, reading_number, tally_of};
pub use lent::{put_back, tables_of};
use messages::{Figures, NUMBERS, answer, fill, forecast, run};
use stations::{read_reply, write_kind};
use steps::{read_place, rules};
use tables::{Refusal, Tables};

// The version of what C and Rust see: these functions, what they do, and the tables as bytes.
const MAJOR: u32 = 5;

const MINOR: u32 = 1;

const PATCH: u32 = 0;

// 65536 times the major version, 256 times the minor one and the patch, in one.
pub fn reel_version() -> u32
    ensures { result ≡ version }
{
    65536 * MAJOR + 256 * MINOR + PATCH
}

// Makes fresh tables: 0, or 19 with P = S = 0. A buffer of another length is left alone: 5.
pub fn reel_fresh(p: u8, s: u8, tables: &mut [u8]) -> u8
    ensures value { result ≡ (fresh_into p s tables.old).number }
    ensures tables_after { tables.new ≡ (fresh_into p s tables.old).bytes }
{
    if tables.len() != TABLES_SIZE {
        return u8::from(Refusal::BrokenTables);
    }
    match Tables::fresh(p, s) {
        Ok(fresh) => {
            put_tables(fresh, tables);
            0
        }
        Err(refused) => {
            put_tables(refused.instead, tables);
            u8::from(Refusal::TooManyFrames)
        }
    }
}

// Tests the tables and the lengths of both stores: 0, 5 or 6.
pub fn reel_rules(tables: &[u8], fast: usize, slow: usize) -> u8
    ensures { result ≡ rules_number (tables_of tables.now) fast slow }
{
    answer_number(rules(tables_of(tables), fast, slow))
}

// A read as a place: its length, 256 times its store (0 fast, 1 slow) and 65536 times the offset in
// that store, in one; 0 where it is refused.
pub fn reel_read(
    tables: &[u8],
    fast: usize,
    slow: usize,
    station: u8,
    page: u8,
    offset: u8,
    count: u8,
) -> u32
    ensures { result ≡ read_number tables.now fast slow (read_call station page offset count) }
{
    let t = tables_of(tables);
    let place = read_place(t, fast, slow, station, page, offset, count);
    place_number(place)
}

// Answers one message, its length first: the number, 256 times the length of the reply and 65536
// times the bytes laid, in one. Bytes that hold no tables are broken ones, and are left alone.
pub fn reel_answer(
    tables: &mut [u8],
    fast: &mut [u8],
    slow: &mut [u8],
    message: &[u8],
    out: &mut [u8],
) -> u32
    ensures { AnswerPromised (kept tables.old fast.old slow.old)
        message.now out.old
        (kept tables.new fast.new slow.new) out.new result }
{
    let before = tables_of(&tables[..]);
    let a = answer(before, fast, slow, message, out);
    if a.moved {
        put_tables(a.tables, tables);
    }
    packed(answer_number(a.answer), a.len, a.laid)
}

// Runs a call file, and counts on in a tally of three numbers: messages, refusals and bytes laid.
// Bytes that hold no tables are broken ones, and are left alone; so is a tally of another length.
pub fn reel_run(
    tables: &mut [u8],
    fast: &mut [u8],
    slow: &mut [u8],
    file: &[u8],
    out: &mut [u8],
    tally: &mut [u32],
)
    ensures { RunPromised (kept tables.old fast.old slow.old)
        file.now out.old tally.old
        (kept tables.new fast.new slow.new) out.new tally.new }
{
    let before = tables_of(&tables[..]);
    let counted = tally_of(&tally[..]);
    let ran = run(before, fast, slow, file, out, counted);
    if ran.moved {
        put_tables(ran.tables, tables);
    }
    put_tally(ran.tally, tally);
}

// Answers the messages of a call file from a place on, and lays reply after reply into the buffer,
// until the file ends or fewer than 70 bytes are left: the bytes used, and the place reached. The
// caller empties the buffer and goes on from there. For the rest it is as `reel_run`.
pub fn reel_replies(
    tables: &mut [u8],
    fast: &mut [u8],
    slow: &mut [u8],
    file: &[u8],
    at: usize,
    out: &mut [u8],
    tally: &mut [u32],
    used: &mut usize,
) -> usize
    ensures { RepliesPromised (kept tables.old fast.old slow.old)
        file.now at out.old tally.old
        (kept tables.new fast.new slow.new) out.new tally.new
        used.new result }
{
    let before = tables_of(&tables[..]);
    let counted = tally_of(&tally[..]);
    let part = fill(before, fast, slow, file, at, out, counted);
    if part.moved {
        put_tables(part.tables, tables);
    }
    put_tally(part.tally, tally);
    *used = part.used;
    part.at
}

// Forecasts a call file on the tables, with no store: 0, or 5 for broken tables and bytes that hold none, and the
// figures. Any other number of them than 34 is left alone.
pub fn reel_forecast(tables: &[u8], file: &[u8], figures: &mut [u32]) -> u8
    ensures { ForecastPromised tables.now file.now figures.old
        figures.new result }
{
    match forecast(tables_of(tables), file) {
        Ok(f) => {
            put_figures(f, figures);
            0
        }
        Err(refusal) => {
            let zeros = Figures {
                most: 0,
                laid: 0,
                counts: [0; NUMBERS],
            };
            put_figures(zeros, figures);
            u8::from(refusal)
        }
    }
}

// Writes the message of a call to the front of the buffer: its number and 256 times the length of the message, in one.
pub fn reel_write(
    kind: u8,
    first: u8,
    second: u8,
    third: u8,
    fourth: u8,
    bytes: &[u8],
    out: &mut [u8],
) -> u32
    ensures { WriteLent
        (written_as (length out.old) kind (first ∷ second ∷ third ∷ fourth ∷ []) bytes.now)
        out.old out.new result }
{
    match write_kind(kind, first, second, third, fourth, bytes, out) {
        Ok(len) => packed(0, len, 0),
        Err(refusal) => packed(u8::from(refusal), 0, 0),
    }
}

// Reads the reply to a message of the kind that is told: the reader's own refusal, 1 to 4; or 0 and, in one, 256 times
// the number that the reply carries, 65536 times the bytes laid, and in the fifth and sixth byte where the data start
// and how many they are.
pub fn reel_read_reply(kind: u8, reply: &[u8]) -> u64
    ensures { result ≡ reading_number (read_reply kind reply.now) }
{
    let told = read_reply(kind, reply);
    reading_number(told)
}
