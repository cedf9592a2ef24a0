// The kernel's functions for C, under the names of include/reel.h. Each calls the function of its name in `embed`, and
// promises what that one does.
#![tactic(auto)]

ghost use Rattle.std.specs.Prelude.{◌≡◌, [], ◌∷◌, length};
ghost use Rattle.steps.specs.Effects.{read_call};
ghost use Rattle.steps.specs.Steps.{rules_number};
ghost use Rattle.stations.specs.Writer.{written_as};
ghost use Rattle.stations.specs.Reader.{read_reply};
ghost use Rattle.embed.specs.Exports.{version, tables_of, fresh_into, read_number, kept};
ghost use Rattle.embed.specs.Exports.{AnswerPromised, RunPromised, RepliesPromised, ForecastPromised, WriteLent, reading_number};

#[unsafe(no_mangle)]
pub extern "C" fn reel_version() -> u32
    ensures { result ≡ version }
{
    embed::reel_version()
}

#[unsafe(no_mangle)]
pub extern "C" fn reel_fresh(p: u8, s: u8, tables: &mut [u8]) -> u8
    ensures value { result ≡ (fresh_into p s tables.old).number }
    ensures tables_after { tables.new ≡ (fresh_into p s tables.old).bytes }
{
    embed::reel_fresh(p, s, tables)
}

#[unsafe(no_mangle)]
pub extern "C" fn reel_rules(tables: &[u8], fast: usize, slow: usize) -> u8
    ensures { result ≡ rules_number (tables_of tables.now) fast slow }
{
    embed::reel_rules(tables, fast, slow)
}

#[unsafe(no_mangle)]
pub extern "C" fn reel_read(
    tables: &[u8],
    fast: usize,
    slow: usize,
    station: u8,
    page: u8,
    offset: u8,
    count: u8,
) -> u32
    ensures { result ≡ read_number tables.now fast slow (read_call station page offset count) }
{
    embed::reel_read(tables, fast, slow, station, page, offset, count)
}

#[unsafe(no_mangle)]
pub extern "C" fn reel_answer(
    tables: &mut [u8],
    fast: &mut [u8],
    slow: &mut [u8],
    message: &[u8],
    out: &mut [u8],
) -> u32
    ensures { AnswerPromised (kept tables.old fast.old slow.old)
        message.now out.old
        (kept tables.new fast.new slow.new) out.new result }
{
    embed::reel_answer(tables, fast, slow, message, out)
}

#[unsafe(no_mangle)]
pub extern "C" fn reel_run(
    tables: &mut [u8],
    fast: &mut [u8],
    slow: &mut [u8],
    file: &[u8],
    out: &mut [u8],
    tally: &mut [u32],
)
    ensures { RunPromised (kept tables.old fast.old slow.old)
        file.now out.old tally.old
        (kept tables.new fast.new slow.new) out.new tally.new }
{
    embed::reel_run(tables, fast, slow, file, out, tally);
}

#[unsafe(no_mangle)]
pub extern "C" fn reel_replies(
    tables: &mut [u8],
    fast: &mut [u8],
    slow: &mut [u8],
    file: &[u8],
    at: usize,
    out: &mut [u8],
    tally: &mut [u32],
    used: &mut usize,
) -> usize
    ensures { RepliesPromised (kept tables.old fast.old slow.old)
        file.now at out.old tally.old
        (kept tables.new fast.new slow.new) out.new tally.new
        used.new result }
{
    embed::reel_replies(tables, fast, slow, file, at, out, tally, used)
}

#[unsafe(no_mangle)]
pub extern "C" fn reel_forecast(tables: &[u8], file: &[u8], figures: &mut [u32]) -> u8
    ensures { ForecastPromised tables.now file.now figures.old
        figures.new result }
{
    embed::reel_forecast(tables, file, figures)
}

#[unsafe(no_mangle)]
pub extern "C" fn reel_write(
    kind: u8,
    first: u8,
    second: u8,
    third: u8,
    fourth: u8,
    bytes: &[u8],
    out: &mut [u8],
) -> u32
    ensures { WriteLent
        (written_as (length out.old) kind (first ∷ second ∷ third ∷ fourth ∷ []) bytes.now)
        out.old out.new result }
{
    embed::reel_write(kind, first, second, third, fourth, bytes, out)
}

#[unsafe(no_mangle)]
pub extern "C" fn reel_read_reply(kind: u8, reply: &[u8]) -> u64
    ensures { result ≡ reading_number (read_reply kind reply.now) }
{
    embed::reel_read_reply(kind, reply)
}
