// The functions of `timing` for the benchmark and the tests, for C. Each calls the function of its name there, and
// promises what that one does.
#![tactic(auto)]

ghost use Rattle.std.specs.Prelude.{◌≡◌, [], length};
ghost use Rattle.steps.specs.Effects.{step, data_of, read_call};
ghost use Rattle.steps.specs.Promises.{lent};
ghost use Rattle.messages.specs.Run.{run};
ghost use Rattle.embed.specs.Exports.{tables_of, lent_state};
ghost use Rattle.timing.specs.Timed.{sound_times, AnsweredAll, first_number, shown_number};
ghost use Rattle.tables.specs.Search.{holder_of, shown};

#[unsafe(no_mangle)]
pub extern "C" fn reel_answers(
    tables: &mut [u8],
    fast: &mut [u8],
    slow: &mut [u8],
    file: &[u8],
    out: &mut [u8],
) -> u32
    ensures { AnsweredAll
        (run (length out.old) file.now
        (lent_state tables.old fast.old slow.old))
        tables.old (lent fast.old slow.old out.old)
        tables.new (lent fast.new slow.new out.new) result }
{
    timing::reel_answers(tables, fast, slow, file, out)
}

#[unsafe(no_mangle)]
pub extern "C" fn reel_sound(tables: &[u8], times: u32) -> u32
    ensures { result ≡ sound_times (tables_of tables.now) times }
{
    timing::reel_sound(tables, times)
}

#[unsafe(no_mangle)]
pub extern "C" fn reel_read_first<'a>(
    tables: &[u8],
    fast: &'a [u8],
    slow: &'a [u8],
    station: u8,
    page: u8,
    offset: u8,
    count: u8,
) -> u32
    ensures { result ≡ first_number (data_of
        (step (lent_state tables.now fast.now slow.now)
        (read_call station page offset count) [])) }
{
    timing::reel_read_first(tables, fast, slow, station, page, offset, count)
}

#[unsafe(no_mangle)]
pub extern "C" fn reel_searched(tables: &[u8], frame: u8) -> u32
    ensures { result ≡ shown_number (shown (holder_of (tables_of tables.now) frame)) }
{
    timing::reel_searched(tables, frame)
}
