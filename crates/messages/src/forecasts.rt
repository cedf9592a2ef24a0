// The forecast of a call file, from the tables alone: no store is lent. Reading, parsing, deciding and settling are
// those of the run.
ghost use Rattle.std.specs.Prelude.{◌≡◌, length};
ghost use Rattle.messages.specs.Run.{messages_of};
ghost use Rattle.messages.specs.Forecast.{counted_under, at_start, forecast_of, forecast, figures_told, forecast_told};
ghost use Rattle.messages.specs.Private.{ForecastStart};

use crate::parse::write_bytes;
use crate::reading::message_at;
use crate::turns::{asked_in, bytes_in, decide_asked, is_end, past};
use crate::{Figures, NUMBERS};
use steps::{held_after, held_in, settle};
use tables::{Refusal, Tables};

// Counts one more message under its number. A proof knows of `get_mut` no element that the array ends with.
#[tactic(auto, unfolding(crate::specs::Replies::up_to))]
fn count_under(counts: &mut [u32; NUMBERS], number: u8)
    requires { length counts.old ≡ 32 }
    ensures { counts.new ≡ counted_under counts.old number }
{
    let n = usize::from(number);
    if n < NUMBERS {
        counts[n] = counts[n].saturating_add(1);
    }
}

// Message after message, each on the tables that the one before it left. The frames held are kept up to date from the
// page that changed.
fn foresee(mut tables: Tables, file: &[u8], mut held: u8) -> Figures
    requires { ForecastStart tables held }
    ensures { figures_told result ≡ forecast_of (at_start tables) tables (messages_of file.now) }
{
    let mut most = held;
    let mut laid: u32 = 0;
    let mut counts = [0; NUMBERS];
    let mut at = 0;
    loop {
        let next = message_at(file, at);
        if is_end(next) {
            return Figures { most, laid, counts };
        }
        at = past(next, file.len());
        let m = bytes_in(file, next);
        match decide_asked(tables, asked_in(next, m), write_bytes(m).len()) {
            Ok(d) => {
                count_under(&mut counts, 0);
                laid = laid.saturating_add(u32::from(d.laid));
                if d.change.is_some() {
                    tables = settle(tables, d);
                    held = held_after(held, d) as u8;
                    most = most.max(held);
                }
            }
            Err(refusal) => count_under(&mut counts, u8::from(refusal)),
        }
    }
}

// What a call file comes to on these tables, which stay the caller's; broken ones are refused.
pub fn forecast(tables: Tables, file: &[u8]) -> Result<Figures, Refusal>
    ensures { forecast_told result ≡ forecast tables file.now }
{
    let held = held_in(tables)?;
    Ok(foresee(tables, file, held))
}
