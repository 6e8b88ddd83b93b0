// Level: one word, or TOP, ABV or TOP ABV and FLnnn.
ghost use Rattle.std.specs.Prelude.{◌≡◌};
ghost use Rattle.lists.specs.Choice.{found};
ghost use Rattle.levels.specs.Levels.{flight};
ghost use Rattle.grammar.specs.States.{ToLocation};
ghost use Rattle.grammar.specs.States.State.{at_level, at_top, at_above, at_ending};
ghost use Rattle.grammar.specs.Steps.{levelled};
ghost use Rattle.reader_sections.specs.Reports.{flight_in};
ghost use Rattle.reader_sections.specs.Steps.{Leads};

use crate::parts::Part;
use crate::step::{Refused, Step};
use levels::{Level, level_word};

// The number of a word FLnnn.
fn flight_word(w: &[u8]) -> Option<u32>
    ensures { result ≡ found flight (flight_in w.now) }
{
    match level_word(w)? {
        Level::Flight(n) => Some(n),
        _ => None,
    }
}

// FLnnn or ABV FLnnn, after TOP.
fn read_top(step: Step) -> Result<(Level, Step), Refused>
    ensures { (q : ToLocation) → Leads (at_top q) step.entry result (levelled q) }
{
    if let Some(step) = step.perhaps(vocabulary::ABV) {
        let (n, step) = step.required(Part::Level, flight_word(step.word()))?;
        return Ok((Level::TopAboveFlight(n), step));
    }
    let (n, step) = step.required(Part::Level, flight_word(step.word()))?;
    Ok((Level::TopFlight(n), step))
}

// FLnnn, after ABV.
fn read_above(step: Step) -> Result<(Level, Step), Refused>
    ensures { (q : ToLocation) → Leads (at_above q) step.entry result (levelled q) }
{
    let (n, step) = step.required(Part::Level, flight_word(step.word()))?;
    Ok((Level::AboveFlight(n), step))
}

pub(crate) fn read_level(step: Step) -> Result<(Level, Step), Refused>
    ensures { (q : ToLocation) → Leads (at_level q) step.entry result (levelled q) }
{
    let code = step.code();
    if code == vocabulary::TOP {
        return read_top(step.next());
    }
    if code == vocabulary::ABV {
        return read_above(step.next());
    }
    step.required(Part::Level, level_word(step.word()))
}
