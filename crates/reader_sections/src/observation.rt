// Observation: OBS or FCST, perhaps AT GGggZ.
ghost use Rattle.grammar.specs.States.{ToPhenomenon};
ghost use Rattle.grammar.specs.States.Placing.{at_location};
ghost use Rattle.grammar.specs.States.Site.{in_report};
ghost use Rattle.grammar.specs.States.State.{at_observation, at_observed, at_place};
ghost use Rattle.reader_sections.specs.Steps.{Leads};

use crate::parts::Part;
use crate::step::{Refused, Step};
use groups::time_word;
use message::{FORECAST, OBSERVED, Observation, UNTIMED};

// Perhaps AT and a time, after the first word.
fn read_observed(step: Step, word: u8) -> Result<(Observation, Step), Refused>
    ensures { (p : ToPhenomenon) → Leads (at_observed p word) step.entry result (λ o. at_place (in_report (record { before = p; observation = o })) at_location) }
{
    if let Some(step) = step.perhaps(vocabulary::AT) {
        let (time, step) = step.required(Part::Observation, time_word(step.word()))?;
        let observation = Observation {
            word,
            timed: true,
            time,
        };
        return Ok((observation, step));
    }
    let observation = Observation {
        word,
        timed: false,
        time: UNTIMED,
    };
    Ok((observation, step))
}

pub(crate) fn read_observation(step: Step) -> Result<(Observation, Step), Refused>
    ensures { (p : ToPhenomenon) → Leads (at_observation p) step.entry result (λ o. at_place (in_report (record { before = p; observation = o })) at_location) }
{
    if let Some(step) = step.perhaps(vocabulary::OBS) {
        return read_observed(step, OBSERVED);
    }
    let step = step.fixed(Part::Observation, vocabulary::FCST)?;
    read_observed(step, FORECAST)
}
