// A report: phenomenon, observation, location, level, then the ending and the `=`.
ghost use Rattle.grammar.specs.States.State.{at_form, at_ending};
ghost use Rattle.reader_sections.specs.Endings.{level_in};
ghost use Rattle.reader_sections.specs.Openings.{area_in};
ghost use Rattle.reader_sections.specs.Reports.{PhenomenonSays, Reporting};
ghost use Rattle.reader_sections.specs.Steps.{next_word, Leads, Replies};

use crate::ending::{UpToLevel, read_ending};
use crate::level::read_level;
use crate::location::read_location;
use crate::observation::read_observation;
use crate::opening::Opening;
use crate::parts::Part;
use crate::phenomenon_ws::read_weather;
use crate::phenomenon_wv::read_ash;
use crate::step::{Refused, Step};
use grammar::Reply;
use headings::KIND_WS;
use message::{NO_VOLCANO, Volcano};

// The phenomenon of a WS or of a WV.
fn read_phenomenon(step: Step, kind: u8) -> Result<((u8, Volcano), Step), Refused>
    ensures { PhenomenonSays kind step.entry result }
{
    if kind == KIND_WS {
        let (phenomenon, step) = read_weather(step)?;
        return Ok(((phenomenon, NO_VOLCANO), step));
    }
    read_ash(step)
}

#[inline(always)]
fn read_up_to_level(step: Step, opening: Opening) -> Result<(UpToLevel, Step), Refused>
    ensures { Reporting (next_word step.entry) → Leads (at_form (area_in opening)) step.entry result (λ k. at_ending (level_in k)) }
{
    let ((phenomenon, volcano), step) = read_phenomenon(step, opening.heading.designator.kind)?;
    let (observation, step) = read_observation(step)?;
    let (extent, step) = read_location(step, opening.area.closing, Part::Location)?;
    let (level, step) = read_level(step)?;
    let known = UpToLevel {
        opening,
        phenomenon,
        volcano,
        observation,
        extent,
        level,
    };
    Ok((known, step))
}

#[inline(always)]
pub(crate) fn read_report(step: Step, opening: Opening) -> Reply
    ensures { Reporting (next_word step.entry) → Replies (at_form (area_in opening)) step.entry result }
{
    match read_up_to_level(step, opening) {
        Ok((known, step)) => return read_ending(step, known),
        Err(refused) => refused.reply(),
    }
}
