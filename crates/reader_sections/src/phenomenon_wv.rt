// Phenomenon of a WV: VA CLD, or VA ERUPTION, perhaps MT and a name, PSN, a point, VA CLD.
ghost use Rattle.grammar.specs.States.{ToArea};
ghost use Rattle.grammar.specs.States.State.{at_eruption, at_position};
ghost use Rattle.reader_sections.specs.Phenomena.{erupting, AshSays};
ghost use Rattle.reader_sections.specs.Steps.{Leads};

use crate::name::read_name;
use crate::parts::Part;
use crate::step::{Refused, Step};
use coordinates::{Point, latitude, longitude};
use message::{ASH_CLOUD, ASH_ERUPTION, MOUNTAIN_BYTES, NO_NAME, NO_VOLCANO, Name, Volcano};

// Perhaps MT and a name, then PSN.
fn read_mountain(step: Step) -> Result<(Name, Step), Refused>
    ensures { (o : ToArea) → Leads (at_eruption o) step.entry result (at_position o) }
{
    if let Some(step) = step.perhaps(vocabulary::MT) {
        let (name, step) = read_name(step, true, MOUNTAIN_BYTES, Part::Form)?;
        let step = step.fixed(Part::Form, vocabulary::PSN)?;
        return Ok((name, step));
    }
    let step = step.fixed(Part::Form, vocabulary::PSN)?;
    Ok((NO_NAME, step))
}

// What follows VA ERUPTION.
fn read_eruption(step: Step) -> Result<(Volcano, Step), Refused>
    ensures { (o : ToArea) → Leads (at_eruption o) step.entry result (erupting o) }
{
    let (name, step) = read_mountain(step)?;
    let (latitude, step) = step.required(Part::Form, latitude(step.word()))?;
    let (longitude, step) = step.required(Part::Form, longitude(step.word()))?;
    let step = step.fixed(Part::Form, vocabulary::VA)?;
    let step = step.fixed(Part::Form, vocabulary::CLD)?;
    let position = Point {
        latitude,
        longitude,
    };
    Ok((Volcano { name, position }, step))
}

// The number of the phenomenon, and the volcano of an eruption.
pub(crate) fn read_ash(step: Step) -> Result<((u8, Volcano), Step), Refused>
    ensures { AshSays step.entry result }
{
    let step = step.fixed(Part::Form, vocabulary::VA)?;
    if let Some(step) = step.perhaps(vocabulary::CLD) {
        return Ok(((ASH_CLOUD, NO_VOLCANO), step));
    }
    let step = step.long(Part::Form, &vocabulary::ERUPTION)?;
    let (volcano, step) = read_eruption(step)?;
    Ok(((ASH_ERUPTION, volcano), step))
}
