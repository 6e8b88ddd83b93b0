// What every message begins with: heading, first line and area.
ghost use Rattle.grammar.specs.States.State.{at_designator, at_form};
ghost use Rattle.reader_sections.specs.Openings.{area_in};
ghost use Rattle.reader_sections.specs.Steps.{Leads};

use crate::area::read_area;
use crate::first_line::read_line;
use crate::heading::read_heading;
use crate::step::{Refused, Step};
use message::{Area, FirstLine, Heading};

#[derive(Clone, Copy)]
pub(crate) struct Opening {
    pub heading: Heading,
    pub line: FirstLine,
    pub area: Area,
}

pub(crate) fn read_opening(step: Step) -> Result<(Opening, Step), Refused>
    ensures { Leads at_designator step.entry result (λ o. at_form (area_in o)) }
{
    let (heading, step) = read_heading(step)?;
    let (line, step) = read_line(step)?;
    let (area, step) = read_area(step)?;
    let opening = Opening {
        heading,
        line,
        area,
    };
    Ok((opening, step))
}
