// Area: four letters, a name, then the closing word.
ghost use Rattle.message.specs.declared.FirstLine.{FirstLine};
ghost use Rattle.message.specs.declared.Heading.{Heading};
ghost use Rattle.grammar.specs.States.State.{at_indicator, at_form};
ghost use Rattle.reader_sections.specs.Steps.{Leads};

use crate::name::read_name;
use crate::parts::Part;
use crate::step::{Refused, Step};
use figures::letters;
use message::{Area, NAME_BYTES};
use names::closing_word;

pub(crate) fn read_area(step: Step) -> Result<(Area, Step), Refused>
    ensures { (h : Heading) (l : FirstLine) → Leads (at_indicator h l) step.entry result (λ a. at_form (record { heading = h; line = l; area = a })) }
{
    let (indicator, step) = step.required(Part::Area, letters(step.word(), 4))?;
    let (name, step) = read_name(step, false, NAME_BYTES, Part::Area)?;
    let (closing, step) = step.required(Part::Area, closing_word(step.word()))?;
    let area = Area {
        indicator,
        name,
        closing,
    };
    Ok((area, step))
}
