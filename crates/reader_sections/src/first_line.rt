// First line: four letters (unit), SIGMET, sequence, VALID, group/group, four letters and a hyphen (office).
ghost use Rattle.message.specs.declared.Heading.{Heading};
ghost use Rattle.grammar.specs.States.State.{at_unit, at_indicator};
ghost use Rattle.reader_sections.specs.Steps.{Leads};

use crate::parts::Part;
use crate::step::{Refused, Step};
use figures::letters;
use groups::period_word;
use headings::{office_word, sequence_word};
use message::FirstLine;

pub(crate) fn read_line(step: Step) -> Result<(FirstLine, Step), Refused>
    ensures { (h : Heading) → Leads (at_unit h) step.entry result (at_indicator h) }
{
    let (unit, step) = step.required(Part::FirstLine, letters(step.word(), 4))?;
    let step = step.fixed(Part::FirstLine, vocabulary::SIGMET)?;
    let (sequence, step) = step.required(Part::FirstLine, sequence_word(step.word()))?;
    let step = step.fixed(Part::FirstLine, vocabulary::VALID)?;
    let (valid, step) = step.required(Part::FirstLine, period_word(step.word()))?;
    let (office, step) = step.required(Part::FirstLine, office_word(step.word()))?;
    let line = FirstLine {
        unit,
        sequence,
        valid,
        office,
    };
    Ok((line, step))
}
