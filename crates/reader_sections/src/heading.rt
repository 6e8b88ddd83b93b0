// Heading: the designator, the centre and the time of sending, then perhaps a correction.
ghost use Rattle.std.specs.Prelude.{ℕ};
ghost use Rattle.groups.specs.declared.Group.{Group};
ghost use Rattle.headings.specs.declared.Designator.{Designator};
ghost use Rattle.grammar.specs.States.State.{at_designator, at_correction, at_unit};
ghost use Rattle.reader_sections.specs.Steps.{Reaches, Leads};

use crate::parts::Part;
use crate::step::{Refused, Step};
use figures::letters;
use groups::group_word;
use headings::{correction_word, designator_word};
use message::Heading;

// A word that is no correction stays for the first line.
fn read_correction(step: Step) -> (u8, Step)
    ensures { (d : Designator) (c : ℕ) (g : Group) → Reaches (at_correction d c g) step.entry (at_unit (record { designator = d; centre = c; sent = g; correction = result.0 })) result.1 }
{
    match correction_word(step.word()) {
        Some(letter) => (letter, step.next()),
        None => (0, step),
    }
}

pub(crate) fn read_heading(step: Step) -> Result<(Heading, Step), Refused>
    ensures { Leads at_designator step.entry result at_unit }
{
    let (designator, step) = step.required(Part::Heading, designator_word(step.word()))?;
    let (centre, step) = step.required(Part::Heading, letters(step.word(), 4))?;
    let (sent, step) = step.required(Part::Heading, group_word(step.word()))?;
    let (correction, step) = read_correction(step);
    let heading = Heading {
        designator,
        centre,
        sent,
        correction,
    };
    Ok((heading, step))
}
