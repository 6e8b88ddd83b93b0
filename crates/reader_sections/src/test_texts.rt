// A test: TEST, or TEST SIGMET PLEASE DISREGARD, or TEST. THIS IS A TEST SIGMET, PLEASE DISREGARD.
ghost use Rattle.message.specs.Reports.{no_report};
ghost use Rattle.grammar.specs.Records.{formed};
ghost use Rattle.grammar.specs.States.{ToArea};
ghost use Rattle.grammar.specs.States.State.{at_test, at_test_text, at_end};
ghost use Rattle.grammar.specs.Records.{test_of};
ghost use Rattle.reader_sections.specs.Steps.{Moves, Leads};

use crate::parts::Part;
use crate::step::{Refused, Step};
use message::Form;

// PLEASE DISREGARD, the end of both longer texts.
fn read_please(step: Step) -> Result<Step, Refused>
    ensures second { (o : ToArea) → Moves (at_test_text o 2 2) step.entry result (at_end (test_of o 2)) }
    ensures third { (o : ToArea) → Moves (at_test_text o 3 6) step.entry result (at_end (test_of o 3)) }
{
    let step = step.fixed(Part::Form, vocabulary::PLEASE)?;
    step.long(Part::Form, &vocabulary::DISREGARD)
}

// The text after `TEST.`.
pub(crate) fn read_long_test(step: Step) -> Result<(Form, Step), Refused>
    ensures { (o : ToArea) → Leads (at_test_text o 3 1) step.entry result (λ f. at_end (formed o f no_report)) }
{
    let step = step.fixed(Part::Form, vocabulary::THIS)?;
    let step = step.fixed(Part::Form, vocabulary::IS)?;
    let step = step.fixed(Part::Form, vocabulary::A)?;
    let step = step.fixed(Part::Form, vocabulary::TEST)?;
    let step = step.fixed(Part::Form, vocabulary::SIGMET_COMMA)?;
    let step = read_please(step)?;
    Ok((Form::Test(3), step))
}

// What may follow `TEST`.
pub(crate) fn read_test(step: Step) -> Result<(Form, Step), Refused>
    ensures { (o : ToArea) → Leads (at_test o) step.entry result (λ f. at_end (formed o f no_report)) }
{
    if let Some(step) = step.perhaps(vocabulary::SIGMET) {
        let step = read_please(step)?;
        return Ok((Form::Test(2), step));
    }
    Ok((Form::Test(1), step))
}
