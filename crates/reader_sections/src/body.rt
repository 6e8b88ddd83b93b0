// After the area: a test, a cancellation or a report, and the `=`.
ghost use Rattle.message.specs.Reports.{no_report};
ghost use Rattle.grammar.specs.Records.{formed};
ghost use Rattle.grammar.specs.States.{State};
ghost use Rattle.grammar.specs.States.State.{at_form, at_end};
ghost use Rattle.reader_sections.specs.declared.step.Step.{Step};
ghost use Rattle.reader_sections.specs.Openings.{area_in};
ghost use Rattle.reader_sections.specs.Steps.{Leads, Replies};

use crate::cancellation::read_cancellation;
use crate::opening::Opening;
use crate::replies::concluded;
use crate::report::read_report;
use crate::step::{Refused, Step};
use crate::test_texts::{read_long_test, read_test};
use grammar::Reply;
use message::{Form, NO_REPORT};

// A test or a cancellation has no report, and the `=` follows.
fn unreported(read: Result<(Form, Step), Refused>, opening: Opening) -> Reply
    ensures { (s : State) (from : Step) → Leads s from read.entry (λ f. at_end (formed (area_in opening) f no_report)) → Replies s from result }
{
    match concluded(read) {
        Ok(form) => opening.accepted(form, NO_REPORT),
        Err(refused) => refused.reply(),
    }
}

// A word that begins neither a test nor a cancellation is judged as a phenomenon.
pub(crate) fn read_body(step: Step, opening: Opening) -> Reply
    ensures { Replies (at_form (area_in opening)) step.entry result }
{
    let code = step.code();
    if code == vocabulary::TEST {
        return unreported(read_test(step.next()), opening);
    }
    if code == vocabulary::TEST_STOP {
        return unreported(read_long_test(step.next()), opening);
    }
    if code == vocabulary::CNL {
        return unreported(read_cancellation(step.next(), opening.line), opening);
    }
    read_report(step, opening)
}
