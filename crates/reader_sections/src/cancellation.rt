// A cancellation: CNL SIGMET, a sequence, group/group.
ghost use Rattle.std.specs.Prelude.{◌≡◌};
ghost use Rattle.lists.specs.Choice.{found};
ghost use Rattle.groups.specs.Groups.{period_of};
ghost use Rattle.message.specs.Reports.{no_report};
ghost use Rattle.grammar.specs.Records.{formed};
ghost use Rattle.grammar.specs.States.{ToArea};
ghost use Rattle.grammar.specs.States.State.{at_cancel_sigmet, at_end};
ghost use Rattle.grammar.specs.Steps.{cancels as cancels_of};
ghost use Rattle.reader_sections.specs.Steps.{Leads};

use crate::parts::Part;
use crate::step::{Refused, Step};
use groups::{Period, good_period, period_word, same_group};
use headings::{Sequence, sequence_word};
use message::{FirstLine, Form, names_itself};

// The second group equals the second group of VALID; sequence and both groups are not all those of the message itself.
#[tactic(auto, unfolding(grammar::specs::Steps::cancels))]
fn cancels(line: FirstLine, sequence: Sequence, period: Period) -> bool
    ensures { result ≡ cancels_of line sequence period }
{
    let itself = names_itself(line, sequence, period.from);
    good_period(period) && (same_group(period.to, line.valid.to) && !itself)
}

// The period of a message that the bulletin may cancel.
fn cancelled_word(line: FirstLine, sequence: Sequence, w: &[u8]) -> Option<Period>
    ensures { result ≡ found (cancels_of line sequence) (period_of w.now) }
{
    let period = period_word(w)?;
    let named = cancels(line, sequence, period);
    if named { Some(period) } else { None }
}

// What follows CNL.
pub(crate) fn read_cancellation(step: Step, line: FirstLine) -> Result<(Form, Step), Refused>
    ensures { (o : ToArea) → o.line ≡ line → Leads (at_cancel_sigmet o) step.entry result (λ f. at_end (formed o f no_report)) }
{
    let step = step.fixed(Part::Form, vocabulary::SIGMET)?;
    let (sequence, step) = step.required(Part::Form, sequence_word(step.word()))?;
    let target = cancelled_word(line, sequence, step.word());
    let (target, step) = step.required(Part::Form, target)?;
    Ok((Form::Cancellation(sequence, target.from), step))
}
