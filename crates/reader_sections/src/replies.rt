// How a reading ends. What reads up to the `=` answers with the reply: a `Result` of a whole record would be cleared and copied at each return. So
// is what two arms of a `match` join in: where a report is read, the arm that goes on returns its reply.
ghost use Rattle.std.specs.Prelude.{◌≡◌};
ghost use Rattle.message.specs.declared.Record.{Record};
ghost use Rattle.grammar.specs.Bulletins.{acceptance, refusal as refusal_of};
ghost use Rattle.grammar.specs.Records.{formed};
ghost use Rattle.grammar.specs.States.{State};
ghost use Rattle.grammar.specs.States.State.{at_end};
ghost use Rattle.reader_sections.specs.declared.step.Step.{Step};
ghost use Rattle.reader_sections.specs.Openings.{area_in};
ghost use Rattle.reader_sections.specs.Parts.{part_number};
ghost use Rattle.reader_sections.specs.Steps.{Leads, Concludes};

use crate::opening::Opening;
use crate::step::{Refused, Step};
use grammar::{Reply, refusal};
use message::{Form, Record, Report};

impl Refused {
    pub(crate) fn reply(self) -> Reply
        ensures { result ≡ refusal_of (part_number self.part) self.place self.length }
    {
        refusal(self.part.number(), self.place, self.length)
    }
}

impl Opening {
    // The reply to the whole message that begins so.
    #[inline(always)]
    pub(crate) fn accepted(self, form: Form, report: Report) -> Reply
        ensures { result ≡ acceptance (formed (area_in self) form report) }
    {
        Reply {
            number: 0,
            place: 0,
            length: 0,
            message: Record {
                heading: self.heading,
                line: self.line,
                area: self.area,
                form,
                report,
            },
        }
    }
}

// What was read, where the `=` follows.
#[inline(always)]
pub(crate) fn concluded<T: Drop>(read: Result<(T, Step), Refused>) -> Result<T, Refused>
    ensures { (s : State) (from : Step) (whole : T → Record) → Leads s from read.entry (λ v. at_end (whole v)) → Concludes s from result whole }
{
    let (value, step) = read?;
    step.ended()?;
    Ok(value)
}
