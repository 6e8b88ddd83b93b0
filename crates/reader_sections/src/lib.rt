// The sections of the reader: the words of a text to a record, by recursive descent. Each section is a private module, reads in the order of the
// paper's sentence, and leads from one step (`step`) to a value and the step behind it, or to a refusal.
#![tactic(auto)]

ghost use Rattle.std.specs.Prelude.{◌≡◌};
ghost use Rattle.grammar.specs.Reads.{reply_of};
ghost use Rattle.grammar.specs.Runs.{run_at};
ghost use Rattle.grammar.specs.States.State.{at_designator};

mod area;
mod body;
mod cancellation;
mod ending;
mod first_line;
mod heading;
mod level;
mod location;
mod name;
mod observation;
mod opening;
mod outline;
mod parts;
mod phenomenon_ws;
mod phenomenon_wv;
mod replies;
mod report;
mod step;
mod steps;
mod test_texts;

use body::read_body;
use grammar::Reply;
use opening::read_opening;
use step::Step;

// The reply to the text before the first `=`: its record, or 4 to 12 at the first word that begins no message, with its length.
pub fn read_text(text: &[u8]) -> Reply
    ensures { result ≡ reply_of text.now (run_at at_designator text.now 0) }
{
    match read_opening(Step::at(text, 0)) {
        Ok((opening, step)) => return read_body(step, opening),
        Err(refused) => refused.reply(),
    }
}
