// Ending: MOV, a compass point and a speed, or STNR, then the intensity; or, in WS only, the intensity and a forecast. Then the `=`.
ghost use Rattle.std.specs.Prelude.{◌≡◌, not, eqb};
ghost use Rattle.lists.specs.Choice.{both, found};
ghost use Rattle.figures.specs.Codes.{code_of};
ghost use Rattle.vocabulary.specs.Codes.{code-mov, code-stnr};
ghost use Rattle.groups.specs.Groups.{time_of};
ghost use Rattle.message.specs.Limits.{ws};
ghost use Rattle.message.specs.Locations.{no_extent};
ghost use Rattle.message.specs.declared.Ending.TheVariants.{Forecast};
ghost use Rattle.grammar.specs.Bulletins.{acceptance};
ghost use Rattle.grammar.specs.Records.{report_of};
ghost use Rattle.grammar.specs.States.{ToLevel};
ghost use Rattle.grammar.specs.States.State.{at_ending, at_compass, at_end};
ghost use Rattle.reader_sections.specs.Endings.{level_in, Unforeseen, forecast_time, Forecasts, ForecastWordsSays};
ghost use Rattle.reader_sections.specs.Steps.{next_word, word_on, Leads, Replies};

use crate::location::read_location;
use crate::opening::Opening;
use crate::parts::Part;
use crate::replies::concluded;
use crate::step::{Refused, Step};
use grammar::Reply;
use groups::{Time, time_word};
use headings::KIND_WS;
use levels::Level;
use message::{Ending, Extent, Form, NO_EXTENT, Observation, Report, Volcano};
use motions::{compass_word, intensity_word, speed_word};

// What was read up to the level of a report, with the opening before it.
#[derive(Clone, Copy)]
pub(crate) struct UpToLevel {
    pub opening: Opening,
    pub phenomenon: u8,
    pub volcano: Volcano,
    pub observation: Observation,
    pub extent: Extent,
    pub level: Level,
}

impl UpToLevel {
    // The reply to the whole report.
    #[inline(always)]
    fn accepted(self, ending: Ending, forecast: Extent) -> Reply
        ensures { result ≡ acceptance (report_of (level_in self) ending forecast) }
    {
        let report = Report {
            phenomenon: self.phenomenon,
            volcano: self.volcano,
            observation: self.observation,
            extent: self.extent,
            level: self.level,
            ending,
            forecast,
        };
        self.opening.accepted(Form::Reported, report)
    }
}

// What follows MOV.
#[inline(always)]
fn read_moving(step: Step) -> Result<(Ending, Step), Refused>
    ensures { (l : ToLevel) → Leads (at_compass l) step.entry result (λ e. at_end (report_of l e no_extent)) }
{
    let (direction, step) = step.required(Part::Ending, compass_word(step.word()))?;
    let (speed, step) = step.required(Part::Ending, speed_word(step.word()))?;
    let (intensity, step) = step.required(Part::Ending, intensity_word(step.word()))?;
    Ok((Ending::Moving(direction, speed, intensity), step))
}

// MOV and what follows it, or STNR and the intensity: a word that is not MOV is judged as STNR.
#[inline(always)]
fn read_movement(step: Step) -> Result<(Ending, Step), Refused>
    ensures { (l : ToLevel) → Unforeseen (code_of (word_on step.entry)) l → Leads (at_ending l) step.entry result (λ e. at_end (report_of l e no_extent)) }
{
    if let Some(step) = step.perhaps(vocabulary::MOV) {
        return read_moving(step);
    }
    let step = step.fixed(Part::Ending, vocabulary::STNR)?;
    let (intensity, step) = step.required(Part::Ending, intensity_word(step.word()))?;
    Ok((Ending::Stationary(intensity), step))
}

// The time of a forecast is that of the end of VALID.
fn forecast_time_word(w: &[u8], until: Time) -> Option<Time>
    ensures { result ≡ found (forecast_time until) (time_of w.now) }
{
    let time = time_word(w)?;
    if time == until { Some(time) } else { None }
}

// The forecast of a WS up to its location: the intensity, FCST AT and the time.
fn read_forecast_words(step: Step, until: Time) -> Result<(u8, Step), Refused>
    ensures { ForecastWordsSays until step.entry result }
{
    let (intensity, step) = step.required(Part::Ending, intensity_word(step.word()))?;
    let step = step.fixed(Part::Ending, vocabulary::FCST)?;
    let step = step.fixed(Part::Ending, vocabulary::AT)?;
    let time = forecast_time_word(step.word(), until);
    let (_, step) = step.required(Part::Ending, time)?;
    Ok((intensity, step))
}

// The forecast: the intensity and the location.
fn read_forecast(step: Step, known: UpToLevel) -> Result<((u8, Extent), Step), Refused>
    ensures { Forecasts (level_in known) (next_word step.entry) → Leads (at_ending (level_in known)) step.entry result (λ f. at_end (report_of (level_in known) (Forecast f.0) f.1)) }
{
    let to = known.opening.line.valid.to;
    let until = Time {
        hour: to.hour,
        minute: to.minute,
    };
    let (intensity, step) = read_forecast_words(step, until)?;
    let (forecast, step) = read_location(step, known.opening.area.closing, Part::Ending)?;
    Ok(((intensity, forecast), step))
}

// A word that is neither MOV nor STNR is judged, in a WS, as the intensity before a forecast.
fn foresees(kind: u8, code: u64) -> bool
    ensures { result ≡ both (eqb kind ws) (both (not (eqb code code-mov)) (not (eqb code code-stnr))) }
{
    kind == KIND_WS && (code != vocabulary::MOV && code != vocabulary::STNR)
}

pub(crate) fn read_ending(step: Step, known: UpToLevel) -> Reply
    ensures { Replies (at_ending (level_in known)) step.entry result }
{
    if foresees(known.opening.heading.designator.kind, step.code()) {
        match concluded(read_forecast(step, known)) {
            Ok((intensity, forecast)) => {
                return known.accepted(Ending::Forecast(intensity), forecast);
            }
            Err(refused) => return refused.reply(),
        }
    }
    match concluded(read_movement(step)) {
        Ok(ending) => return known.accepted(ending, NO_EXTENT),
        Err(refused) => refused.reply(),
    }
}
