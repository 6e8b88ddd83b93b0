// A report: phenomenon, observation, location, level and ending.
ghost use Rattle.std.specs.Prelude.{◌≡◌};
ghost use Rattle.motions.specs.Motions.{good_intensity};
ghost use Rattle.message.specs.Reports.{good_volcano, empty_volcano, good_phenomenon, good_observation, good_ending, good_report, empty_report};

use crate::{
    ASH_CLOUD, ASH_ERUPTION, Ending, FORECAST, MOUNTAIN_BYTES, NO_OBSERVATION, NO_VOLCANO,
    OBSERVED, Observation, RDOACT_CLD, Report, UNTIMED, Volcano,
};
use coordinates::good_point;
use groups::good_time;
use headings::{KIND_WS, KIND_WV};
use levels::{empty_level, good_level};
use motions::{COMPASS_POINTS, good_speed};

impl Volcano {
    #[tactic(auto, unfolding(crate::specs::Reports::good_volcano))]
    fn is_good(&self) -> bool
        ensures { result ≡ good_volcano self.now }
    {
        let Volcano { name, position } = self;
        (name.is_empty() || name.is_good(true, MOUNTAIN_BYTES)) && good_point(*position)
    }

    #[tactic(auto, using(crate::proofs::Equalities::volcano_empty))]
    fn is_empty(&self) -> bool
        ensures { result ≡ empty_volcano self.now }
    {
        *self == NO_VOLCANO
    }
}

impl Observation {
    #[tactic(auto, unfolding(crate::specs::Reports::good_observation))]
    fn is_good(&self) -> bool
        ensures { result ≡ good_observation self.now }
    {
        let Observation { word, timed, time } = *self;
        let told = if timed {
            good_time(time)
        } else {
            time == UNTIMED
        };
        matches!(word, OBSERVED | FORECAST) && told
    }
}

#[tactic(auto, unfolding(motions::specs::Motions::intensity_words))]
fn good_intensity(n: u8) -> bool
    ensures { result ≡ good_intensity n }
{
    matches!(n, 1..=3)
}

// Each in a bulletin of that kind.
impl Report {
    #[tactic(auto, unfolding(crate::specs::Reports::good_phenomenon))]
    fn has_good_phenomenon(&self, kind: u8) -> bool
        ensures { result ≡ good_phenomenon kind self.now.phenomenon self.now.volcano }
    {
        match (kind, self.phenomenon) {
            (KIND_WS, 1..=RDOACT_CLD) | (KIND_WV, ASH_CLOUD) => self.volcano.is_empty(),
            (KIND_WV, ASH_ERUPTION) => self.volcano.is_good(),
            _ => false,
        }
    }

    #[tactic(auto, unfolding(crate::specs::Reports::good_ending, motions::specs::Motions::compass_words))]
    fn has_good_ending(&self, kind: u8) -> bool
        ensures { result ≡ good_ending kind self.now.ending self.now.forecast }
    {
        let forecast = &self.forecast;
        match self.ending {
            Ending::NoEnding => false,
            Ending::Moving(point, s, n) => {
                point < COMPASS_POINTS && good_speed(s) && good_intensity(n) && forecast.is_empty()
            }
            Ending::Stationary(n) => good_intensity(n) && forecast.is_empty(),
            Ending::Forecast(n) => kind == KIND_WS && good_intensity(n) && forecast.is_good(),
        }
    }

    #[tactic(auto, unfolding(crate::specs::Reports::good_report))]
    pub(crate) fn is_good(&self, kind: u8) -> bool
        ensures { result ≡ good_report kind self.now }
    {
        self.has_good_phenomenon(kind)
            && self.observation.is_good()
            && self.extent.is_good()
            && good_level(self.level)
            && self.has_good_ending(kind)
    }

    // Part by part, for `*self == NO_REPORT` takes half as many instructions again.
    #[tactic(auto, unfolding(crate::specs::Reports::empty_report, crate::specs::Reports::empty_observation, crate::specs::Reports::empty_ending))]
    pub(crate) fn is_empty(&self) -> bool
        ensures { result ≡ empty_report self.now }
    {
        self.phenomenon == 0
            && self.volcano.is_empty()
            && self.observation == NO_OBSERVATION
            && self.extent.is_empty()
            && empty_level(self.level)
            && self.ending == Ending::NoEnding
            && self.forecast.is_empty()
    }
}
