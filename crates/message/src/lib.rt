// The record of one SIGMET. Where a form does not use a place, the place is zero and a choice takes its empty case.
// Numbers stay plain numbers, with 0 for none, and a choice has its empty case, in place of an Option: a caller may hand in any record,
// `good` (specs/Records.antt) tells a bad one, and the promises speak of these fields.
#![tactic(auto)]

ghost use Rattle.std.specs.Prelude.{◌≡◌};
ghost use Rattle.message.specs.Records.{good_heading, good_line, good_area, names_itself, good_cancellation, good_form, good};

mod locating;
mod naming;
mod reporting;

use coordinates::{Coordinate, NO_COORDINATE, NO_POINT, Point};
use groups::{Group, NO_GROUP, NO_PERIOD, Period, Time, good_group, good_period};
use headings::{
    Designator, NO_DESIGNATOR, NO_SEQUENCE, Sequence, four_letters, good_correction,
    good_designator, good_sequence,
};
use levels::Level;
use motions::Speed;
use names::CLOSED_BY_CTA;

// How many bytes are kept of a name, and how many of them a mountain's name may have.
pub const NAME_BYTES: usize = 50;

pub const MOUNTAIN_BYTES: usize = 30;

// How many points an outline has, the closing one counted.
pub const LEAST_POINTS: usize = 4;

pub const MOST_POINTS: usize = 20;

// Phenomena, in the paper's order. The storms are 1 to 8: OBSC, EMBD, FRQ and SQL, each with TS and then with TSGR.
pub const SEV_TURB: u8 = 9;

pub const SEV_ICE: u8 = 10;

pub const SEV_ICE_FZRA: u8 = 11;

pub const SEV_MTW: u8 = 12;

pub const HVY_DS: u8 = 13;

pub const HVY_SS: u8 = 14;

pub const RDOACT_CLD: u8 = 15;

// Those of a WV: a cloud of ash, and a cloud with the eruption that it comes from.
pub const ASH_CLOUD: u8 = 16;

pub const ASH_ERUPTION: u8 = 17;

// The first word of an observation.
pub const OBSERVED: u8 = 1;

pub const FORECAST: u8 = 2;

// Letters are kept as one number, in base 256.
#[derive(Clone, Copy, PartialEq, Eq)]
pub struct Heading {
    pub designator: Designator,
    pub centre: u32,
    pub sent: Group,
    pub correction: u8,
}

#[derive(Clone, Copy, PartialEq, Eq)]
pub struct FirstLine {
    pub unit: u32,
    pub sequence: Sequence,
    pub valid: Period,
    pub office: u32,
}

// The text of a name, its words parted by single spaces: the first `count` bytes. The others are zero.
#[derive(Clone, Copy, PartialEq, Eq)]
pub struct Name {
    pub bytes: [u8; NAME_BYTES],
    pub count: usize,
}

pub const NO_NAME: Name = Name {
    bytes: [0; NAME_BYTES],
    count: 0,
};

// The closing word is 1 FIR, 2 FIR/UIR or 3 CTA.
#[derive(Clone, Copy, PartialEq, Eq)]
pub struct Area {
    pub indicator: u32,
    pub name: Name,
    pub closing: u8,
}

// A test by its text, 1 to 3; a cancellation by its target's sequence and start (its end is that of VALID); or a report.
#[derive(Clone, Copy, PartialEq, Eq)]
pub enum Form {
    NoForm,
    Test(u8),
    Cancellation(Sequence, Group),
    Reported,
}

// What erupts: a mountain, where it is named, and its position.
#[derive(Clone, Copy, PartialEq, Eq)]
pub struct Volcano {
    pub name: Name,
    pub position: Point,
}

pub const NO_VOLCANO: Volcano = Volcano {
    name: NO_NAME,
    position: NO_POINT,
};

// OBS or FCST, and the time, where one is given.
#[derive(Clone, Copy, PartialEq, Eq)]
pub struct Observation {
    pub word: u8,
    pub timed: bool,
    pub time: Time,
}

// The time of an observation without one is all zero, as every place is that is not used.
pub const UNTIMED: Time = Time { hour: 0, minute: 0 };

pub const NO_OBSERVATION: Observation = Observation {
    word: 0,
    timed: false,
    time: UNTIMED,
};

// `N OF` a latitude, and so on: the letter before OF, and the coordinate.
#[derive(Clone, Copy, PartialEq, Eq)]
pub struct Side {
    pub of: u8,
    pub at: Coordinate,
}

pub const NO_SIDE: Side = Side {
    of: 0,
    at: NO_COORDINATE,
};

#[derive(Clone, Copy, PartialEq, Eq)]
pub struct Bound {
    pub latitude: Side,
    pub longitude: Side,
}

// Exactly one of three things: a bound, an outline of so many points, or the entire area. `Nowhere` is the empty case.
#[derive(Clone, Copy, PartialEq, Eq)]
pub enum Location {
    Nowhere,
    Bounded(Bound),
    Outline(u8),
    Entire,
}

// A location with the points of its outline beside it.
#[derive(Clone, Copy, PartialEq, Eq)]
pub struct Extent {
    pub location: Location,
    pub points: [Point; MOST_POINTS],
}

pub const NO_POINTS: [Point; MOST_POINTS] = [NO_POINT; MOST_POINTS];

pub const NO_EXTENT: Extent = Extent {
    location: Location::Nowhere,
    points: NO_POINTS,
};

// Movement as compass point, speed and intensity; no movement and intensity; or intensity and a forecast.
#[derive(Clone, Copy, PartialEq, Eq)]
pub enum Ending {
    NoEnding,
    Moving(u8, Speed, u8),
    Stationary(u8),
    Forecast(u8),
}

// The phenomenon is 1 to 17, in the paper's order; 0 is none.
#[derive(Clone, Copy, PartialEq, Eq)]
pub struct Report {
    pub phenomenon: u8,
    pub volcano: Volcano,
    pub observation: Observation,
    pub extent: Extent,
    pub level: Level,
    pub ending: Ending,
    pub forecast: Extent,
}

pub const NO_REPORT: Report = Report {
    phenomenon: 0,
    volcano: NO_VOLCANO,
    observation: NO_OBSERVATION,
    extent: NO_EXTENT,
    level: Level::NoLevel,
    ending: Ending::NoEnding,
    forecast: NO_EXTENT,
};

#[derive(Clone, Copy, PartialEq, Eq)]
pub struct Record {
    pub heading: Heading,
    pub line: FirstLine,
    pub area: Area,
    pub form: Form,
    pub report: Report,
}

// The empty record, all zero, that goes with every refusal.
pub const NO_RECORD: Record = Record {
    heading: Heading {
        designator: NO_DESIGNATOR,
        centre: 0,
        sent: NO_GROUP,
        correction: 0,
    },
    line: FirstLine {
        unit: 0,
        sequence: NO_SEQUENCE,
        valid: NO_PERIOD,
        office: 0,
    },
    area: Area {
        indicator: 0,
        name: NO_NAME,
        closing: 0,
    },
    form: Form::NoForm,
    report: NO_REPORT,
};

impl Heading {
    #[tactic(auto, unfolding(crate::specs::Records::good_heading))]
    fn is_good(&self) -> bool
        ensures { result ≡ good_heading self.now }
    {
        let Heading {
            designator,
            centre,
            sent,
            correction,
        } = *self;
        good_designator(designator)
            && four_letters(centre)
            && good_group(sent)
            && (correction == 0 || good_correction(correction))
    }
}

impl FirstLine {
    #[tactic(auto, unfolding(crate::specs::Records::good_line))]
    fn is_good(&self) -> bool
        ensures { result ≡ good_line self.now }
    {
        let FirstLine {
            unit,
            sequence,
            valid,
            office,
        } = *self;
        four_letters(unit) && good_sequence(sequence) && good_period(valid) && four_letters(office)
    }
}

impl Area {
    #[tactic(auto, unfolding(crate::specs::Records::good_area, names::specs::Names::closing_words))]
    fn is_good(&self) -> bool
        ensures { result ≡ good_area self.now }
    {
        four_letters(self.indicator)
            && self.name.is_good(false, NAME_BYTES)
            && matches!(self.closing, 1..=CLOSED_BY_CTA)
    }
}

// Would a cancellation of that sequence and start name the message itself?
#[tactic(auto, unfolding(crate::specs::Records::names_itself))]
pub fn names_itself(l: FirstLine, s: Sequence, from: Group) -> bool
    ensures { result ≡ names_itself l s from }
{
    s == l.sequence && from == l.valid.from
}

fn good_cancellation(l: FirstLine, s: Sequence, from: Group) -> bool
    ensures { result ≡ good_cancellation l s from }
{
    good_sequence(s) && good_group(from) && !names_itself(l, s, from)
}

impl Record {
    #[tactic(auto, unfolding(crate::specs::Records::good_form))]
    fn has_good_form(&self) -> bool
        ensures { result ≡ good_form self.now.heading.designator.kind self.now.line self.now.report self.now.form }
    {
        match self.form {
            Form::NoForm => false,
            Form::Test(n) => matches!(n, 1..=3) && self.report.is_empty(),
            Form::Cancellation(s, from) => good_cancellation(self.line, s, from)
                && self.report.is_empty(),
            Form::Reported => self.report.is_good(self.heading.designator.kind),
        }
    }
}

// Is it a good record? Every other is a bad one.
#[tactic(auto, unfolding(crate::specs::Records::good))]
pub fn is_good(r: Record) -> bool
    ensures { result ≡ good r }
{
    r.heading.is_good() && r.line.is_good() && r.area.is_good() && r.has_good_form()
}
