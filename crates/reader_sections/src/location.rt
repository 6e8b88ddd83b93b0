// Location: a bound, an outline or the entire area. It is read in a report and in a forecast, and refused as that part of either.
ghost use Rattle.std.specs.Prelude.{◌≡◌, ℕ};
ghost use Rattle.figures.specs.Codes.{spell_code};
ghost use Rattle.message.specs.Locations.{entire_word};
ghost use Rattle.grammar.specs.Records.{bounded as bounded_by};
ghost use Rattle.grammar.specs.States.Placing.{at_location, at_latitude_of, at_and, at_longitude_of, at_entire};
ghost use Rattle.reader_sections.specs.Locations.{SideSays, EntireSays, LocatedSays, LocatedInSays};

use crate::outline::read_outline;
use crate::parts::Part;
use crate::step::{Refused, Step};
use coordinates::{latitude, longitude};
use message::{Bound, Extent, Location, NO_POINTS, NO_SIDE, Side};
use names::CLOSED_BY_CTA;

// The letter before OF, where the word of that code is one of the two.
#[inline(always)]
fn side_of(code: u64, plus: u64, minus: u64) -> Option<u8>
    ensures { SideSays code plus minus result }
{
    if code == plus || code == minus {
        Some((code % 256) as u8)
    } else {
        None
    }
}

#[inline(always)]
fn bounded(latitude: Side, longitude: Side) -> Extent
    ensures { result ≡ bounded_by latitude longitude }
{
    let bound = Bound {
        latitude,
        longitude,
    };
    Extent {
        location: Location::Bounded(bound),
        points: NO_POINTS,
    }
}

// OF and a longitude, after `E` or `W`; a latitude bound may stand before it.
#[inline(always)]
fn read_longitude_bound(
    step: Step,
    north: Side,
    of: u8,
    part: Part,
) -> Result<(Extent, Step), Refused>
    ensures { LocatedSays (at_longitude_of north of) part step.entry result }
{
    let step = step.fixed(part, vocabulary::OF)?;
    let (at, step) = step.required(part, longitude(step.word()))?;
    Ok((bounded(north, Side { of, at }), step))
}

// After a latitude bound: perhaps AND and a longitude bound.
fn read_second_bound(step: Step, north: Side, part: Part) -> Result<(Extent, Step), Refused>
    ensures { LocatedSays (at_and north) part step.entry result }
{
    if let Some(step) = step.perhaps(vocabulary::AND) {
        let side = side_of(step.code(), vocabulary::E, vocabulary::W);
        let (side, step) = step.required(part, side)?;
        return read_longitude_bound(step, north, side, part);
    }
    Ok((bounded(north, NO_SIDE), step))
}

// OF and a latitude, after `N` or `S`, and what may follow.
fn read_latitude_bound(step: Step, of: u8, part: Part) -> Result<(Extent, Step), Refused>
    ensures { LocatedSays (at_latitude_of of) part step.entry result }
{
    let step = step.fixed(part, vocabulary::OF)?;
    let (at, step) = step.required(part, latitude(step.word()))?;
    read_second_bound(step, Side { of, at }, part)
}

// What the entire area is called.
fn entire_code(closing: u8) -> u64
    ensures { EntireSays closing result }
{
    if closing == CLOSED_BY_CTA {
        vocabulary::CTA
    } else {
        vocabulary::FIR
    }
}

// FIR, or CTA in a CTA, after ENTIRE.
fn read_entire(step: Step, closing: u8, part: Part) -> Result<(Extent, Step), Refused>
    ensures { LocatedInSays closing at_entire part step.entry result }
{
    let step = step.fixed(part, entire_code(closing))?;
    let entire = Extent {
        location: Location::Entire,
        points: NO_POINTS,
    };
    Ok((entire, step))
}

// A bound by its first word, or the entire area, or an outline.
pub(crate) fn read_location(step: Step, closing: u8, part: Part) -> Result<(Extent, Step), Refused>
    ensures { LocatedInSays closing at_location part step.entry result }
{
    let code = step.code();
    if let Some(north) = side_of(code, vocabulary::N, vocabulary::S) {
        return read_latitude_bound(step.next(), north, part);
    }
    if let Some(east) = side_of(code, vocabulary::E, vocabulary::W) {
        return read_longitude_bound(step.next(), NO_SIDE, east, part);
    }
    if code == vocabulary::ENTIRE {
        return read_entire(step.next(), closing, part);
    }
    let step = step.fixed(part, vocabulary::WI)?;
    read_outline(step, part)
}
