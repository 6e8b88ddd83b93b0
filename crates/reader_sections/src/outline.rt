// An outline: points joined by the word `-`. It ends at the first later point equal to point 1. What each point is read by is inlined, as in `steps`.
ghost use Rattle.std.specs.Prelude.{◌<◌, []};
ghost use Rattle.message.specs.Limits.{most_points};
ghost use Rattle.grammar.specs.States.Placing.{at_latitude};
ghost use Rattle.reader_sections.specs.Locations.{LocatedSays};
ghost use Rattle.reader_sections.specs.Outlines.{FollowsSays, ClosesSays, LatitudeSays, CornerSays, PointSays};

use crate::parts::Part;
use crate::step::{Refused, Step};
use coordinates::{Coordinate, Point, latitude, longitude, same_latitude, same_point};
use message::{Extent, LEAST_POINTS, Location, MOST_POINTS, NO_POINTS};

// A point of an outline: one more, or the one that closes it.
#[derive(Clone, Copy)]
enum Corner {
    Further(Point),
    Closing(Point),
}

// May a point of that latitude follow so many points? The last that there is room for has the latitude of point 1.
#[inline(always)]
fn may_follow(first: Point, count: usize, c: Coordinate) -> bool
    requires { count < most_points }
    ensures { FollowsSays first count c result }
{
    count == 0 || count + 1 < MOST_POINTS || same_latitude(first.latitude, c)
}

// Is the point equal to point 1?
#[inline(always)]
fn closes(first: Point, count: usize, p: Point) -> bool
    ensures { ClosesSays first count p result }
{
    count != 0 && same_point(first, p)
}

// The latitude of one more point.
#[inline(always)]
fn latitude_word(first: Point, count: usize, w: &[u8]) -> Option<Coordinate>
    requires { count < most_points }
    ensures { LatitudeSays first count w.now result }
{
    let c = latitude(w)?;
    if may_follow(first, count, c) {
        Some(c)
    } else {
        None
    }
}

// The point of that latitude and of the longitude that the word is. It may close the outline from point 4 on, and has to where there is no room
// after it.
#[inline(always)]
fn corner_word(first: Point, count: usize, north: Coordinate, w: &[u8]) -> Option<Corner>
    requires { count < most_points }
    ensures { CornerSays first count north w.now result }
{
    let longitude = longitude(w)?;
    let point = Point {
        latitude: north,
        longitude,
    };
    if closes(first, count, point) {
        let enough = LEAST_POINTS <= count + 1;
        return if enough {
            Some(Corner::Closing(point))
        } else {
            None
        };
    }
    let room = count + 1 < MOST_POINTS;
    if room {
        Some(Corner::Further(point))
    } else {
        None
    }
}

// One more point, and the `-` after it where it does not close the outline.
#[inline(always)]
fn next_point(step: Step, first: Point, count: usize, part: Part) -> Result<(Corner, Step), Refused>
    requires { count < most_points }
    ensures { PointSays first count part step.entry result }
{
    let (north, step) = step.required(part, latitude_word(first, count, step.word()))?;
    let corner = corner_word(first, count, north, step.word());
    let (corner, step) = step.required(part, corner)?;
    if let Corner::Closing(_) = corner {
        return Ok((corner, step));
    }
    let step = step.fixed(part, vocabulary::DASH)?;
    Ok((corner, step))
}

// The points after WI. Counted by hand: how many there are is part of the record, each point is judged by it, and a word that is none ends all.
pub(crate) fn read_outline(step: Step, part: Part) -> Result<(Extent, Step), Refused>
    ensures { LocatedSays (at_latitude []) part step.entry result }
{
    let mut points = NO_POINTS;
    let mut count = 0;
    let mut step = step;
    loop {
        let (corner, next) = next_point(step, points[0], count, part)?;
        step = next;
        match corner {
            Corner::Further(point) => {
                points[count] = point;
                count += 1;
            }
            Corner::Closing(point) => {
                points[count] = point;
                let outline = Extent {
                    location: Location::Outline((count + 1) as u8),
                    points,
                };
                return Ok((outline, step));
            }
        }
    }
}
