// Latitudes, longitudes and points: read from a word, judged, and valued in signed minutes.
#![tactic(auto)]

ghost use Rattle.std.specs.Prelude.{◌≡◌};
ghost use Rattle.lists.specs.Choice.{found};
ghost use Rattle.coordinates.specs.Coordinates.{north_south, east_west, coordinate_of, good_coordinate, empty_coordinate, signed_of};
ghost use Rattle.coordinates.specs.Points.{apart, same_value, same_point, good_point, empty_point};

mod axis;
mod reading;

use axis::{LATITUDE, LONGITUDE};

// Letter and digits as written: how many digits, and the degrees and minutes that they count.
#[derive(Clone, Copy, PartialEq, Eq)]
pub struct Coordinate {
    pub letter: u8,
    pub digits: u8,
    pub degrees: u16,
    pub minutes: u8,
}

pub const NO_COORDINATE: Coordinate = Coordinate {
    letter: 0,
    digits: 0,
    degrees: 0,
    minutes: 0,
};

#[derive(Clone, Copy, PartialEq, Eq)]
pub struct Point {
    pub latitude: Coordinate,
    pub longitude: Coordinate,
}

pub const NO_POINT: Point = Point {
    latitude: NO_COORDINATE,
    longitude: NO_COORDINATE,
};

// How many figures degrees have, and the minutes once around the earth.
pub const LATITUDE_FIGURES: u8 = 2;

pub const LONGITUDE_FIGURES: u8 = 3;

const ROUND: u32 = 21600;

// The latitude that a word is.
pub fn latitude(w: &[u8]) -> Option<Coordinate>
    ensures { result ≡ found (good_coordinate north_south) (coordinate_of north_south w.now) }
{
    LATITUDE.coordinate(w)
}

// The longitude that a word is.
pub fn longitude(w: &[u8]) -> Option<Coordinate>
    ensures { result ≡ found (good_coordinate east_west) (coordinate_of east_west w.now) }
{
    LONGITUDE.coordinate(w)
}

pub fn good_latitude(c: Coordinate) -> bool
    ensures { result ≡ good_coordinate north_south c }
{
    LATITUDE.good(c)
}

pub fn good_longitude(c: Coordinate) -> bool
    ensures { result ≡ good_coordinate east_west c }
{
    LONGITUDE.good(c)
}

#[tactic(auto, unfolding(crate::specs::Coordinates::empty_coordinate))]
pub fn empty_coordinate(c: Coordinate) -> bool
    ensures { result ≡ empty_coordinate c }
{
    c == NO_COORDINATE
}

// The signed value in minutes, north and east positive.
#[tactic(auto, unfolding(crate::specs::Coordinates::signed_of))]
pub fn signed(c: Coordinate) -> i32
    ensures { result ≡ signed_of c }
{
    let size = (u32::from(c.degrees) * 60 + u32::from(c.minutes)) as i32;
    if c.letter == b'S' || c.letter == b'W' {
        -size
    } else {
        size
    }
}

// How far apart the signed values of two coordinates are.
fn apart_by(c: Coordinate, d: Coordinate) -> u32
    ensures { result ≡ apart (signed_of c) (signed_of d) }
{
    signed(c).abs_diff(signed(d))
}

// Have two latitudes the same value? N00 and S0000 have.
pub fn same_latitude(c: Coordinate, d: Coordinate) -> bool
    ensures { result ≡ same_value c d }
{
    apart_by(c, d) == 0
}

// "Points are equal when their latitudes are equal and their longitudes differ by 0 or 21,600."
#[tactic(auto, unfolding(crate::specs::Points::same_point))]
pub fn same_point(p: Point, q: Point) -> bool
    ensures { result ≡ same_point p q }
{
    let east = apart_by(p.longitude, q.longitude);
    same_latitude(p.latitude, q.latitude) && (east == 0 || east == ROUND)
}

#[tactic(auto, unfolding(crate::specs::Points::good_point))]
pub fn good_point(p: Point) -> bool
    ensures { result ≡ good_point p }
{
    good_latitude(p.latitude) && good_longitude(p.longitude)
}

#[tactic(auto, unfolding(crate::specs::Points::empty_point, crate::specs::Coordinates::empty_coordinate))]
pub fn empty_point(p: Point) -> bool
    ensures { result ≡ empty_point p }
{
    p == NO_POINT
}
