// A location with the points of its outline.
ghost use Rattle.std.specs.Prelude.{◌≡◌};
ghost use Rattle.coordinates.specs.Coordinates.{north_south, east_west};
ghost use Rattle.message.specs.Locations.{good_side, empty_side, good_bound, no_points, good_outline, good_extent, empty_extent};

use crate::{Bound, Extent, LEAST_POINTS, Location, MOST_POINTS, Side};
use coordinates::{
    Point, empty_coordinate, empty_point, good_latitude, good_longitude, good_point, same_point,
};

// Two functions and no generic one: letters and judge both differ, so that it would be longer than the two.
impl Side {
    #[tactic(auto, unfolding(crate::specs::Locations::good_side))]
    fn is_latitude(&self) -> bool
        ensures { result ≡ good_side north_south self.now }
    {
        matches!(self.of, b'N' | b'S') && good_latitude(self.at)
    }

    #[tactic(auto, unfolding(crate::specs::Locations::good_side))]
    fn is_longitude(&self) -> bool
        ensures { result ≡ good_side east_west self.now }
    {
        matches!(self.of, b'E' | b'W') && good_longitude(self.at)
    }

    #[tactic(auto, unfolding(crate::specs::Locations::empty_side))]
    fn is_empty(&self) -> bool
        ensures { result ≡ empty_side self.now }
    {
        self.of == 0 && empty_coordinate(self.at)
    }
}

impl Bound {
    #[tactic(auto, unfolding(crate::specs::Locations::good_bound))]
    fn is_good(&self) -> bool
        ensures { result ≡ good_bound self.now }
    {
        let Bound {
            latitude,
            longitude,
        } = self;
        if latitude.is_empty() {
            longitude.is_longitude()
        } else {
            latitude.is_latitude() && (longitude.is_empty() || longitude.is_longitude())
        }
    }
}

// Point by point, for `*points == NO_POINTS` takes half as many instructions again.
fn no_points(points: &[Point; MOST_POINTS]) -> bool
    ensures { result ≡ no_points points.now }
{
    points.iter().all(|p| empty_point(*p))
}

#[tactic(auto, unfolding(crate::specs::Locations::good_outline))]
fn good_outline(n: u8, points: &[Point; MOST_POINTS]) -> bool
    ensures { result ≡ good_outline n points.now }
{
    let count = usize::from(n);
    if count < LEAST_POINTS || MOST_POINTS < count {
        return false;
    }
    let (written, unused) = points.split_at(count);
    // The first later point that is the same as the first closes the outline.
    let first = points[0];
    let closing = points[1..].iter().position(|p| same_point(first, *p));
    written.iter().all(|p| good_point(*p))
        && (closing == Some(count - 2) && unused.iter().all(|p| empty_point(*p)))
}

impl Extent {
    #[tactic(auto, unfolding(crate::specs::Locations::good_extent))]
    pub(crate) fn is_good(&self) -> bool
        ensures { result ≡ good_extent self.now }
    {
        let points = &self.points;
        match self.location {
            Location::Nowhere => false,
            Location::Bounded(b) => b.is_good() && no_points(points),
            Location::Outline(n) => good_outline(n, points),
            Location::Entire => no_points(points),
        }
    }

    #[tactic(auto, unfolding(crate::specs::Locations::empty_extent))]
    pub(crate) fn is_empty(&self) -> bool
        ensures { result ≡ empty_extent self.now }
    {
        self.location == Location::Nowhere && no_points(&self.points)
    }
}
