// One judgement and one reader for both axes. Inlined, so that each axis has its own code, with its numbers in it: an outline has up to forty
// coordinates.
ghost use Rattle.std.specs.Prelude.{◌≡◌};
ghost use Rattle.lists.specs.Choice.{found};
ghost use Rattle.coordinates.specs.Coordinates.{coordinate_of, good_coordinate, written, counted};
ghost use Rattle.coordinates.specs.Axes.{axis_of};

use crate::Coordinate;
use crate::axis::Axis;
use figures::{three, two};

impl Axis {
    #[inline(always)]
    fn is_written(self, c: Coordinate) -> bool
        ensures { result ≡ written (axis_of self) c }
    {
        (c.letter == self.plus || c.letter == self.minus)
            && (c.digits == self.width && c.minutes == 0 || c.digits == self.width + 2)
    }

    #[inline(always)]
    fn is_counted(self, c: Coordinate) -> bool
        ensures { result ≡ counted (axis_of self) c }
    {
        c.degrees <= self.greatest
            && c.minutes <= 59
            && (c.degrees < self.greatest || c.minutes == 0)
    }

    #[inline(always)]
    #[tactic(auto, unfolding(crate::specs::Coordinates::good_coordinate))]
    pub(crate) fn good(self, c: Coordinate) -> bool
        ensures { result ≡ good_coordinate (axis_of self) c }
    {
        self.is_written(c) && self.is_counted(c)
    }

    #[inline(always)]
    fn keep(self, c: Coordinate) -> Option<Coordinate>
        ensures { result ≡ found (good_coordinate (axis_of self)) c }
    {
        if self.good(c) { Some(c) } else { None }
    }

    // The coordinate that a word is: a letter and degrees, or a letter, degrees and minutes.
    #[inline(always)]
    pub(crate) fn coordinate(self, w: &[u8]) -> Option<Coordinate>
        ensures { result ≡ found (good_coordinate (axis_of self)) (coordinate_of (axis_of self) w.now) }
    {
        let past = usize::from(self.width) + 1;
        if w.len() == past {
            let degrees = three(&w[1..past])?;
            return self.keep(Coordinate {
                letter: w[0],
                digits: self.width,
                degrees,
                minutes: 0,
            });
        }
        if w.len() != past + 2 {
            return None;
        }
        let degrees = three(&w[1..past])?;
        let minutes = two(&w[past..])?;
        self.keep(Coordinate {
            letter: w[0],
            digits: self.width + 2,
            degrees,
            minutes,
        })
    }
}
