// A location: a bound, an outline or the entire area.
#![tactic(auto, using(pens::proofs::PenLaws::in_turn), unfolding(pens::specs::Pens::strokes, pens::specs::Pens::spaced, figures::specs::Codes::behind_one, coordinates::specs::Coordinates::spell_coordinate, message::specs::Locations::extent_words))]

ghost use Rattle.std.specs.Prelude.{true, [], ◌∷◌, ◌≡◌, ◌≤◌};
ghost use Rattle.coordinates.specs.Coordinates.{spell_coordinate};
ghost use Rattle.coordinates.specs.Points.{point_words};
ghost use Rattle.figures.specs.Codes.{spell_code};
ghost use Rattle.message.specs.Limits.{most_points};
ghost use Rattle.message.specs.Locations.{good_bound, good_extent, side_words, bound_words, joined, entire_words, extent_words, entire_word};
ghost use Rattle.pens.specs.Pens.{Words};
ghost use Rattle.writer_sections.specs.Moves.{Moved};
ghost use Rattle.writer_sections.specs.Sections.{axis_of, outline_words};

use crate::pen::Pen;
use coordinates::{Coordinate, LATITUDE_FIGURES, LONGITUDE_FIGURES, Point};
use message::{Bound, Extent, Location, MOST_POINTS, Side};
use names::CLOSED_BY_CTA;

// What the entire area is called: `CTA` where the area's name closes with that word, and `FIR` otherwise.
#[tactic(auto, unfolding(figures::specs::Codes::behind_one))]
fn entire_word(closing: u8) -> u64
    ensures { spell_code result ≡ entire_word closing }
{
    match closing {
        CLOSED_BY_CTA => vocabulary::CTA,
        _ => vocabulary::FIR,
    }
}

impl Pen<'_> {
    // A coordinate whose degrees have so many figures. Its minutes are put where they were written: where it has more figures than that.
    fn coordinate(&mut self, c: Coordinate, figures: u8)
        ensures { Moved (Words (spell_coordinate (axis_of figures) c ∷ [])) self.old self.new }
    {
        self.byte(b' ');
        self.byte(c.letter);
        self.figures(u32::from(c.degrees), figures);
        if c.digits != figures {
            self.figures(u32::from(c.minutes), 2);
        }
    }

    pub(crate) fn point(&mut self, p: Point)
        ensures { Moved (Words (point_words p)) self.old self.new }
    {
        self.coordinate(p.latitude, LATITUDE_FIGURES);
        self.coordinate(p.longitude, LONGITUDE_FIGURES);
    }

    // One side of a bound: `N`, `S`, `E` or `W`, then `OF` and the coordinate.
    fn side(&mut self, s: Side, figures: u8)
        ensures { Moved (Words (side_words (axis_of figures) s)) self.old self.new }
    {
        self.byte(b' ');
        self.byte(s.of);
        self.fixed(vocabulary::OF);
        self.coordinate(s.at, figures);
    }

    // A latitude, a longitude, or both with `AND` between. A side whose letter is 0 is not there.
    fn bound(&mut self, b: Bound)
        requires { good_bound b ≡ true }
        ensures { Moved (Words (bound_words b)) self.old self.new }
    {
        if b.latitude.of == 0 {
            self.side(b.longitude, LONGITUDE_FIGURES);
            return;
        }
        self.side(b.latitude, LATITUDE_FIGURES);
        if b.longitude.of != 0 {
            self.fixed(vocabulary::AND);
            self.side(b.longitude, LONGITUDE_FIGURES);
        }
    }

    // Points joined by the word `-`.
    fn points(&mut self, points: &[Point])
        ensures { Moved (Words (joined points.now)) self.old self.new }
    {
        if let [first, others @ ..] = points {
            self.point(*first);
            for p in others {
                self.fixed(vocabulary::DASH);
                self.point(*p);
            }
        }
    }

    // `WI` and the points.
    fn outline(&mut self, n: u8, points: [Point; MOST_POINTS])
        requires { n ≤ most_points }
        ensures { Moved (Words (outline_words n points)) self.old self.new }
    {
        self.fixed(vocabulary::WI);
        self.points(&points[..usize::from(n)]);
    }

    fn entire(&mut self, closing: u8)
        ensures { Moved (Words (entire_words closing)) self.old self.new }
    {
        self.fixed(vocabulary::ENTIRE);
        self.fixed(entire_word(closing));
    }

    pub(crate) fn extent(&mut self, closing: u8, e: Extent)
        requires { good_extent e ≡ true }
        ensures { Moved (Words (extent_words closing e)) self.old self.new }
    {
        match e.location {
            Location::Nowhere => {}
            Location::Bounded(b) => self.bound(b),
            Location::Outline(n) => self.outline(n, e.points),
            Location::Entire => self.entire(closing),
        }
    }
}
