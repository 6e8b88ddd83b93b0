// What tells the two axes apart.
ghost use Rattle.std.specs.Prelude.{◌≤◌, ◌<◌};

use crate::{LATITUDE_FIGURES, LONGITUDE_FIGURES};

// How many figures degrees have, the greatest degrees, and the letters of the positive and of the negative side.
#[derive(Clone, Copy)]
pub(crate) struct Axis {
    pub width: u8,
    pub greatest: u16,
    pub plus: u8,
    pub minus: u8,
    // three figures count every degree of the axis; and no letter is the 0 of `NO_COORDINATE`
    ghost narrow: { width ≤ 3 },
    ghost few: { greatest < 1000 },
    ghost lettered: { (0 < plus) × (0 < minus) },
}

pub(crate) const LATITUDE: Axis = Axis {
    width: LATITUDE_FIGURES,
    greatest: 90,
    plus: b'N',
    minus: b'S',
};

pub(crate) const LONGITUDE: Axis = Axis {
    width: LONGITUDE_FIGURES,
    greatest: 180,
    plus: b'E',
    minus: b'W',
};
