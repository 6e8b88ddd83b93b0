// Levels: the word of a level, and the judgement of any level.
#![tactic(auto)]

ghost use Rattle.std.specs.Prelude.{◌≡◌, ◌≤◌, ◌<◌, length};
ghost use Rattle.lists.specs.Choice.{found};
ghost use Rattle.words.specs.Bytes.{between};
ghost use Rattle.figures.specs.Figures.{figures_of};
ghost use Rattle.levels.specs.Levels.{flight, good_band, good_level_word, feet_figures, five, surface_nine, band_nine, nine, ten_eleven, level_of, good_level, empty_level};

use figures::{code, figures};

// `NoLevel` is what a record has where no level is given: it stands in a field of the record, which keeps its form.
#[derive(Clone, Copy, PartialEq, Eq)]
pub enum Level {
    NoLevel,
    Flight(u32),
    SurfaceFlight(u32),
    SurfaceMetres(u32),
    SurfaceFeet(u32),
    Band(u32, u32),
    TopFlight(u32),
    AboveFlight(u32),
    TopAboveFlight(u32),
}

// The greatest numbers of three, four and five digits.
const MOST_FLIGHT: u32 = 999;

const MOST_METRES: u32 = 9999;

const MOST_FEET: u32 = 99999;

fn is_flight(n: u32) -> bool
    ensures { result ≡ flight n }
{
    (1..=MOST_FLIGHT).contains(&n)
}

// What figures count, from 1 up to a greatest number.
fn counted(w: &[u8], most: u32) -> Option<u32>
    requires { most < 100000 }
    ensures { result ≡ found (between 1 most) (figures_of w.now) }
{
    let n = figures(w)?;
    (1..=most).contains(&n).then_some(n)
}

#[tactic(auto, using(crate::proofs::LevelLaws::flight_code), unfolding(crate::specs::Levels::good_level_word))]
fn five_bytes(w: &[u8]) -> Option<Level>
    requires { length w.now ≡ 5 }
    ensures { result ≡ found good_level_word (five w.now) }
{
    if code(&w[0..2]) != vocabulary::FL {
        return None;
    }
    let n = counted(&w[2..5], MOST_FLIGHT)?;
    Some(Level::Flight(n))
}

#[tactic(auto, using(crate::proofs::LevelLaws::flight_code), unfolding(crate::specs::Levels::good_level_word))]
fn surface_nine(w: &[u8]) -> Option<Level>
    requires { length w.now ≡ 9 }
    ensures { result ≡ found good_level_word (surface_nine w.now) }
{
    if code(&w[4..6]) == vocabulary::FL {
        let n = counted(&w[6..9], MOST_FLIGHT)?;
        return Some(Level::SurfaceFlight(n));
    }
    if w[8] != b'M' {
        return None;
    }
    let n = counted(&w[4..8], MOST_METRES)?;
    Some(Level::SurfaceMetres(n))
}

fn good_band(low: u32, high: u32) -> bool
    ensures { result ≡ good_band low high }
{
    is_flight(low) && is_flight(high) && low < high
}

#[tactic(auto, using(crate::proofs::LevelLaws::flight_code), unfolding(crate::specs::Levels::good_level_word))]
fn band_nine(w: &[u8]) -> Option<Level>
    requires { length w.now ≡ 9 }
    ensures { result ≡ found good_level_word (band_nine w.now) }
{
    if code(&w[0..2]) != vocabulary::FL || w[5] != b'/' {
        return None;
    }
    let low = figures(&w[2..5])?;
    let high = figures(&w[6..9])?;
    good_band(low, high).then_some(Level::Band(low, high))
}

#[tactic(auto, using(crate::proofs::LevelLaws::surface_code))]
fn nine_bytes(w: &[u8]) -> Option<Level>
    requires { length w.now ≡ 9 }
    ensures { result ≡ found good_level_word (nine w.now) }
{
    if code(&w[0..4]) == vocabulary::SURFACE {
        surface_nine(w)
    } else {
        band_nine(w)
    }
}

// In how many figures so many feet are written: five from 10000 up.
pub fn feet_figures(n: u32) -> u8
    ensures { result ≡ feet_figures n }
{
    match n {
        0..=9999 => 4,
        _ => 5,
    }
}

#[tactic(auto, using(crate::proofs::LevelLaws::surface_code, crate::proofs::LevelLaws::feet_code, crate::proofs::LevelLaws::end_part), unfolding(crate::specs::Levels::good_level_word))]
fn ten_or_eleven(w: &[u8]) -> Option<Level>
    requires { (10 ≤ length w.now) × (length w.now ≤ 11) }
    ensures { result ≡ found good_level_word (ten_eleven w.now) }
{
    let past = w.len() - 2;
    if code(&w[0..4]) != vocabulary::SURFACE || code(&w[past..]) != vocabulary::FT {
        return None;
    }
    let n = counted(&w[4..past], MOST_FEET)?;
    (usize::from(feet_figures(n)) == past - 4).then_some(Level::SurfaceFeet(n))
}

// The level that one word is.
#[tactic(auto, unfolding(crate::specs::Levels::level_of, crate::specs::Levels::good_level_word))]
pub fn level_word(w: &[u8]) -> Option<Level>
    ensures { result ≡ found good_level_word (level_of w.now) }
{
    match w.len() {
        5 => five_bytes(w),
        9 => nine_bytes(w),
        10 | 11 => ten_or_eleven(w),
        _ => None,
    }
}

#[tactic(auto, unfolding(crate::specs::Levels::good_level, crate::specs::Levels::good_level_word))]
pub fn good_level(l: Level) -> bool
    ensures { result ≡ good_level l }
{
    match l {
        Level::NoLevel => false,
        Level::Flight(n)
        | Level::SurfaceFlight(n)
        | Level::TopFlight(n)
        | Level::AboveFlight(n)
        | Level::TopAboveFlight(n) => is_flight(n),
        Level::SurfaceMetres(n) => (1..=MOST_METRES).contains(&n),
        Level::SurfaceFeet(n) => (1..=MOST_FEET).contains(&n),
        Level::Band(low, high) => good_band(low, high),
    }
}

#[tactic(auto, unfolding(crate::specs::Levels::empty_level))]
pub fn empty_level(l: Level) -> bool
    ensures { result ≡ empty_level l }
{
    l == Level::NoLevel
}
