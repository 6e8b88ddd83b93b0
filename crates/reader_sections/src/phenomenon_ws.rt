// Phenomenon of a WS, kept by its number in the paper's order: two words, and `SEV ICE (FZRA)` of three.
ghost use Rattle.std.specs.Prelude.{◌≤◌};
ghost use Rattle.grammar.specs.States.{ToArea};
ghost use Rattle.grammar.specs.States.State.{at_storm, at_severe, at_heavy, at_radioactive};
ghost use Rattle.reader_sections.specs.Phenomena.{observing, WeatherSays};
ghost use Rattle.reader_sections.specs.Steps.{Leads};

use crate::parts::Part;
use crate::step::{Refused, Step};
use figures::find;
use message::{HVY_DS, HVY_SS, RDOACT_CLD, SEV_ICE, SEV_ICE_FZRA, SEV_MTW, SEV_TURB};

// The first words of a storm, in the paper's order.
const STORMS: [u64; 4] = [
    vocabulary::OBSC,
    vocabulary::EMBD,
    vocabulary::FRQ,
    vocabulary::SQL,
];

// TS or TSGR, after the first word of a storm: 1 OBSC to 4 SQL.
fn read_storm(step: Step, storm: u8) -> Result<(u8, Step), Refused>
    requires { (1 ≤ storm) × (storm ≤ 4) }
    ensures { (o : ToArea) → Leads (at_storm o storm) step.entry result (observing o) }
{
    if let Some(step) = step.perhaps(vocabulary::TS) {
        return Ok((2 * storm - 1, step));
    }
    let step = step.fixed(Part::Form, vocabulary::TSGR)?;
    Ok((2 * storm, step))
}

// TURB, ICE, ICE (FZRA) or MTW, after SEV.
fn read_severe(step: Step) -> Result<(u8, Step), Refused>
    ensures { (o : ToArea) → Leads (at_severe o) step.entry result (observing o) }
{
    if let Some(step) = step.perhaps(vocabulary::TURB) {
        return Ok((SEV_TURB, step));
    }
    if let Some(step) = step.perhaps(vocabulary::MTW) {
        return Ok((SEV_MTW, step));
    }
    let step = step.fixed(Part::Form, vocabulary::ICE)?;
    if let Some(step) = step.perhaps(vocabulary::FREEZING_RAIN) {
        return Ok((SEV_ICE_FZRA, step));
    }
    Ok((SEV_ICE, step))
}

// DS or SS, after HVY.
fn read_heavy(step: Step) -> Result<(u8, Step), Refused>
    ensures { (o : ToArea) → Leads (at_heavy o) step.entry result (observing o) }
{
    if let Some(step) = step.perhaps(vocabulary::DS) {
        return Ok((HVY_DS, step));
    }
    let step = step.fixed(Part::Form, vocabulary::SS)?;
    Ok((HVY_SS, step))
}

// CLD, after RDOACT.
fn read_radioactive(step: Step) -> Result<(u8, Step), Refused>
    ensures { (o : ToArea) → Leads (at_radioactive o) step.entry result (observing o) }
{
    let step = step.fixed(Part::Form, vocabulary::CLD)?;
    Ok((RDOACT_CLD, step))
}

pub(crate) fn read_weather(step: Step) -> Result<(u8, Step), Refused>
    ensures { WeatherSays step.entry result }
{
    let code = step.code();
    if let Some(storm) = find(&STORMS, code) {
        return read_storm(step.next(), storm as u8 + 1);
    }
    if code == vocabulary::SEV {
        return read_severe(step.next());
    }
    if code == vocabulary::HVY {
        return read_heavy(step.next());
    }
    let step = step.fixed(Part::Form, vocabulary::RDOACT)?;
    read_radioactive(step)
}
