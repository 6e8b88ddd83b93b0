// Groups of day, hour and minute to instants: whole minutes from 2000-01-01 0000Z to the end of 2099.
#![tactic(auto)]

ghost use Rattle.std.specs.Prelude.{◌≡◌, ◌+◌, ◌≤◌};
ghost use Rattle.lists.specs.Choice.{found};
ghost use Rattle.calendar.specs.Gregorian.{is_instant};
ghost use Rattle.calendar.specs.Meanings.{limit_of};
ghost use Rattle.calendar.specs.Instants.{on_day, instant_in, start_of, end_of, target_of};

mod months;
mod table;

use groups::Group;
use months::month_of;
use table::first_day;

// The minute after the last one of 2099, from which on there is no instant.
pub const NEVER: u32 = 52596000;

// The days of the hundred years.
const DAYS: u64 = 36525;

// The instant of the day `ahead` days after `first` that has the group and is from `low` on and before `high`.
fn on_day(g: Group, first: u64, ahead: u64, low: u64, high: u64) -> Option<u32>
    requires { first + ahead ≤ 18446744073709551615 }
    ensures { result ≡ found is_instant (on_day g low high (first + ahead)) }
{
    let day = first + ahead;
    if DAYS <= day || 23 < g.hour || 59 < g.minute {
        return None;
    }
    let month = month_of(day);
    let date = day - first_day(month) + 1;
    let t = day * 1440 + (u64::from(g.hour) * 60 + u64::from(g.minute));
    if date != u64::from(g.day) || t < low || high <= t {
        return None;
    }
    Some(t as u32)
}

// The instant from `low` on and before `high` that has the group: it lies on one of three days.
fn instant_in(g: Group, low: u64, high: u64) -> Option<u32>
    ensures { result ≡ found is_instant (instant_in g low high) }
{
    let first = low / 1440;
    on_day(g, first, 0, low, high)
        .or_else(|| on_day(g, first, 1, low, high))
        .or_else(|| on_day(g, first, 2, low, high))
}

// How long a message of the kind may be valid.
pub fn limit_of(kind: u8) -> u32
    ensures { result ≡ limit_of kind }
{
    match kind {
        2 => 240,
        _ => 360,
    }
}

// What a start group means at a clock.
#[tactic(auto, unfolding(crate::specs::Instants::start_of))]
pub fn start_of(clock: u32, from: Group) -> Option<u32>
    ensures { result ≡ found is_instant (start_of clock from) }
{
    let low = clock.saturating_sub(1440);
    instant_in(from, u64::from(low), u64::from(clock) + 1441)
}

// The end of a message of the kind that starts so.
#[tactic(auto, unfolding(crate::specs::Instants::end_of))]
pub fn end_of(kind: u8, start: u32, to: Group) -> Option<u32>
    ensures { result ≡ found is_instant (end_of kind start to) }
{
    let limit = limit_of(kind);
    let after = u64::from(start) + 1;
    instant_in(to, after, after + u64::from(limit))
}

// The start of a cancellation's target, which ends with it.
#[tactic(auto, unfolding(crate::specs::Instants::target_of))]
pub fn target_of(kind: u8, end: u32, from: Group) -> Option<u32>
    ensures { result ≡ found is_instant (target_of kind end from) }
{
    let limit = limit_of(kind);
    let low = end.saturating_sub(limit);
    instant_in(from, u64::from(low), u64::from(end))
}
