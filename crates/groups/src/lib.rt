// Day, hour and minute: the six-digit group, `group/group` and `GGggZ`.
#![tactic(auto, unfolding(crate::specs::Groups::good_group, crate::specs::Groups::group_of, crate::specs::Groups::good_period, crate::specs::Groups::period_of, crate::specs::Groups::good_time, crate::specs::Groups::time_of))]

ghost use Rattle.std.specs.Prelude.{◌≡◌};
ghost use Rattle.lists.specs.Choice.{found};
ghost use Rattle.groups.specs.Groups.{good_group, group_of, good_period, period_of, good_time, time_of, on_clock, same_group};

use figures::two;

#[derive(Clone, Copy, PartialEq, Eq)]
pub struct Group {
    pub day: u8,
    pub hour: u8,
    pub minute: u8,
}

// What the empty record has.
pub const NO_GROUP: Group = Group {
    day: 0,
    hour: 0,
    minute: 0,
};

#[derive(Clone, Copy, PartialEq, Eq)]
pub struct Period {
    pub from: Group,
    pub to: Group,
}

pub const NO_PERIOD: Period = Period {
    from: NO_GROUP,
    to: NO_GROUP,
};

// Hour and minute of a day.
#[derive(Clone, Copy, PartialEq, Eq)]
pub struct Time {
    pub hour: u8,
    pub minute: u8,
}

fn on_clock(hour: u8, minute: u8) -> bool
    ensures { result ≡ on_clock hour minute }
{
    hour <= 23 && minute <= 59
}

pub fn good_group(g: Group) -> bool
    ensures { result ≡ good_group g }
{
    (1..=31).contains(&g.day) && on_clock(g.hour, g.minute)
}

// Have two groups the same day, hour and minute?
pub fn same_group(g: Group, h: Group) -> bool
    ensures { result ≡ same_group g h }
{
    g == h
}

// The group that a word is.
pub fn group_word(w: &[u8]) -> Option<Group>
    ensures { result ≡ found good_group (group_of w.now) }
{
    if w.len() != 6 {
        return None;
    }
    let day = two(&w[0..2])?;
    let hour = two(&w[2..4])?;
    let minute = two(&w[4..6])?;
    let g = Group { day, hour, minute };
    good_group(g).then_some(g)
}

pub fn good_period(p: Period) -> bool
    ensures { result ≡ good_period p }
{
    good_group(p.from) && good_group(p.to)
}

// The period that a word `group/group` is.
pub fn period_word(w: &[u8]) -> Option<Period>
    ensures { result ≡ found good_period (period_of w.now) }
{
    if w.len() != 13 || w[6] != b'/' {
        return None;
    }
    let from = group_word(&w[0..6])?;
    let to = group_word(&w[7..13])?;
    Some(Period { from, to })
}

pub fn good_time(t: Time) -> bool
    ensures { result ≡ good_time t }
{
    on_clock(t.hour, t.minute)
}

// The time that a word `GGggZ` is.
pub fn time_word(w: &[u8]) -> Option<Time>
    ensures { result ≡ found good_time (time_of w.now) }
{
    if w.len() != 5 || w[4] != b'Z' {
        return None;
    }
    let hour = two(&w[0..2])?;
    let minute = two(&w[2..4])?;
    let t = Time { hour, minute };
    good_time(t).then_some(t)
}
