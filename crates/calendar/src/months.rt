// The month that a day falls in.
ghost use Rattle.std.specs.Prelude.{◌<◌};
ghost use Rattle.calendar.specs.Gregorian.{Falls};

use crate::table::FIRST_DAYS;

// The last month that has begun by the day.
pub(crate) fn month_of(day: u64) -> usize
    requires { day < 36525 }
    ensures { Falls day result }
{
    FIRST_DAYS.partition_point(|first| *first <= day) - 1
}
