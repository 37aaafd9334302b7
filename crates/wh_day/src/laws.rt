//! What holds of every calendar.

ghost use Rattle.wh_day.specs.Laws.{WeekdaysFollow, FirstDayIsMonday, YearsBeginWithOne, DaysCountUp};

/// The weekdays follow one another without a gap, from Monday 1900-01-01 on.
pub fn weekdays_follow()
    ensures first { FirstDayIsMonday }
    ensures next { WeekdaysFollow }
{}

/// The days of a year are counted from 1, without a gap.
pub fn days_count_up()
    ensures first { YearsBeginWithOne }
    ensures next { DaysCountUp }
{}
