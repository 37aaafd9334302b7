//! The days of four years.

pub const ALL: &str = "
scenario days of four years
# Three years of 365 days and one of 366. The days are counted from 0.
warehouse
write
> days 20230101 20270101
> commit
= 1461 written
count calendar
= 1461
nth calendar 0
= calendar date_key, iso, year, quarter, month, day, day_of_year, weekday, weekday_name, weekend, holiday
= calendar 20230101, '2023-01-01', 2023, 1, 1, 1, 1, 7, 'Sunday', 1, '(none)'
nth calendar 424
= calendar date_key, iso, year, quarter, month, day, day_of_year, weekday, weekday_name, weekend, holiday
= calendar 20240229, '2024-02-29', 2024, 1, 2, 29, 60, 4, 'Thursday', 0, '(none)'
nth calendar 1460
= calendar date_key, iso, year, quarter, month, day, day_of_year, weekday, weekday_name, weekend, holiday
= calendar 20261231, '2026-12-31', 2026, 4, 12, 31, 365, 4, 'Thursday', 0, '(none)'
nth calendar 1461
length calendar
= 1461

get calendar 20240229
= calendar date_key, iso, year, quarter, month, day, day_of_year, weekday, weekday_name, weekend, holiday
= calendar 20240229, '2024-02-29', 2024, 1, 2, 29, 60, 4, 'Thursday', 0, '(none)'
get calendar 20241225
= calendar date_key, iso, year, quarter, month, day, day_of_year, weekday, weekday_name, weekend, holiday
= calendar 20241225, '2024-12-25', 2024, 4, 12, 25, 360, 3, 'Wednesday', 0, 'Christmas Day'
get calendar 20270101
";
