//! Days, texts and the rows of the calendar.

pub const ALL: &str = r#"
scenario days
day 2024-02-29
= 20240229
day 2023-02-29
= none
day 2024-2-01
= none
day 1899-12-31
= none
day 9999-12-31
= 99991231
day last
= 99991231
compare 9999-12-31 last
= same

before 20240301
= 20240229
day 20240229
= 20240229
before first
= none
day -1
= none

written first
= from 1900-01-01

compare 2024-03-01 2024-02-29
= later
compare 2024-02-29 2024-03-01
= earlier
latest 2024-02-29 2024-03-01 2024-02-29
= 20240301

scenario texts
value Cola 1l
= Cola 1l
value
= (none) for none
value (x
= no value

special
= (none)|(unknown)|(no card)||
slots Acme Drinks
= Acme|Drinks|

# 32 bytes are the most.
key 99 P1234567890123456789012345678901
= P1234567890123456789012345678901, copied
key 99 P12345678901234567890123456789012
= no key
key 31 P1234567890123456789012345678901
= no key
key 32
= no key
key 32 S 1
= no key
debug 4 P.-_
= Some("P.-_")

scenario calendar
holiday 20241225
= Christmas Day
holiday first
= none

row 20240229
= iso|weekday_name|holiday| date_key year quarter month day day_of_year weekday
= 2024-02-29|Thursday|(none)| 20240229 2024 1 2 29 60 4
row 20241225
= iso|weekday_name|holiday| date_key year quarter month day day_of_year weekday
= 2024-12-25|Wednesday|Christmas Day| 20241225 2024 4 12 25 360 3
"#;
