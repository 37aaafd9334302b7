//! Rows that are handed out one at a time. A part has 256 of them.

pub const ALL: &str = "
scenario parts of a calendar
warehouse
# No row.
scan calendar 9999
= 0

# One row, a part but one, a part, a part and one.
write
> days 20230101 20230102
> commit
= 1 written
scan calendar 9999
= 1
= calendar date_key, iso, year, quarter, month, day, day_of_year, weekday, weekday_name, weekend, holiday
= calendar 20230101, '2023-01-01', 2023, 1, 1, 1, 1, 7, 'Sunday', 1, '(none)'
write
> days 20230102 20230913
> commit
= 254 written
scan calendar 9999
= 255
= calendar date_key, iso, year, quarter, month, day, day_of_year, weekday, weekday_name, weekend, holiday
= calendar 20230912, '2023-09-12', 2023, 3, 9, 12, 255, 2, 'Tuesday', 0, '(none)'
write
> days 20230913 20230914
> commit
= 1 written
scan calendar 9999
= 256
= calendar date_key, iso, year, quarter, month, day, day_of_year, weekday, weekday_name, weekend, holiday
= calendar 20230913, '2023-09-13', 2023, 3, 9, 13, 256, 3, 'Wednesday', 0, '(none)'
write
> days 20230914 20230915
> commit
= 1 written
scan calendar 9999
= 257
= calendar date_key, iso, year, quarter, month, day, day_of_year, weekday, weekday_name, weekend, holiday
= calendar 20230914, '2023-09-14', 2023, 3, 9, 14, 257, 4, 'Thursday', 0, '(none)'

# Two parts and more.
write
> days 20230915 20240823
> commit
= 343 written
scan calendar 9999
= 600
= calendar date_key, iso, year, quarter, month, day, day_of_year, weekday, weekday_name, weekend, holiday
= calendar 20240822, '2024-08-22', 2024, 3, 8, 22, 235, 4, 'Thursday', 0, '(none)'

# A scan that is let go early.
scan calendar 0
= 0
scan calendar 1
= 1
= calendar date_key, iso, year, quarter, month, day, day_of_year, weekday, weekday_name, weekend, holiday
= calendar 20230101, '2023-01-01', 2023, 1, 1, 1, 1, 7, 'Sunday', 1, '(none)'
scan calendar 256
= 256
= calendar date_key, iso, year, quarter, month, day, day_of_year, weekday, weekday_name, weekend, holiday
= calendar 20230913, '2023-09-13', 2023, 3, 9, 13, 256, 3, 'Wednesday', 0, '(none)'
scan calendar 257
= 257
= calendar date_key, iso, year, quarter, month, day, day_of_year, weekday, weekday_name, weekend, holiday
= calendar 20230914, '2023-09-14', 2023, 3, 9, 14, 257, 4, 'Thursday', 0, '(none)'
count calendar
= 600
scan meta 9999
= 4
= meta name, value
= meta 'format', 1

scenario parts of every table
warehouse
write
> days 20230101 20240701
> commit
= 547 written
close
# 365 rows and 182 more in every table, by the days of two years; meta has four beside them, and command those of one year.
sql INSERT INTO meta SELECT iso, year FROM calendar
sql INSERT INTO command SELECT date_key - 20230000, iso, 'sales', x'00', 0, 0 FROM calendar WHERE year = 2023
sql INSERT INTO member SELECT year - 2022, day_of_year, iso, 1 FROM calendar
sql INSERT INTO change SELECT year - 2022, day_of_year, 1, 1, date_key, 1, '', '', '', '', '', '' FROM calendar
sql INSERT INTO product SELECT date_key - 20230000, 1, iso, 19000101, 99991231, 1, '', '', '', '', '', '', '', '', '', '', '', '', 0 FROM calendar
sql INSERT INTO store SELECT date_key - 20230000, 1, iso, 19000101, 99991231, 1, '', '', '', '', '', '', '', '', '', '', '', '', 0 FROM calendar
sql INSERT INTO customer SELECT date_key - 20230000, 1, iso, 19000101, 99991231, 1, '', '', '', '', '', '', '', '', '', '', '', '', 0 FROM calendar
sql INSERT INTO profile SELECT date_key - 20230000, '', '', '', '', '', '' FROM calendar
sql INSERT INTO fact SELECT 'T2', day_of_year, date_key, 1, 1, 0, 1, 1, 0, 0, 1, 100, 50 FROM calendar WHERE year = 2023
sql INSERT INTO fact SELECT 'T10', day_of_year, date_key, 1, 1, 0, 1, 1, 0, 0, 1, 100, 50 FROM calendar WHERE year = 2024
open
= opened

scan meta 9999
= 551
= meta name, value
= meta 'format', 1
scan command 9999
= 365
= command number, id, kind, bytes, records, placeholders
= command 1231, '2023-12-31', 'sales', x'00', 0, 0
scan member 9999
= 547
= member dim, durable, natural, opening
= member 2, 182, '2024-06-30', 1
scan change 9999
= 547
= change command, record, dim, durable, day, anchor, v1, v2, v3, v4, v5, v6
= change 2, 182, 1, 1, 20240630, 1, '', '', '', '', '', ''
scan product 9999
= 547
= product surrogate, durable, natural, from_day, to_day, is_current, a1, a2, a3, a4, a5, a6, b1, b2, b3, b4, b5, b6, profile_now
= product 10630, 1, '2024-06-30', 19000101, 99991231, 1, '', '', '', '', '', '', '', '', '', '', '', '', 0
scan store 9999
= 547
= store surrogate, durable, natural, from_day, to_day, is_current, a1, a2, a3, a4, a5, a6, b1, b2, b3, b4, b5, b6, profile_now
= store 10630, 1, '2024-06-30', 19000101, 99991231, 1, '', '', '', '', '', '', '', '', '', '', '', '', 0
scan customer 9999
= 547
= customer surrogate, durable, natural, from_day, to_day, is_current, a1, a2, a3, a4, a5, a6, b1, b2, b3, b4, b5, b6, profile_now
= customer 10630, 1, '2024-06-30', 19000101, 99991231, 1, '', '', '', '', '', '', '', '', '', '', '', '', 0
scan profile 9999
= 547
= profile number, v1, v2, v3, v4, v5, v6
= profile 10630, '', '', '', '', '', ''
scan calendar 9999
= 547
= calendar date_key, iso, year, quarter, month, day, day_of_year, weekday, weekday_name, weekend, holiday
= calendar 20240630, '2024-06-30', 2024, 2, 6, 30, 182, 7, 'Sunday', 1, '(none)'
# T10 is before T2, and both edges of the parts fall into T2.
scan fact 9999
= 547
= fact ticket, line, day, store_key, product_key, customer_key, store_durable, product_durable, customer_durable, profile, quantity, amount, cost
= fact 'T2', 365, 20231231, 1, 1, 0, 1, 1, 0, 0, 1, 100, 50
scan fact 257
= 257
= fact ticket, line, day, store_key, product_key, customer_key, store_durable, product_durable, customer_durable, profile, quantity, amount, cost
= fact 'T2', 75, 20230316, 1, 1, 0, 1, 1, 0, 0, 1, 100, 50

# In the second format.
upgrade
close
sql INSERT INTO void SELECT ticket, line, 1 FROM fact2
open
= opened
scan fact 9999
= 0
scan fact2 9999
= 547
= fact2 ticket, line, day, store_key, product_key, customer_key, store_durable, product_durable, customer_durable, profile, quantity, amount, cost, discount
= fact2 'T2', 365, 20231231, 1, 1, 0, 1, 1, 0, 0, 1, 100, 50, 0
scan fact2 257
= 257
= fact2 ticket, line, day, store_key, product_key, customer_key, store_durable, product_durable, customer_durable, profile, quantity, amount, cost, discount
= fact2 'T2', 75, 20230316, 1, 1, 0, 1, 1, 0, 0, 1, 100, 50, 0
scan void 257
= 257
= void ticket, line, command
= void 'T2', 75, 1

scenario damaged rows of a part
warehouse
write
> days 20230101 20240823
> commit
= 600 written
close
# A row of the second part, of the parts that are handed out before it nothing is kept back.
sql UPDATE calendar SET year = 'x' WHERE date_key = 20231027
open
= opened
scan calendar 9999
= 256
= calendar date_key, iso, year, quarter, month, day, day_of_year, weekday, weekday_name, weekend, holiday
= calendar 20230913, '2023-09-13', 2023, 3, 9, 13, 256, 3, 'Wednesday', 0, '(none)'
= damaged calendar
# No other part is read.
scan calendar 256
= 256
= calendar date_key, iso, year, quarter, month, day, day_of_year, weekday, weekday_name, weekend, holiday
= calendar 20230913, '2023-09-13', 2023, 3, 9, 13, 256, 3, 'Wednesday', 0, '(none)'
scan meta 9999
= 4
= meta name, value
= meta 'format', 1
close
# A key that is out of its type comes first.
sql UPDATE calendar SET year = 2023 WHERE date_key = 20231027
sql INSERT INTO calendar VALUES (-1, '', 0, 0, 0, 0, 0, 0, '', 0, '')
open
= opened
scan calendar 9999
= 0
= damaged calendar
close
# Or last.
sql DELETE FROM calendar WHERE date_key = -1
sql INSERT INTO calendar VALUES (99999999, '', 0, 0, 0, 0, 0, 0, '', 0, '')
open
= opened
scan calendar 9999
= 512
= calendar date_key, iso, year, quarter, month, day, day_of_year, weekday, weekday_name, weekend, holiday
= calendar 20240526, '2024-05-26', 2024, 2, 5, 26, 147, 7, 'Sunday', 1, '(none)'
= damaged calendar
";
