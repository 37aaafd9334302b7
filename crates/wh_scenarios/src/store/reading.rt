//! Rows as they are read from columns, and the names and limits that rows speak of.

pub const ALL: &str = "
scenario rows are read
empty
read meta 'format', -1
= meta name, value
= meta 'format', -1
read meta 'format', '1'
= damaged meta
read command 5, 's1', 'sales', x'00ff', 2, 1
= command number, id, kind, bytes, records, placeholders
= command 5, 's1', 'sales', x'00ff', 2, 1
read command 5, 's 1', 'sales', x'00', 2, 1
= damaged command
read command 5, 's1', 'voids', x'00', 2, 1
= damaged command
read member 3, 1, 'C9', 1
= member dim, durable, natural, opening
= member 3, 1, 'C9', 1
read member 4, 1, 'C9', 1
= damaged member
read change 6, 1, 1, 1, 20240120, 4, 'Cola', 'Bolt', '', '', '', ''
= change command, record, dim, durable, day, anchor, v1, v2, v3, v4, v5, v6
= change 6, 1, 1, 1, 20240120, 4, 'Cola', 'Bolt', '', '', '', ''
read change 6, 1, 1, 1, 20240132, 4, 'Cola', 'Bolt', '', '', '', ''
= damaged change
read customer 0, 0, '(no card)', 19000101, 99991231, 1, '(no card)', '', '', '', '', '', '', '', '', '', '', '', 0
= customer surrogate, durable, natural, from_day, to_day, is_current, a1, a2, a3, a4, a5, a6, b1, b2, b3, b4, b5, b6, profile_now
= customer 0, 0, '(no card)', 19000101, 99991231, 1, '(no card)', '', '', '', '', '', '', '', '', '', '', '', 0
read store 0, 0, '(no card)', 19000101, 99991231, 1, '(no card)', '', '', '', '', '', '', '', '', '', '', '', 0
= damaged store
read product 3, 1, 'P1', 20240201, 99991231, 2, '', '', '', '', '', '', '', '', '', '', '', '', 0
= damaged product
read profile 2, '', '30-39', 'high', '', '', ''
= profile number, v1, v2, v3, v4, v5, v6
= profile 2, '', '30-39', 'high', '', '', ''
read profile 2, '', '(other)', 'high', '', '', ''
= damaged profile
read calendar 20241225, '2024-12-25', 2024, 4, 12, 25, 360, 3, 'Wednesday', 0, 'Christmas Day'
= calendar date_key, iso, year, quarter, month, day, day_of_year, weekday, weekday_name, weekend, holiday
= calendar 20241225, '2024-12-25', 2024, 4, 12, 25, 360, 3, 'Wednesday', 0, 'Christmas Day'
read calendar 20241225, '2024-12-25', 2024, 4, 12, 25, 360, 3, 'Wednesday', 3, ''
= damaged calendar
read fact 'T2', 1, 20240610, 1, 9, 1, 1, 2, 1, 1, -1, 1000, 700
= fact ticket, line, day, store_key, product_key, customer_key, store_durable, product_durable, customer_durable, profile, quantity, amount, cost
= fact 'T2', 1, 20240610, 1, 9, 1, 1, 2, 1, 1, -1, 1000, 700
read fact 'T2', 10000, 20240610, 1, 9, 1, 1, 2, 1, 1, -1, 1000, 700
= damaged fact

# A fact goes through its columns.
empty
create
put fact 'T2', 1, 20240610, 1, 9, 1, 1, 2, 1, 1, -1, 1000, 700
get fact T2 1
= fact ticket, line, day, store_key, product_key, customer_key, store_durable, product_durable, customer_durable, profile, quantity, amount, cost
= fact 'T2', 1, 20240610, 1, 9, 1, 1, 2, 1, 1, -1, 1000, 700

scenario names and limits
# Tables by name.
empty
table calendar
= calendar
table Calendar
= no such step
table change
= change

# Limits at their edges.
limits_of 100000 1000000 1000000
= limits 100000, 1000000, 1000000
limits_of greatest
= limits 100000, 1000000, 1000000
limits_of 1 1 1
= limits 1, 1, 1
limits_of 0 1 1
= no limits
limits_of 1 1 1000001
= no limits
";
