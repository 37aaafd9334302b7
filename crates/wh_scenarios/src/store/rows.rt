//! A row of each table goes in, and out again: in transactions of their own, and in the one that made the tables.

pub const ALL: &str = "
scenario rows go in and out
empty
create

# In each table no row, one, and none again.
table meta
= meta
all meta
get meta Any name, (even this) é
count meta
= 0
put meta 'Any name, (even this) é', -9223372036854775807 - 1
all meta
= meta name, value
= meta 'Any name, (even this) é', -9223372036854775808
get meta Any name, (even this) é
= meta name, value
= meta 'Any name, (even this) é', -9223372036854775808
count meta
= 1
remove meta Any name, (even this) é
all meta
get meta Any name, (even this) é
count meta
= 0

table command
= command
all command
get command 9999999
count command
= 0
put command 9999999, '2024-06-10_1.sales', 'sales', x'00ff2c0a', 0, 2
all command
= command number, id, kind, bytes, records, placeholders
= command 9999999, '2024-06-10_1.sales', 'sales', x'00ff2c0a', 0, 2
get command 9999999
= command number, id, kind, bytes, records, placeholders
= command 9999999, '2024-06-10_1.sales', 'sales', x'00ff2c0a', 0, 2
count command
= 1
remove command 9999999
all command
get command 9999999
count command
= 0

table member
= member
all member
get member customer 12
count member
= 0
put member 3, 12, 'C-9', 34
all member
= member dim, durable, natural, opening
= member 3, 12, 'C-9', 34
get member customer 12
= member dim, durable, natural, opening
= member 3, 12, 'C-9', 34
count member
= 1
remove member customer 12
all member
get member customer 12
count member
= 0

table change
= change
all change
get change 7 3
count change
= 0
put change 7, 3, 2, 5, 20240229, 8, 'Bern', '(none)', '', '', '', '(unknown)'
all change
= change command, record, dim, durable, day, anchor, v1, v2, v3, v4, v5, v6
= change 7, 3, 2, 5, 20240229, 8, 'Bern', '(none)', '', '', '', '(unknown)'
get change 7 3
= change command, record, dim, durable, day, anchor, v1, v2, v3, v4, v5, v6
= change 7, 3, 2, 5, 20240229, 8, 'Bern', '(none)', '', '', '', '(unknown)'
count change
= 1
remove change 7 3
all change
get change 7 3
count change
= 0

table profile
= profile
all profile
get profile 2
count profile
= 0
put profile 2, '', '30-39', 'high', '', '', '(none)'
all profile
= profile number, v1, v2, v3, v4, v5, v6
= profile 2, '', '30-39', 'high', '', '', '(none)'
get profile 2
= profile number, v1, v2, v3, v4, v5, v6
= profile 2, '', '30-39', 'high', '', '', '(none)'
count profile
= 1
remove profile 2
all profile
get profile 2
count profile
= 0

table calendar
= calendar
all calendar
get calendar 20240229
count calendar
= 0
put calendar 20240229, '2024-02-29', 2024, 1, 2, 29, 60, 4, 'Thursday', 0, '(none)'
all calendar
= calendar date_key, iso, year, quarter, month, day, day_of_year, weekday, weekday_name, weekend, holiday
= calendar 20240229, '2024-02-29', 2024, 1, 2, 29, 60, 4, 'Thursday', 0, '(none)'
get calendar 20240229
= calendar date_key, iso, year, quarter, month, day, day_of_year, weekday, weekday_name, weekend, holiday
= calendar 20240229, '2024-02-29', 2024, 1, 2, 29, 60, 4, 'Thursday', 0, '(none)'
count calendar
= 1
remove calendar 20240229
all calendar
get calendar 20240229
count calendar
= 0

table fact
= fact
all fact
get fact T-1 9999
count fact
= 0
put fact 'T-1', 9999, 20240610, 1, 9, 0, 4, 5, 0, 3, -9999, -999999999, 999999999
all fact
= fact ticket, line, day, store_key, product_key, customer_key, store_durable, product_durable, customer_durable, profile, quantity, amount, cost
= fact 'T-1', 9999, 20240610, 1, 9, 0, 4, 5, 0, 3, -9999, -999999999, 999999999
get fact T-1 9999
= fact ticket, line, day, store_key, product_key, customer_key, store_durable, product_durable, customer_durable, profile, quantity, amount, cost
= fact 'T-1', 9999, 20240610, 1, 9, 0, 4, 5, 0, 3, -9999, -999999999, 999999999
count fact
= 1
remove fact T-1 9999
all fact
get fact T-1 9999
count fact
= 0

scenario rows go in and out of new tables
# In each table two rows, of which one goes again.
makes
= free
write
> make 10 200 3000
> put meta 'Any name, (even this) é', -9223372036854775807 - 1
> put meta 'other', 5
> remove meta other
> put command 9999999, '2024-06-10_1.sales', 'sales', x'00ff2c0a', 0, 2
> put command 1, 'other', 'sales', x'', 0, 0
> remove command 1
> put member 3, 12, 'C-9', 34
> put member 3, 1, 'other', 1
> remove member customer 1
> put change 7, 3, 2, 5, 20240229, 8, 'Bern', '(none)', '', '', '', '(unknown)'
> put change 7, 1, 2, 5, 20240229, 8, 'other', '', '', '', '', ''
> remove change 7 1
> put profile 2, '', '30-39', 'high', '', '', '(none)'
> put profile 1, 'other', '', '', '', '', ''
> remove profile 1
> put calendar 20240229, '2024-02-29', 2024, 1, 2, 29, 60, 4, 'Thursday', 0, '(none)'
> put calendar 20240301, '2024-03-01', 2024, 1, 3, 1, 61, 5, 'Friday', 0, ''
> remove calendar 20240301
> put fact 'T-1', 9999, 20240610, 1, 9, 0, 4, 5, 0, 3, -9999, -999999999, 999999999
> put fact 'T-1', 1, 20240610, 1, 9, 0, 4, 5, 0, 3, 1, 150, 100
> remove fact T-1 1
> commit
= 25 written
show
= limits 10, 200, 3000
= meta name, value
= meta 'Any name, (even this) é', -9223372036854775808
= meta 'changes_max', 200
= meta 'commands_max', 10
= meta 'facts_max', 3000
= meta 'format', 1
= command number, id, kind, bytes, records, placeholders
= command 9999999, '2024-06-10_1.sales', 'sales', x'00ff2c0a', 0, 2
= member dim, durable, natural, opening
= member 3, 12, 'C-9', 34
= change command, record, dim, durable, day, anchor, v1, v2, v3, v4, v5, v6
= change 7, 3, 2, 5, 20240229, 8, 'Bern', '(none)', '', '', '', '(unknown)'
= profile number, v1, v2, v3, v4, v5, v6
= profile 2, '', '30-39', 'high', '', '', '(none)'
= calendar date_key, iso, year, quarter, month, day, day_of_year, weekday, weekday_name, weekend, holiday
= calendar 20240229, '2024-02-29', 2024, 1, 2, 29, 60, 4, 'Thursday', 0, '(none)'
= fact ticket, line, day, store_key, product_key, customer_key, store_durable, product_durable, customer_durable, profile, quantity, amount, cost
= fact 'T-1', 9999, 20240610, 1, 9, 0, 4, 5, 0, 3, -9999, -999999999, 999999999
";
