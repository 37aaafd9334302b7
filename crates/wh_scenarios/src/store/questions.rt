//! Questions about rows, each of which was put in a transaction of its own.

pub const ALL: &str = "
scenario records of members and days
empty
create
anchor store
= 0
# Records of the stores, not in order of acceptance: two of the member 5 at the key 8, one at 9, and one of the member 6.
put change 7, 3, 2, 5, 20240229, 8, 'Bern', '(none)', '', '', '', '(unknown)'
put change 6, 4, 2, 5, 20240229, 8, 'Bern', '(none)', '', '', '', '(unknown)'
put change 6, 5, 2, 5, 20240229, 9, 'Bern', '(none)', '', '', '', '(unknown)'
put change 8, 1, 2, 6, 20240229, 10, 'Bern', '(none)', '', '', '', '(unknown)'

# Those of one member.
records store 5
= change command, record, dim, durable, day, anchor, v1, v2, v3, v4, v5, v6
= change 6, 4, 2, 5, 20240229, 8, 'Bern', '(none)', '', '', '', '(unknown)'
= change 6, 5, 2, 5, 20240229, 9, 'Bern', '(none)', '', '', '', '(unknown)'
= change 7, 3, 2, 5, 20240229, 8, 'Bern', '(none)', '', '', '', '(unknown)'
records store 6
= change command, record, dim, durable, day, anchor, v1, v2, v3, v4, v5, v6
= change 8, 1, 2, 6, 20240229, 10, 'Bern', '(none)', '', '', '', '(unknown)'
records product 5
records store 7

# The greatest keys that records stand at.
anchor store
= 10
anchor product
= 0

scenario commands
empty
create
put command 1, 'first', 'sales', x'00ff2c0a', 0, 2
put command 3, 'third', 'sales', x'00ff2c0a', 0, 2
put command 2, 'second', 'sales', x'00ff2c0a', 0, 2
command third
= command number, id, kind, bytes, records, placeholders
= command 3, 'third', 'sales', x'00ff2c0a', 0, 2
command Third

scenario members
empty
create
put member 2, 2, 'S2', 1
put member 2, 1, 'M1', 1
put member 1, 7, 'M1', 1
member store M1
= member dim, durable, natural, opening
= member 2, 1, 'M1', 1
member product M1
= member dim, durable, natural, opening
= member 1, 7, 'M1', 1
member product S2
member customer M1
greatest member store
= member dim, durable, natural, opening
= member 2, 2, 'S2', 1
greatest member product
= member dim, durable, natural, opening
= member 1, 7, 'M1', 1
greatest member customer

scenario sales of members
empty
create
put fact 'T-1', 30, 20240610, 1, 9, 0, 2, 1, 3, 3, -9999, -999999999, 999999999
put fact 'T-1', 2, 20240610, 1, 9, 0, 3, 1, 2, 3, -9999, -999999999, 999999999
put fact 'T-1', 10, 20240610, 1, 9, 0, 1, 2, 3, 3, -9999, -999999999, 999999999
sales product 1 20240610 20240610
= fact ticket, line, day, store_key, product_key, customer_key, store_durable, product_durable, customer_durable, profile, quantity, amount, cost
= fact 'T-1', 30, 20240610, 1, 9, 0, 2, 1, 3, 3, -9999, -999999999, 999999999
= fact 'T-1', 2, 20240610, 1, 9, 0, 3, 1, 2, 3, -9999, -999999999, 999999999
sales store 1 20240610 20240610
= fact ticket, line, day, store_key, product_key, customer_key, store_durable, product_durable, customer_durable, profile, quantity, amount, cost
= fact 'T-1', 10, 20240610, 1, 9, 0, 1, 2, 3, 3, -9999, -999999999, 999999999
sales customer 3 20240610 20240610
= fact ticket, line, day, store_key, product_key, customer_key, store_durable, product_durable, customer_durable, profile, quantity, amount, cost
= fact 'T-1', 30, 20240610, 1, 9, 0, 2, 1, 3, 3, -9999, -999999999, 999999999
= fact 'T-1', 10, 20240610, 1, 9, 0, 1, 2, 3, 3, -9999, -999999999, 999999999
sales customer 1 20240610 20240610

# Facts of one product, store and customer on the day before, on the day and on the day after.
empty
create
put fact 'T-1', 3, 20240611, 1, 9, 0, 1, 1, 1, 3, -9999, -999999999, 999999999
put fact 'T-1', 2, 20240610, 1, 9, 0, 1, 1, 1, 3, -9999, -999999999, 999999999
put fact 'T-1', 1, 20240609, 1, 9, 0, 1, 1, 1, 3, -9999, -999999999, 999999999
sales product 1 20240609 20240611
= fact ticket, line, day, store_key, product_key, customer_key, store_durable, product_durable, customer_durable, profile, quantity, amount, cost
= fact 'T-1', 3, 20240611, 1, 9, 0, 1, 1, 1, 3, -9999, -999999999, 999999999
= fact 'T-1', 2, 20240610, 1, 9, 0, 1, 1, 1, 3, -9999, -999999999, 999999999
= fact 'T-1', 1, 20240609, 1, 9, 0, 1, 1, 1, 3, -9999, -999999999, 999999999
sales product 1 20240609 20240610
= fact ticket, line, day, store_key, product_key, customer_key, store_durable, product_durable, customer_durable, profile, quantity, amount, cost
= fact 'T-1', 2, 20240610, 1, 9, 0, 1, 1, 1, 3, -9999, -999999999, 999999999
= fact 'T-1', 1, 20240609, 1, 9, 0, 1, 1, 1, 3, -9999, -999999999, 999999999
sales product 1 20240610 20240610
= fact ticket, line, day, store_key, product_key, customer_key, store_durable, product_durable, customer_durable, profile, quantity, amount, cost
= fact 'T-1', 2, 20240610, 1, 9, 0, 1, 1, 1, 3, -9999, -999999999, 999999999
sales product 1 20240611 99991231
= fact ticket, line, day, store_key, product_key, customer_key, store_durable, product_durable, customer_durable, profile, quantity, amount, cost
= fact 'T-1', 3, 20240611, 1, 9, 0, 1, 1, 1, 3, -9999, -999999999, 999999999
sales product 1 20240612 99991231
sales product 1 19000101 20240608
sales product 1 20240611 20240610
sales store 1 20240609 20240611
= fact ticket, line, day, store_key, product_key, customer_key, store_durable, product_durable, customer_durable, profile, quantity, amount, cost
= fact 'T-1', 3, 20240611, 1, 9, 0, 1, 1, 1, 3, -9999, -999999999, 999999999
= fact 'T-1', 2, 20240610, 1, 9, 0, 1, 1, 1, 3, -9999, -999999999, 999999999
= fact 'T-1', 1, 20240609, 1, 9, 0, 1, 1, 1, 3, -9999, -999999999, 999999999
sales store 1 20240609 20240610
= fact ticket, line, day, store_key, product_key, customer_key, store_durable, product_durable, customer_durable, profile, quantity, amount, cost
= fact 'T-1', 2, 20240610, 1, 9, 0, 1, 1, 1, 3, -9999, -999999999, 999999999
= fact 'T-1', 1, 20240609, 1, 9, 0, 1, 1, 1, 3, -9999, -999999999, 999999999
sales store 1 20240610 20240610
= fact ticket, line, day, store_key, product_key, customer_key, store_durable, product_durable, customer_durable, profile, quantity, amount, cost
= fact 'T-1', 2, 20240610, 1, 9, 0, 1, 1, 1, 3, -9999, -999999999, 999999999
sales store 1 20240611 99991231
= fact ticket, line, day, store_key, product_key, customer_key, store_durable, product_durable, customer_durable, profile, quantity, amount, cost
= fact 'T-1', 3, 20240611, 1, 9, 0, 1, 1, 1, 3, -9999, -999999999, 999999999
sales store 1 20240612 99991231
sales store 1 19000101 20240608
sales store 1 20240611 20240610
sales customer 1 20240609 20240611
= fact ticket, line, day, store_key, product_key, customer_key, store_durable, product_durable, customer_durable, profile, quantity, amount, cost
= fact 'T-1', 3, 20240611, 1, 9, 0, 1, 1, 1, 3, -9999, -999999999, 999999999
= fact 'T-1', 2, 20240610, 1, 9, 0, 1, 1, 1, 3, -9999, -999999999, 999999999
= fact 'T-1', 1, 20240609, 1, 9, 0, 1, 1, 1, 3, -9999, -999999999, 999999999
sales customer 1 20240609 20240610
= fact ticket, line, day, store_key, product_key, customer_key, store_durable, product_durable, customer_durable, profile, quantity, amount, cost
= fact 'T-1', 2, 20240610, 1, 9, 0, 1, 1, 1, 3, -9999, -999999999, 999999999
= fact 'T-1', 1, 20240609, 1, 9, 0, 1, 1, 1, 3, -9999, -999999999, 999999999
sales customer 1 20240610 20240610
= fact ticket, line, day, store_key, product_key, customer_key, store_durable, product_durable, customer_durable, profile, quantity, amount, cost
= fact 'T-1', 2, 20240610, 1, 9, 0, 1, 1, 1, 3, -9999, -999999999, 999999999
sales customer 1 20240611 99991231
= fact ticket, line, day, store_key, product_key, customer_key, store_durable, product_durable, customer_durable, profile, quantity, amount, cost
= fact 'T-1', 3, 20240611, 1, 9, 0, 1, 1, 1, 3, -9999, -999999999, 999999999
sales customer 1 20240612 99991231
sales customer 1 19000101 20240608
sales customer 1 20240611 20240610

# Each member has its own days, and none before the pass begins.
empty
create
put fact 'T-1', 1, 20240609, 1, 9, 0, 1, 1, 1, 3, 1, 200, 300
put fact 'T-1', 2, 20240610, 1, 9, 0, 1, 2, 1, 3, 1, 200, 300
put fact 'T-1', 3, 20240611, 1, 9, 0, 1, 2, 1, 3, 1, 200, 300
put fact 'T-1', 4, 20240611, 1, 9, 0, 1, 1, 1, 3, 1, 200, 300
sales product 1 20240609 20240610, 2 20240611 20240612
= fact ticket, line, day, store_key, product_key, customer_key, store_durable, product_durable, customer_durable, profile, quantity, amount, cost
= fact 'T-1', 1, 20240609, 1, 9, 0, 1, 1, 1, 3, 1, 200, 300
= fact 'T-1', 3, 20240611, 1, 9, 0, 1, 2, 1, 3, 1, 200, 300
sales product 2 20240610 20240612, 1 20240609 20240611
= fact ticket, line, day, store_key, product_key, customer_key, store_durable, product_durable, customer_durable, profile, quantity, amount, cost
= fact 'T-1', 2, 20240610, 1, 9, 0, 1, 2, 1, 3, 1, 200, 300
= fact 'T-1', 3, 20240611, 1, 9, 0, 1, 2, 1, 3, 1, 200, 300
= fact 'T-1', 4, 20240611, 1, 9, 0, 1, 1, 1, 3, 1, 200, 300

# A damaged fact is told where its member has its day, and is passed over where it is of another member or another day.
sql UPDATE fact SET amount = 1000000000 WHERE line = 3
all fact
= damaged fact
sales product 1 20240609 20240611
= fact ticket, line, day, store_key, product_key, customer_key, store_durable, product_durable, customer_durable, profile, quantity, amount, cost
= fact 'T-1', 1, 20240609, 1, 9, 0, 1, 1, 1, 3, 1, 200, 300
= fact 'T-1', 4, 20240611, 1, 9, 0, 1, 1, 1, 3, 1, 200, 300
sales product 2 20240609 20240610, 1 20240611 20240611
= fact ticket, line, day, store_key, product_key, customer_key, store_durable, product_durable, customer_durable, profile, quantity, amount, cost
= fact 'T-1', 2, 20240610, 1, 9, 0, 1, 2, 1, 3, 1, 200, 300
= fact 'T-1', 4, 20240611, 1, 9, 0, 1, 1, 1, 3, 1, 200, 300
sales product 2 20240611 20240611
= damaged fact
sales product 1 20240609 20240611, 2 20240609 20240611
= damaged fact

# What is no number is nobody's durable key, and no day.
sql UPDATE fact SET product_durable = 'x' WHERE line = 3; UPDATE fact SET day = 'x' WHERE line = 4
sales product 2 20240609 20240611, 1 20240609 20240611
= fact ticket, line, day, store_key, product_key, customer_key, store_durable, product_durable, customer_durable, profile, quantity, amount, cost
= fact 'T-1', 1, 20240609, 1, 9, 0, 1, 1, 1, 3, 1, 200, 300
= fact 'T-1', 2, 20240610, 1, 9, 0, 1, 2, 1, 3, 1, 200, 300

scenario profiles
empty
create
greatest profile
put profile 2, '', '30-39', 'high', '', '', ''
put profile 1, '', '30-39', 'low', '', '', ''
profile ,30-39,low,,,
= profile number, v1, v2, v3, v4, v5, v6
= profile 1, '', '30-39', 'low', '', '', ''
profile ,30-39,high,,,x
greatest profile
= profile number, v1, v2, v3, v4, v5, v6
= profile 2, '', '30-39', 'high', '', '', ''
";
