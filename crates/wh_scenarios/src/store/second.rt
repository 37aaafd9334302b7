//! The second format: made of the first, and its facts; and the facts of the first taken out.

pub const ALL: &str = "
scenario facts of the second format
# All facts go into the second format, and all else stays.
warehouse
write
> row store 1 Bern
> put fact 'T1', 1, 20240610, 1, 1, 0, 1, 1, 0, 0, 2, 300, 200
> put fact 'T1', 2, 20240611, 1, 1, 0, 1, 1, 0, 0, -1, -150, -100
> commit
= 3 written
format
= first, free
facts 1 count
= 2
facts 1 line T1 2
= fact ticket, line, day, store_key, product_key, customer_key, store_durable, product_durable, customer_durable, profile, quantity, amount, cost
= fact 'T1', 2, 20240611, 1, 1, 0, 1, 1, 0, 0, -1, -150, -100
facts 1 line T1 3
facts 1 of product 1 20240611 20240612
= fact ticket, line, day, store_key, product_key, customer_key, store_durable, product_durable, customer_durable, profile, quantity, amount, cost
= fact 'T1', 2, 20240611, 1, 1, 0, 1, 1, 0, 0, -1, -150, -100
upgrade
format
= second, taken
show
= limits 10, 200, 3000
= meta name, value
= meta 'changes_max', 200
= meta 'commands_max', 10
= meta 'facts_max', 3000
= meta 'format', 2
= store surrogate, durable, natural, from_day, to_day, is_current, a1, a2, a3, a4, a5, a6, b1, b2, b3, b4, b5, b6, profile_now
= store 1, 1, 'M1', 19000101, 99991231, 1, 'Bern', '', '', '', '', '', '', '', '', '', '', '', 0
= fact2 ticket, line, day, store_key, product_key, customer_key, store_durable, product_durable, customer_durable, profile, quantity, amount, cost, discount
= fact2 'T1', 1, 20240610, 1, 1, 0, 1, 1, 0, 0, 2, 300, 200, 0
= fact2 'T1', 2, 20240611, 1, 1, 0, 1, 1, 0, 0, -1, -150, -100, 0

# Sixteen facts at once; one gets other keys, and a line is withdrawn.
write
> insert2 16 T2 20240612, 1, 1, 0, 1, 1, 0, 0, 1, 150, 100, 25
> rekey2 T2 16 2 3 4 5
> put void 'T1', 2, 3
> remove fact2 T1 2
> commit
= inserted
= 19 written
get fact2 T2 16
= fact2 ticket, line, day, store_key, product_key, customer_key, store_durable, product_durable, customer_durable, profile, quantity, amount, cost, discount
= fact2 'T2', 16, 20240612, 2, 3, 4, 1, 1, 0, 5, 1, 150, 100, 25
get fact2 T2 15
= fact2 ticket, line, day, store_key, product_key, customer_key, store_durable, product_durable, customer_durable, profile, quantity, amount, cost, discount
= fact2 'T2', 15, 20240612, 1, 1, 0, 1, 1, 0, 0, 1, 150, 100, 25
get fact2 T1 2
get void T1 2
= void ticket, line, command
= void 'T1', 2, 3
get void T1 1

# Not sixteen, and lines that are taken.
write
> insert2 15 T3 20240612, 1, 1, 0, 1, 1, 0, 0, 1, 150, 100, 25
> insert2 17 T3 20240612, 1, 1, 0, 1, 1, 0, 0, 1, 150, 100, 25
> insert2 16 T1 20240612, 1, 1, 0, 1, 1, 0, 0, 1, 150, 100, 25
> commit
= as before
= as before
= as before
= 0 written
count fact2
= 17

# Sales, the sums of their keys, quantities, amounts and costs: T1 is of 2 pieces, each line of T2 of one.
tally2 surrogate store
= sales, keys, quantity, amount, cost
= 17, 18, 18, 2700, 1800
tally2 surrogate customer
= sales, keys, quantity, amount, cost
= 17, 4, 18, 2700, 1800
tally2 durable product
= sales, keys, quantity, amount, cost
= 17, 17, 18, 2700, 1800
tally2 profile
= sales, keys, quantity, amount, cost
= 17, 5, 18, 2700, 1800
tally2 day
= sales, keys, quantity, amount, cost
= 17, 344090402, 18, 2700, 1800
sales2 store 1 20240610 20240611
= fact2 ticket, line, day, store_key, product_key, customer_key, store_durable, product_durable, customer_durable, profile, quantity, amount, cost, discount
= fact2 'T1', 1, 20240610, 1, 1, 0, 1, 1, 0, 0, 2, 300, 200, 0
sales store 1 20240610 20240612

# The same by the calls that are told the format, and edits by them.
facts 2 count
= 17
facts 1 count
= 0
facts 2 line T2 16
= fact2 ticket, line, day, store_key, product_key, customer_key, store_durable, product_durable, customer_durable, profile, quantity, amount, cost, discount
= fact2 'T2', 16, 20240612, 2, 3, 4, 1, 1, 0, 5, 1, 150, 100, 25
facts 1 line T2 16
facts 2 of store 1 20240610 20240611
= fact2 ticket, line, day, store_key, product_key, customer_key, store_durable, product_durable, customer_durable, profile, quantity, amount, cost, discount
= fact2 'T1', 1, 20240610, 1, 1, 0, 1, 1, 0, 0, 2, 300, 200, 0
facts 1 of store 1 20240610 20240611
write
> fact 2 put 'T9', 1, 20240613, 1, 1, 0, 1, 1, 0, 0, 1, 150, 100, 7
> commit
= 1 written
facts 2 line T9 1
= fact2 ticket, line, day, store_key, product_key, customer_key, store_durable, product_durable, customer_durable, profile, quantity, amount, cost, discount
= fact2 'T9', 1, 20240613, 1, 1, 0, 1, 1, 0, 0, 1, 150, 100, 7
write
> fact 2 remove T9 1
> commit
= 1 written
facts 2 count
= 17

# No second upgrade. The next run opens the second format.
upgrade
= refused disk
close
open
= opened
format
= second, taken
count fact
= 0
count fact2
= 17

# Damage is told of the table that it is in. A tally doesn't read a discount.
close
sql UPDATE fact2 SET discount = 1000000000 WHERE ticket = 'T2' AND line = 16; UPDATE void SET command = -1
open
= opened
all fact2
= damaged fact2
get fact2 T1 1
= fact2 ticket, line, day, store_key, product_key, customer_key, store_durable, product_durable, customer_durable, profile, quantity, amount, cost, discount
= fact2 'T1', 1, 20240610, 1, 1, 0, 1, 1, 0, 0, 2, 300, 200, 0
all void
= damaged void
tally2 profile
= sales, keys, quantity, amount, cost
= 17, 5, 18, 2700, 1800
close
sql UPDATE fact2 SET amount = 1000000000 WHERE ticket = 'T1'
open
= opened
tally2 profile
= damaged fact2

scenario what the first format refuses
# The first format has no such facts, and takes none. A scan asks for none.
warehouse
all fact2
= refused disk
get void T1 1
= refused disk
count fact2
= refused disk
scan void 1
= 0
tally2 day
= refused disk
write
> tries rekey2 T1 1 1 1 1 1
> tries insert2 16 T1 20240612, 1, 1, 0, 1, 1, 0, 0, 1, 150, 100, 25
> commit
= refused disk
= refused disk
= 0 written
= refused disk
facts 2 count
= refused disk
write
> fact 1 put 'T1', 1, 20240610, 1, 1, 0, 1, 1, 0, 0, 2, 300, 200
> commit
= 1 written
facts 1 line T1 1
= fact ticket, line, day, store_key, product_key, customer_key, store_durable, product_durable, customer_durable, profile, quantity, amount, cost
= fact 'T1', 1, 20240610, 1, 1, 0, 1, 1, 0, 0, 2, 300, 200
write
> tries fact 2 remove T1 1
> commit
= refused disk
= 0 written
= refused disk
write
> fact 1 remove T1 1
> commit
= 1 written
facts 1 count
= 0

# Where one of its names is taken there is no upgrade, and all stays.
opens CREATE TABLE void (x)
= opened
write
> put fact 'T1', 1, 20240610, 1, 1, 0, 1, 1, 0, 0, 2, 300, 200
> commit
= 1 written
upgrade
= refused disk
format
= first, taken
count fact
= 1
get meta format
= meta name, value
= meta 'format', 1

scenario all facts of the first format taken out
# All facts of the first format go at once, and are so many keys written; rows of other tables stay, and a fact can be put again.
warehouse
write
> row store 1 Bern
> put fact 'T1', 1, 20240610, 1, 1, 0, 1, 1, 0, 0, 2, 300, 200
> put fact 'T1', 2, 20240611, 1, 1, 0, 1, 1, 0, 0, -1, -150, -100
> put fact 'T2', 1, 20240611, 1, 1, 0, 1, 1, 0, 0, 1, 150, 100
> commit
= 4 written
write
> clear
> drop
= 3
= 3 written
count fact
= 3
write
> clear
> put fact 'T1', 2, 20240612, 1, 1, 0, 1, 1, 0, 0, 1, 150, 100
> clear
> clear
> put fact 'T2', 1, 20240612, 1, 1, 0, 1, 1, 0, 0, 1, 150, 100
> commit
= 3
= 1
= 0
= 6 written
all fact
= fact ticket, line, day, store_key, product_key, customer_key, store_durable, product_durable, customer_durable, profile, quantity, amount, cost
= fact 'T2', 1, 20240612, 1, 1, 0, 1, 1, 0, 0, 1, 150, 100
sales store 1 20240610 20240611
get store 1
= store surrogate, durable, natural, from_day, to_day, is_current, a1, a2, a3, a4, a5, a6, b1, b2, b3, b4, b5, b6, profile_now
= store 1, 1, 'M1', 19000101, 99991231, 1, 'Bern', '', '', '', '', '', '', '', '', '', '', '', 0
";

pub const STOPS: &str = "
# An upgrade over files that stop at each call: the first format is found, or the second.
files
make
write
> row store 1 Bern
> put fact 'T1', 1, 20240610, 1, 1, 0, 1, 1, 0, 0, 2, 300, 200
> put fact 'T1', 2, 20240611, 1, 1, 0, 1, 1, 0, 0, -1, -150, -100
> commit
= 3 written
stops log
> upgrade
= at each call what was there, or all
= limits 10, 200, 3000
= meta name, value
= meta 'changes_max', 200
= meta 'commands_max', 10
= meta 'facts_max', 3000
= meta 'format', 2
= store surrogate, durable, natural, from_day, to_day, is_current, a1, a2, a3, a4, a5, a6, b1, b2, b3, b4, b5, b6, profile_now
= store 1, 1, 'M1', 19000101, 99991231, 1, 'Bern', '', '', '', '', '', '', '', '', '', '', '', 0
= fact2 ticket, line, day, store_key, product_key, customer_key, store_durable, product_durable, customer_durable, profile, quantity, amount, cost, discount
= fact2 'T1', 1, 20240610, 1, 1, 0, 1, 1, 0, 0, 2, 300, 200, 0
= fact2 'T1', 2, 20240611, 1, 1, 0, 1, 1, 0, 0, -1, -150, -100, 0
stops database
> upgrade
= at each call what was there, or all
= limits 10, 200, 3000
= meta name, value
= meta 'changes_max', 200
= meta 'commands_max', 10
= meta 'facts_max', 3000
= meta 'format', 2
= store surrogate, durable, natural, from_day, to_day, is_current, a1, a2, a3, a4, a5, a6, b1, b2, b3, b4, b5, b6, profile_now
= store 1, 1, 'M1', 19000101, 99991231, 1, 'Bern', '', '', '', '', '', '', '', '', '', '', '', 0
= fact2 ticket, line, day, store_key, product_key, customer_key, store_durable, product_durable, customer_durable, profile, quantity, amount, cost, discount
= fact2 'T1', 1, 20240610, 1, 1, 0, 1, 1, 0, 0, 2, 300, 200, 0
= fact2 'T1', 2, 20240611, 1, 1, 0, 1, 1, 0, 0, -1, -150, -100, 0

# The next runs find the second.
upgrade left
write
> rekey2 T1 1 2 3 4 5
> put void 'T9', 1, 2
> commit
= 2 written
ask
> format
> count fact
> all fact2
> all void
= second, taken
= 0
= fact2 ticket, line, day, store_key, product_key, customer_key, store_durable, product_durable, customer_durable, profile, quantity, amount, cost, discount
= fact2 'T1', 1, 20240610, 2, 3, 4, 1, 1, 0, 5, 2, 300, 200, 0
= fact2 'T1', 2, 20240611, 1, 1, 0, 1, 1, 0, 0, -1, -150, -100, 0
= void ticket, line, command
= void 'T9', 1, 2
";
