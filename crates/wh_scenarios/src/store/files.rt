//! From one run to the next: over files that may stop and crash, and at a path.

pub const MAKING_LOG: &str = "
files
show
= empty, and then
= limits 10, 200, 3000
= meta name, value
= meta 'changes_max', 200
= meta 'commands_max', 10
= meta 'facts_max', 3000
= meta 'format', 1
stops log
= at each call what was there, or all
= limits 10, 200, 3000
= meta name, value
= meta 'changes_max', 200
= meta 'commands_max', 10
= meta 'facts_max', 3000
= meta 'format', 1
";

pub const EDITS_LOG: &str = "
files
make
write
> row product 1 Cola 1l
> put fact 'T1', 1, 20240610, 1, 1, 0, 1, 1, 0, 0, 1, 150, 100
> commit
= 2 written
show
= limits 10, 200, 3000
= meta name, value
= meta 'changes_max', 200
= meta 'commands_max', 10
= meta 'facts_max', 3000
= meta 'format', 1
= product surrogate, durable, natural, from_day, to_day, is_current, a1, a2, a3, a4, a5, a6, b1, b2, b3, b4, b5, b6, profile_now
= product 1, 1, 'M1', 19000101, 99991231, 1, 'Cola 1l', '', '', '', '', '', '', '', '', '', '', '', 0
= fact ticket, line, day, store_key, product_key, customer_key, store_durable, product_durable, customer_durable, profile, quantity, amount, cost
= fact 'T1', 1, 20240610, 1, 1, 0, 1, 1, 0, 0, 1, 150, 100
stops log
> row product 1 Cola 1.0l
> row product 2 Tea
> row product 3 Milk
> row store 1 Bern
> put fact 'T2', 1, 20240610, 1, 1, 0, 1, 1, 0, 0, 1, 150, 100
> remove fact T1 1
> commit
= at each call what was there, or all
= limits 10, 200, 3000
= meta name, value
= meta 'changes_max', 200
= meta 'commands_max', 10
= meta 'facts_max', 3000
= meta 'format', 1
= product surrogate, durable, natural, from_day, to_day, is_current, a1, a2, a3, a4, a5, a6, b1, b2, b3, b4, b5, b6, profile_now
= product 1, 1, 'M1', 19000101, 99991231, 1, 'Cola 1.0l', '', '', '', '', '', '', '', '', '', '', '', 0
= product 2, 2, 'M2', 19000101, 99991231, 1, 'Tea', '', '', '', '', '', '', '', '', '', '', '', 0
= product 3, 3, 'M3', 19000101, 99991231, 1, 'Milk', '', '', '', '', '', '', '', '', '', '', '', 0
= store surrogate, durable, natural, from_day, to_day, is_current, a1, a2, a3, a4, a5, a6, b1, b2, b3, b4, b5, b6, profile_now
= store 1, 1, 'M1', 19000101, 99991231, 1, 'Bern', '', '', '', '', '', '', '', '', '', '', '', 0
= fact ticket, line, day, store_key, product_key, customer_key, store_durable, product_durable, customer_durable, profile, quantity, amount, cost
= fact 'T2', 1, 20240610, 1, 1, 0, 1, 1, 0, 0, 1, 150, 100
";

pub const MAKING_DATABASE: &str = "
files
show
= empty, and then
= limits 10, 200, 3000
= meta name, value
= meta 'changes_max', 200
= meta 'commands_max', 10
= meta 'facts_max', 3000
= meta 'format', 1
stops database
= at each call what was there, or all
= limits 10, 200, 3000
= meta name, value
= meta 'changes_max', 200
= meta 'commands_max', 10
= meta 'facts_max', 3000
= meta 'format', 1
";

pub const EDITS_DATABASE: &str = "
files
make
write
> row product 1 Cola 1l
> put fact 'T1', 1, 20240610, 1, 1, 0, 1, 1, 0, 0, 1, 150, 100
> commit
= 2 written
show
= limits 10, 200, 3000
= meta name, value
= meta 'changes_max', 200
= meta 'commands_max', 10
= meta 'facts_max', 3000
= meta 'format', 1
= product surrogate, durable, natural, from_day, to_day, is_current, a1, a2, a3, a4, a5, a6, b1, b2, b3, b4, b5, b6, profile_now
= product 1, 1, 'M1', 19000101, 99991231, 1, 'Cola 1l', '', '', '', '', '', '', '', '', '', '', '', 0
= fact ticket, line, day, store_key, product_key, customer_key, store_durable, product_durable, customer_durable, profile, quantity, amount, cost
= fact 'T1', 1, 20240610, 1, 1, 0, 1, 1, 0, 0, 1, 150, 100
stops database
> row product 1 Cola 1.0l
> row product 2 Tea
> row product 3 Milk
> row store 1 Bern
> put fact 'T2', 1, 20240610, 1, 1, 0, 1, 1, 0, 0, 1, 150, 100
> remove fact T1 1
> commit
= at each call what was there, or all
= limits 10, 200, 3000
= meta name, value
= meta 'changes_max', 200
= meta 'commands_max', 10
= meta 'facts_max', 3000
= meta 'format', 1
= product surrogate, durable, natural, from_day, to_day, is_current, a1, a2, a3, a4, a5, a6, b1, b2, b3, b4, b5, b6, profile_now
= product 1, 1, 'M1', 19000101, 99991231, 1, 'Cola 1.0l', '', '', '', '', '', '', '', '', '', '', '', 0
= product 2, 2, 'M2', 19000101, 99991231, 1, 'Tea', '', '', '', '', '', '', '', '', '', '', '', 0
= product 3, 3, 'M3', 19000101, 99991231, 1, 'Milk', '', '', '', '', '', '', '', '', '', '', '', 0
= store surrogate, durable, natural, from_day, to_day, is_current, a1, a2, a3, a4, a5, a6, b1, b2, b3, b4, b5, b6, profile_now
= store 1, 1, 'M1', 19000101, 99991231, 1, 'Bern', '', '', '', '', '', '', '', '', '', '', '', 0
= fact ticket, line, day, store_key, product_key, customer_key, store_durable, product_durable, customer_durable, profile, quantity, amount, cost
= fact 'T2', 1, 20240610, 1, 1, 0, 1, 1, 0, 0, 1, 150, 100
";

pub const RUNS: &str = "
# The files of a run that ends without a close hold what was committed.
files
make left
write left
> row store 1 Leeds
> commit
= 1 written
show
= limits 10, 200, 3000
= meta name, value
= meta 'changes_max', 200
= meta 'commands_max', 10
= meta 'facts_max', 3000
= meta 'format', 1
= store surrogate, durable, natural, from_day, to_day, is_current, a1, a2, a3, a4, a5, a6, b1, b2, b3, b4, b5, b6, profile_now
= store 1, 1, 'M1', 19000101, 99991231, 1, 'Leeds', '', '', '', '', '', '', '', '', '', '', '', 0
ask left
> get store 1
> count store
= store surrogate, durable, natural, from_day, to_day, is_current, a1, a2, a3, a4, a5, a6, b1, b2, b3, b4, b5, b6, profile_now
= store 1, 1, 'M1', 19000101, 99991231, 1, 'Leeds', '', '', '', '', '', '', '', '', '', '', '', 0
= 1

# A row that isn't committed is gone after a restart, and the one that is stays.
restart
> BEGIN; DELETE FROM store
show
= limits 10, 200, 3000
= meta name, value
= meta 'changes_max', 200
= meta 'commands_max', 10
= meta 'facts_max', 3000
= meta 'format', 1
= store surrogate, durable, natural, from_day, to_day, is_current, a1, a2, a3, a4, a5, a6, b1, b2, b3, b4, b5, b6, profile_now
= store 1, 1, 'M1', 19000101, 99991231, 1, 'Leeds', '', '', '', '', '', '', '', '', '', '', '', 0
ask
> get store 1
> count store
= store surrogate, durable, natural, from_day, to_day, is_current, a1, a2, a3, a4, a5, a6, b1, b2, b3, b4, b5, b6, profile_now
= store 1, 1, 'M1', 19000101, 99991231, 1, 'Leeds', '', '', '', '', '', '', '', '', '', '', '', 0
= 1
";

pub const AT_PATH: &str = "1 written
limits 10, 200, 3000
meta name, value
meta 'changes_max', 200
meta 'commands_max', 10
meta 'facts_max', 3000
meta 'format', 1
store surrogate, durable, natural, from_day, to_day, is_current, a1, a2, a3, a4, a5, a6, b1, b2, b3, b4, b5, b6, profile_now
store 1, 1, 'M1', 19000101, 99991231, 1, 'Leeds', '', '', '', '', '', '', '', '', '', '', '', 0
store surrogate, durable, natural, from_day, to_day, is_current, a1, a2, a3, a4, a5, a6, b1, b2, b3, b4, b5, b6, profile_now
store 1, 1, 'M1', 19000101, 99991231, 1, 'Leeds', '', '', '', '', '', '', '', '', '', '', '', 0
1
";
