//! What is refused inside a transaction of the caller's, and what goes on after a refusal.

pub const ALL: &str = "
scenario inside a transaction of the caller's
# Nothing is put, and the transaction goes on with what it has.
empty
create
put meta 'kept', 1
sql BEGIN; INSERT INTO meta VALUES ('new', 2)
put meta 'other', 3
= refused disk
all meta
= meta name, value
= meta 'kept', 1
= meta 'new', 2
get meta other
count meta
= 2
status
= taken by the ten tables
= in a transaction
sql ROLLBACK
all meta
= meta name, value
= meta 'kept', 1
status
= taken by the ten tables
= at rest
put meta 'other', 3
count meta
= 2

# Nothing is made.
empty BEGIN
create
= refused disk
number SELECT count(*) FROM sqlite_master
= 0
status
= free
= in a transaction
sql COMMIT
create
status
= taken by the ten tables
= at rest

scenario inside a transaction of its own
# A number past those of SQL is refused before the statement is run.
empty
create
past
= refused size
rows product 18446744073709551615
= refused size
count product
= 0
status
= taken by the ten tables
= at rest

# The transaction goes on, and a commit keeps none of it.
warehouse
write
> tries past
> row product 1 Old
> commit
= refused size
= 1 written
= refused disk
count product
= 0

# A member whose natural key another member of the dimension has is refused, and the other stays.
empty
create
put member 2, 1, 'S-1', 1
put member 2, 2, 'S-1', 2
= refused disk
count member
= 1
status
= taken by the ten tables
= at rest
put member 2, 1, 'S-2', 3
put member 2, 2, 'S-1', 2
count member
= 2

# The transaction goes on, also with that member once its natural key is free, and a commit keeps none of it.
warehouse
write
> put member 2, 1, 'S-1', 1
> tries put member 2, 2, 'S-1', 2
> put member 2, 1, 'S-2', 3
> put member 2, 2, 'S-1', 2
> commit
= refused disk
= 3 written
= refused disk
count member
= 0

# The keys of a fact are moved.
empty
create
put fact 'T-1', 9999, 20240610, 1, 9, 0, 4, 5, 0, 3, -9999, -999999999, 999999999
bound UPDATE fact SET store_key = ?3, product_key = ?4, customer_key = ?5, profile = ?6 WHERE ticket = ?1 AND line = ?2
> 'T-1', 9999, 11, 12, 13, 14
= 1
get fact T-1 9999
= fact ticket, line, day, store_key, product_key, customer_key, store_durable, product_durable, customer_durable, profile, quantity, amount, cost
= fact 'T-1', 9999, 20240610, 11, 12, 13, 4, 5, 0, 14, -9999, -999999999, 999999999

# It is given other keys, and one that isn't there is not.
rekey T-1 9999 21 22 23 24
rekey T-1 1 31 32 33 34
all fact
= fact ticket, line, day, store_key, product_key, customer_key, store_durable, product_durable, customer_durable, profile, quantity, amount, cost
= fact 'T-1', 9999, 20240610, 21, 22, 23, 4, 5, 0, 24, -9999, -999999999, 999999999

# All facts are taken out, and then there is none.
put fact 'T-1', 1, 20240610, 1, 9, 0, 4, 5, 0, 3, 1, 150, 100
clear
= 2
clear
= 0
all fact
";
