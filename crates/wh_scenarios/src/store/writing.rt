//! Edits that are kept together, or not at all.

pub const ALL: &str = "
scenario edits are kept or dropped
# Edits that are dropped leave nothing.
warehouse
write
> row product 1 Cola
> row product 2 Tea
> row store 1 Bern
> remove product 1
> remove customer 1
> drop
= 5 written
count product
= 0
count store
= 0
count customer
= 0
all meta
= meta name, value
= meta 'changes_max', 200
= meta 'commands_max', 10
= meta 'facts_max', 3000
= meta 'format', 1
close
open
= opened
count product
= 0
count store
= 0
count customer
= 0

# Edits that are kept stay, and others that are dropped don't.
warehouse
write
> row product 1 Cola
> row product 2 Tea
> row store 1 Bern
> remove product 1
> remove customer 1
> commit
= 5 written
count product
= 1
count store
= 1
count customer
= 0
write
> row product 1 Cola
> row product 2 Tea
> row store 1 Bern
> remove product 1
> remove customer 1
> drop
= 5 written
count product
= 1
count store
= 1
count customer
= 0
close
open
= opened
count product
= 1
count store
= 1
count customer
= 0

# Rows that are kept answer questions.
rows product 2
= product surrogate, durable, natural, from_day, to_day, is_current, a1, a2, a3, a4, a5, a6, b1, b2, b3, b4, b5, b6, profile_now
= product 2, 2, 'M2', 19000101, 99991231, 1, 'Tea', '', '', '', '', '', '', '', '', '', '', '', 0
rows product 1
get product 2
= product surrogate, durable, natural, from_day, to_day, is_current, a1, a2, a3, a4, a5, a6, b1, b2, b3, b4, b5, b6, profile_now
= product 2, 2, 'M2', 19000101, 99991231, 1, 'Tea', '', '', '', '', '', '', '', '', '', '', '', 0
get product 1

# A making that is dropped leaves no tables.
makes
= free
write
> make 10 200 3000
> drop
= 4 written
close
make
= free
write
> make 10 200 3000
> commit
= 4 written
all meta
= meta name, value
= meta 'changes_max', 200
= meta 'commands_max', 10
= meta 'facts_max', 3000
= meta 'format', 1

scenario edits are made in turn
# A row that is refused isn't counted, and none of the others is kept.
warehouse
write
> row product 1 Cola
> tries past
> commit
= refused size
= 1 written
= refused disk
count product
= 0
count store
= 0
count customer
= 0

# An id stands under one number. Where it is put under another, a commit leaves the tables as they were.
warehouse
write
> put command 1, 'init', 'init', x'', 0, 0
> row store 1 Bern
> commit
= 2 written
write
> row product 1 Cola
> tries put command 2, 'init', 'init', x'', 0, 0
> row product 2 Tea
> remove store 1
> commit
= refused disk
= 3 written
= refused disk
show
= limits 10, 200, 3000
= meta name, value
= meta 'changes_max', 200
= meta 'commands_max', 10
= meta 'facts_max', 3000
= meta 'format', 1
= command number, id, kind, bytes, records, placeholders
= command 1, 'init', 'init', x'', 0, 0
= store surrogate, durable, natural, from_day, to_day, is_current, a1, a2, a3, a4, a5, a6, b1, b2, b3, b4, b5, b6, profile_now
= store 1, 1, 'M1', 19000101, 99991231, 1, 'Bern', '', '', '', '', '', '', '', '', '', '', '', 0

# The next transaction is kept.
write
> row product 2 Tea
> commit
= 1 written
rows product 2
= product surrogate, durable, natural, from_day, to_day, is_current, a1, a2, a3, a4, a5, a6, b1, b2, b3, b4, b5, b6, profile_now
= product 2, 2, 'M2', 19000101, 99991231, 1, 'Tea', '', '', '', '', '', '', '', '', '', '', '', 0

# Of rows at one key the last stays.
warehouse
write
> rows 2 Tea, 1 Cola, 2 Green tea
> commit
= 3 written
count product
= 2
count store
= 0
count customer
= 0
rows product 1
= product surrogate, durable, natural, from_day, to_day, is_current, a1, a2, a3, a4, a5, a6, b1, b2, b3, b4, b5, b6, profile_now
= product 1, 1, 'M1', 19000101, 99991231, 1, 'Cola', '', '', '', '', '', '', '', '', '', '', '', 0
rows product 2
= product surrogate, durable, natural, from_day, to_day, is_current, a1, a2, a3, a4, a5, a6, b1, b2, b3, b4, b5, b6, profile_now
= product 2, 2, 'M2', 19000101, 99991231, 1, 'Green tea', '', '', '', '', '', '', '', '', '', '', '', 0

# A row comes, goes, and comes again with another text; another goes that was there.
write
> edits 3 Milk, 3, 3 Oat milk, 1
> commit
= 4 written
rows product 1
rows product 2
= product surrogate, durable, natural, from_day, to_day, is_current, a1, a2, a3, a4, a5, a6, b1, b2, b3, b4, b5, b6, profile_now
= product 2, 2, 'M2', 19000101, 99991231, 1, 'Green tea', '', '', '', '', '', '', '', '', '', '', '', 0
rows product 3
= product surrogate, durable, natural, from_day, to_day, is_current, a1, a2, a3, a4, a5, a6, b1, b2, b3, b4, b5, b6, profile_now
= product 3, 3, 'M3', 19000101, 99991231, 1, 'Oat milk', '', '', '', '', '', '', '', '', '', '', '', 0

# Single edits.
warehouse
write
> edit 1 Cola
> commit
= 1 written
rows product 1
= product surrogate, durable, natural, from_day, to_day, is_current, a1, a2, a3, a4, a5, a6, b1, b2, b3, b4, b5, b6, profile_now
= product 1, 1, 'M1', 19000101, 99991231, 1, 'Cola', '', '', '', '', '', '', '', '', '', '', '', 0
write
> edit 1
> commit
= 1 written
count product
= 0
count store
= 0
count customer
= 0

# A fact is given other keys.
warehouse
write
> put fact 'T1', 1, 20240610, 1, 1, 0, 1, 1, 0, 0, 1, 150, 100
> rekey T1 1 2 3 4 5
> commit
= 2 written
all fact
= fact ticket, line, day, store_key, product_key, customer_key, store_durable, product_durable, customer_durable, profile, quantity, amount, cost
= fact 'T1', 1, 20240610, 2, 3, 4, 1, 1, 0, 5, 1, 150, 100

# The greatest keys that records stand at.
warehouse
write
> put change 1, 1, 2, 1, 19000101, 7, 'Bern', '', '', '', '', ''
> put change 1, 2, 2, 1, 19000101, 12, 'Bern', '', '', '', '', ''
> put change 1, 3, 3, 1, 19000101, 9, 'Bern', '', '', '', '', ''
> commit
= 3 written
anchor store
= 12
anchor customer
= 9
anchor product
= 0

scenario edits are made in parts
# Seventeen records of a command: sixteen in one statement, and one.
warehouse
write
> records 2 1 17 1, 1, 20240610, 1, 'Tea', '', '', '', '', ''
> commit
= 17 written
count change
= 17
get change 2 1
= change command, record, dim, durable, day, anchor, v1, v2, v3, v4, v5, v6
= change 2, 1, 1, 1, 20240610, 1, 'Tea', '', '', '', '', ''
get change 2 16
= change command, record, dim, durable, day, anchor, v1, v2, v3, v4, v5, v6
= change 2, 16, 1, 1, 20240610, 1, 'Tea', '', '', '', '', ''
get change 2 17
= change command, record, dim, durable, day, anchor, v1, v2, v3, v4, v5, v6
= change 2, 17, 1, 1, 20240610, 1, 'Tea', '', '', '', '', ''

# Sixteen of which the last one is there already: each is put at its place.
write
> records 3 16 1 1, 1, 20240611, 1, 'Old', '', '', '', '', ''
> records 3 1 16 1, 1, 20240612, 1, 'New', '', '', '', '', ''
> commit
= 17 written
count change
= 33
get change 3 1
= change command, record, dim, durable, day, anchor, v1, v2, v3, v4, v5, v6
= change 3, 1, 1, 1, 20240612, 1, 'New', '', '', '', '', ''
get change 3 16
= change command, record, dim, durable, day, anchor, v1, v2, v3, v4, v5, v6
= change 3, 16, 1, 1, 20240612, 1, 'New', '', '', '', '', ''

# Sixteen products, and one more. Then the first part holds rows that are there, and the second new ones.
write
> parts 1 Ale, 2 Bun, 3 Cod, 4 Dip, 5 Egg, 6 Fig, 7 Gum, 8 Ham, 9 Ice, 10 Jam, 11 Kale, 12 Lime, 13 Milk, 14 Nut, 15 Oil, 16 Pea, 17 Rye
> commit
= 17 written
count product
= 17
get product 16
= product surrogate, durable, natural, from_day, to_day, is_current, a1, a2, a3, a4, a5, a6, b1, b2, b3, b4, b5, b6, profile_now
= product 16, 16, 'M16', 19000101, 99991231, 1, 'Pea', '', '', '', '', '', '', '', '', '', '', '', 0
write
> parts 1 Ales, 2 Buns, 3 Cods, 4 Dips, 5 Eggs, 6 Figs, 7 Gums, 8 Hams, 9 Ices, 10 Jams, 11 Kales, 12 Limes, 13 Milks, 14 Nuts, 15 Oils, 16 Peas, 18 Ale, 19 Bun, 20 Cod, 21 Dip, 22 Egg, 23 Fig, 24 Gum, 25 Ham, 26 Ice, 27 Jam, 28 Kale, 29 Lime, 30 Milk, 31 Nut, 32 Oil, 33 Pea
> commit
= 32 written
count product
= 33
get product 1
= product surrogate, durable, natural, from_day, to_day, is_current, a1, a2, a3, a4, a5, a6, b1, b2, b3, b4, b5, b6, profile_now
= product 1, 1, 'M1', 19000101, 99991231, 1, 'Ales', '', '', '', '', '', '', '', '', '', '', '', 0
get product 17
= product surrogate, durable, natural, from_day, to_day, is_current, a1, a2, a3, a4, a5, a6, b1, b2, b3, b4, b5, b6, profile_now
= product 17, 17, 'M17', 19000101, 99991231, 1, 'Rye', '', '', '', '', '', '', '', '', '', '', '', 0
get product 33
= product surrogate, durable, natural, from_day, to_day, is_current, a1, a2, a3, a4, a5, a6, b1, b2, b3, b4, b5, b6, profile_now
= product 33, 33, 'M33', 19000101, 99991231, 1, 'Pea', '', '', '', '', '', '', '', '', '', '', '', 0

# Sixteen new products, of which two have one key: the last one counts.
write
> parts 34 Ale, 35 Bun, 36 Cod, 37 Dip, 38 Egg, 39 Fig, 40 Gum, 41 Ham, 42 Ice, 43 Jam, 44 Kale, 45 Lime, 46 Milk, 47 Nut, 48 Oil, 34 Zest
> commit
= 16 written
count product
= 48
get product 34
= product surrogate, durable, natural, from_day, to_day, is_current, a1, a2, a3, a4, a5, a6, b1, b2, b3, b4, b5, b6, profile_now
= product 34, 34, 'M34', 19000101, 99991231, 1, 'Zest', '', '', '', '', '', '', '', '', '', '', '', 0
get product 35
= product surrogate, durable, natural, from_day, to_day, is_current, a1, a2, a3, a4, a5, a6, b1, b2, b3, b4, b5, b6, profile_now
= product 35, 35, 'M35', 19000101, 99991231, 1, 'Bun', '', '', '', '', '', '', '', '', '', '', '', 0

# A part that takes a product out.
write
> parts 48, 49 Ale, 50 Bun, 51 Cod, 52 Dip, 53 Egg, 54 Fig, 55 Gum, 56 Ham, 57 Ice, 58 Jam, 59 Kale, 60 Lime, 61 Milk, 62 Nut, 63 Oil
> commit
= 16 written
count product
= 62
get product 48
get product 63
= product surrogate, durable, natural, from_day, to_day, is_current, a1, a2, a3, a4, a5, a6, b1, b2, b3, b4, b5, b6, profile_now
= product 63, 63, 'M63', 19000101, 99991231, 1, 'Oil', '', '', '', '', '', '', '', '', '', '', '', 0

# What is dropped leaves nothing.
write
> parts 64 Ale, 65 Bun, 66 Cod, 67 Dip, 68 Egg, 69 Fig, 70 Gum, 71 Ham, 72 Ice, 73 Jam, 74 Kale, 75 Lime, 76 Milk, 77 Nut, 78 Oil, 79 Pea
> drop
= 16 written
count product
= 62
";
