//! The three tables of dimensions. Each edit is a transaction of its own.

pub const ALL: &str = "
scenario products
empty
create
# Two rows of the member 1 and one of the member 2, not in the order of their keys.
put product 3, 1, 'M1', 20240201, 99991231, 1, 'New', '(unknown)', '', '', '', '', '', '', '', '(none)', '', '', 0
put product 1, 1, 'M1', 19000101, 20240131, 0, 'Old', 'Bolt', '', '', '', '', '', '', '', '(none)', '', '', 0
put product 2, 2, 'M2', 19000101, 99991231, 1, 'Other', '(none)', '', '', '', '', '', '', '', '(none)', '', '', 0
rows product 1
= product surrogate, durable, natural, from_day, to_day, is_current, a1, a2, a3, a4, a5, a6, b1, b2, b3, b4, b5, b6, profile_now
= product 1, 1, 'M1', 19000101, 20240131, 0, 'Old', 'Bolt', '', '', '', '', '', '', '', '(none)', '', '', 0
= product 3, 1, 'M1', 20240201, 99991231, 1, 'New', '(unknown)', '', '', '', '', '', '', '', '(none)', '', '', 0
all product
= product surrogate, durable, natural, from_day, to_day, is_current, a1, a2, a3, a4, a5, a6, b1, b2, b3, b4, b5, b6, profile_now
= product 1, 1, 'M1', 19000101, 20240131, 0, 'Old', 'Bolt', '', '', '', '', '', '', '', '(none)', '', '', 0
= product 2, 2, 'M2', 19000101, 99991231, 1, 'Other', '(none)', '', '', '', '', '', '', '', '(none)', '', '', 0
= product 3, 1, 'M1', 20240201, 99991231, 1, 'New', '(unknown)', '', '', '', '', '', '', '', '(none)', '', '', 0
count product
= 3
# One is taken out, one that isn't there, and one is put over another.
remove product 1
remove product 7
put product 2, 2, 'M2', 20240301, 99991231, 1, 'Newer', '', '', '', '', '', '', '', '', '(none)', '', '', 0
all product
= product surrogate, durable, natural, from_day, to_day, is_current, a1, a2, a3, a4, a5, a6, b1, b2, b3, b4, b5, b6, profile_now
= product 2, 2, 'M2', 20240301, 99991231, 1, 'Newer', '', '', '', '', '', '', '', '', '(none)', '', '', 0
= product 3, 1, 'M1', 20240201, 99991231, 1, 'New', '(unknown)', '', '', '', '', '', '', '', '(none)', '', '', 0
rows product 1
= product surrogate, durable, natural, from_day, to_day, is_current, a1, a2, a3, a4, a5, a6, b1, b2, b3, b4, b5, b6, profile_now
= product 3, 1, 'M1', 20240201, 99991231, 1, 'New', '(unknown)', '', '', '', '', '', '', '', '(none)', '', '', 0
rows product 2
= product surrogate, durable, natural, from_day, to_day, is_current, a1, a2, a3, a4, a5, a6, b1, b2, b3, b4, b5, b6, profile_now
= product 2, 2, 'M2', 20240301, 99991231, 1, 'Newer', '', '', '', '', '', '', '', '', '(none)', '', '', 0
rows product 3
count product
= 2
get product 1
get product 2
= product surrogate, durable, natural, from_day, to_day, is_current, a1, a2, a3, a4, a5, a6, b1, b2, b3, b4, b5, b6, profile_now
= product 2, 2, 'M2', 20240301, 99991231, 1, 'Newer', '', '', '', '', '', '', '', '', '(none)', '', '', 0
get product 3
= product surrogate, durable, natural, from_day, to_day, is_current, a1, a2, a3, a4, a5, a6, b1, b2, b3, b4, b5, b6, profile_now
= product 3, 1, 'M1', 20240201, 99991231, 1, 'New', '(unknown)', '', '', '', '', '', '', '', '(none)', '', '', 0
# The other two have none of its rows.
all store
count store
= 0
all customer
count customer
= 0
dim product
= product

scenario stores
empty
create
# Two rows of the member 1 and one of the member 2, not in the order of their keys.
put store 3, 1, 'M1', 20240201, 99991231, 1, 'New', '(unknown)', '', '', '', '', '', '', '', '(none)', '', '', 0
put store 1, 1, 'M1', 19000101, 20240131, 0, 'Old', 'Bolt', '', '', '', '', '', '', '', '(none)', '', '', 0
put store 2, 2, 'M2', 19000101, 99991231, 1, 'Other', '(none)', '', '', '', '', '', '', '', '(none)', '', '', 0
rows store 1
= store surrogate, durable, natural, from_day, to_day, is_current, a1, a2, a3, a4, a5, a6, b1, b2, b3, b4, b5, b6, profile_now
= store 1, 1, 'M1', 19000101, 20240131, 0, 'Old', 'Bolt', '', '', '', '', '', '', '', '(none)', '', '', 0
= store 3, 1, 'M1', 20240201, 99991231, 1, 'New', '(unknown)', '', '', '', '', '', '', '', '(none)', '', '', 0
all store
= store surrogate, durable, natural, from_day, to_day, is_current, a1, a2, a3, a4, a5, a6, b1, b2, b3, b4, b5, b6, profile_now
= store 1, 1, 'M1', 19000101, 20240131, 0, 'Old', 'Bolt', '', '', '', '', '', '', '', '(none)', '', '', 0
= store 2, 2, 'M2', 19000101, 99991231, 1, 'Other', '(none)', '', '', '', '', '', '', '', '(none)', '', '', 0
= store 3, 1, 'M1', 20240201, 99991231, 1, 'New', '(unknown)', '', '', '', '', '', '', '', '(none)', '', '', 0
count store
= 3
# One is taken out, one that isn't there, and one is put over another.
remove store 1
remove store 7
put store 2, 2, 'M2', 20240301, 99991231, 1, 'Newer', '', '', '', '', '', '', '', '', '(none)', '', '', 0
all store
= store surrogate, durable, natural, from_day, to_day, is_current, a1, a2, a3, a4, a5, a6, b1, b2, b3, b4, b5, b6, profile_now
= store 2, 2, 'M2', 20240301, 99991231, 1, 'Newer', '', '', '', '', '', '', '', '', '(none)', '', '', 0
= store 3, 1, 'M1', 20240201, 99991231, 1, 'New', '(unknown)', '', '', '', '', '', '', '', '(none)', '', '', 0
rows store 1
= store surrogate, durable, natural, from_day, to_day, is_current, a1, a2, a3, a4, a5, a6, b1, b2, b3, b4, b5, b6, profile_now
= store 3, 1, 'M1', 20240201, 99991231, 1, 'New', '(unknown)', '', '', '', '', '', '', '', '(none)', '', '', 0
rows store 2
= store surrogate, durable, natural, from_day, to_day, is_current, a1, a2, a3, a4, a5, a6, b1, b2, b3, b4, b5, b6, profile_now
= store 2, 2, 'M2', 20240301, 99991231, 1, 'Newer', '', '', '', '', '', '', '', '', '(none)', '', '', 0
rows store 3
count store
= 2
get store 1
get store 2
= store surrogate, durable, natural, from_day, to_day, is_current, a1, a2, a3, a4, a5, a6, b1, b2, b3, b4, b5, b6, profile_now
= store 2, 2, 'M2', 20240301, 99991231, 1, 'Newer', '', '', '', '', '', '', '', '', '(none)', '', '', 0
get store 3
= store surrogate, durable, natural, from_day, to_day, is_current, a1, a2, a3, a4, a5, a6, b1, b2, b3, b4, b5, b6, profile_now
= store 3, 1, 'M1', 20240201, 99991231, 1, 'New', '(unknown)', '', '', '', '', '', '', '', '(none)', '', '', 0
# The other two have none of its rows.
all product
count product
= 0
all customer
count customer
= 0
dim store
= store

scenario customers
empty
create
# Two rows of the member 1 and one of the member 2, not in the order of their keys.
put customer 3, 1, 'M1', 20240201, 99991231, 1, 'New', '(unknown)', '', '', '', '', '', '', '', '(none)', '', '', 0
put customer 1, 1, 'M1', 19000101, 20240131, 0, 'Old', 'Bolt', '', '', '', '', '', '', '', '(none)', '', '', 0
put customer 2, 2, 'M2', 19000101, 99991231, 1, 'Other', '(none)', '', '', '', '', '', '', '', '(none)', '', '', 0
rows customer 1
= customer surrogate, durable, natural, from_day, to_day, is_current, a1, a2, a3, a4, a5, a6, b1, b2, b3, b4, b5, b6, profile_now
= customer 1, 1, 'M1', 19000101, 20240131, 0, 'Old', 'Bolt', '', '', '', '', '', '', '', '(none)', '', '', 0
= customer 3, 1, 'M1', 20240201, 99991231, 1, 'New', '(unknown)', '', '', '', '', '', '', '', '(none)', '', '', 0
all customer
= customer surrogate, durable, natural, from_day, to_day, is_current, a1, a2, a3, a4, a5, a6, b1, b2, b3, b4, b5, b6, profile_now
= customer 1, 1, 'M1', 19000101, 20240131, 0, 'Old', 'Bolt', '', '', '', '', '', '', '', '(none)', '', '', 0
= customer 2, 2, 'M2', 19000101, 99991231, 1, 'Other', '(none)', '', '', '', '', '', '', '', '(none)', '', '', 0
= customer 3, 1, 'M1', 20240201, 99991231, 1, 'New', '(unknown)', '', '', '', '', '', '', '', '(none)', '', '', 0
count customer
= 3
# One is taken out, one that isn't there, and one is put over another.
remove customer 1
remove customer 7
put customer 2, 2, 'M2', 20240301, 99991231, 1, 'Newer', '', '', '', '', '', '', '', '', '(none)', '', '', 0
all customer
= customer surrogate, durable, natural, from_day, to_day, is_current, a1, a2, a3, a4, a5, a6, b1, b2, b3, b4, b5, b6, profile_now
= customer 2, 2, 'M2', 20240301, 99991231, 1, 'Newer', '', '', '', '', '', '', '', '', '(none)', '', '', 0
= customer 3, 1, 'M1', 20240201, 99991231, 1, 'New', '(unknown)', '', '', '', '', '', '', '', '(none)', '', '', 0
rows customer 1
= customer surrogate, durable, natural, from_day, to_day, is_current, a1, a2, a3, a4, a5, a6, b1, b2, b3, b4, b5, b6, profile_now
= customer 3, 1, 'M1', 20240201, 99991231, 1, 'New', '(unknown)', '', '', '', '', '', '', '', '(none)', '', '', 0
rows customer 2
= customer surrogate, durable, natural, from_day, to_day, is_current, a1, a2, a3, a4, a5, a6, b1, b2, b3, b4, b5, b6, profile_now
= customer 2, 2, 'M2', 20240301, 99991231, 1, 'Newer', '', '', '', '', '', '', '', '', '(none)', '', '', 0
rows customer 3
count customer
= 2
get customer 1
get customer 2
= customer surrogate, durable, natural, from_day, to_day, is_current, a1, a2, a3, a4, a5, a6, b1, b2, b3, b4, b5, b6, profile_now
= customer 2, 2, 'M2', 20240301, 99991231, 1, 'Newer', '', '', '', '', '', '', '', '', '(none)', '', '', 0
get customer 3
= customer surrogate, durable, natural, from_day, to_day, is_current, a1, a2, a3, a4, a5, a6, b1, b2, b3, b4, b5, b6, profile_now
= customer 3, 1, 'M1', 20240201, 99991231, 1, 'New', '(unknown)', '', '', '', '', '', '', '', '(none)', '', '', 0
# The other two have none of its rows.
all product
count product
= 0
all store
count store
= 0
dim customer
= customer
";
