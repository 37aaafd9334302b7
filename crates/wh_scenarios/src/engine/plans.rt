//! What a batch would write, and how many keys it then wrote.

pub const ALL: &str = "
scenario plans
make bands-of-rows
writes
= written 0
load p0 p2
batch s1
= accepted 5: 2 records, 1 placeholders

# A late brand: a row ends earlier, one is new, one is gone, and a sale moves.
mark
plan product p3
> id,day,description,brand,category,department,launched,supplier
> P1,2024-01-20,Cola 1l,Bolt,Drinks,Grocery,2019,North
= put command 6
= put change 6 1
= put product 1
= remove product 3
= put product 4
= rekey fact T1 1
same
= the same
load p3 p3
writes
= written 6
load p4 p4

# No row begins, and all three show another description.
plan product p5
> id,day,description,brand,category,department,launched,supplier
> P1,2024-03-01,Cola 1 l,Cask,Drinks,Grocery,2019,North
= put command 8
= put change 8 1
= put product 1
= put product 3
= put product 4
load p5 p5
writes
= written 5
load p6 p8

# Members that are new to a sale.
plan sales s2
> ticket,line,day,store,product,customer,quantity,amount,cost
> T2,1,2024-06-10,S1,P9,C9,1,10.00,7.00
= put command 12
= put member product 2
= put member customer 1
= put product 9
= put customer 1
= put fact T2 1
batch s2
= accepted 12: 1 records, 2 placeholders
writes
= written 6
batch p9
= accepted 13: 1 records, 0 placeholders

# A profile that is new, and the sale that it moves.
plan customer c1
> id,day,tier,age_band,spend_band
> C9,2024-06-08,Gold,30-39,high
= put command 14
= put change 14 1
= put customer 1
= put profile 2
= rekey fact T2 1

# A batch that came before writes nothing, and neither does one that is refused.
plan sales s2
> ticket,line,day,store,product,customer,quantity,amount,cost
> T2,1,2024-06-10,S1,P9,C9,1,10.00,7.00
batch s2
= already 12: 1 records, 2 placeholders
writes
= written 0
plan sales s2
> ticket,line,day,store,product,customer,quantity,amount,cost
= Refused(Reused)

# Facts are put in order of their lines, whatever the order of the batch.
plan sales s3
> ticket,line,day,store,product,customer,quantity,amount,cost
> T9,2,2024-06-10,S1,P9,,1,10.00,7.00
> T10,1,2024-06-10,S1,P9,,1,10.00,7.00
> T9,1,2024-06-10,S1,P9,,1,10.00,7.00
= put command 14
= put fact T10 1
= put fact T9 1
= put fact T9 2

# A batch reads the rows, the records and the facts of its own members, and of the kept batches the bytes of none: in a file that is damaged elsewhere it has its plan, and is accepted. A body that computes all tables anew from the kept commands and writes the difference meets each contract, since these speak of the tables of accepted commands; this is for it. `refused-by-tests` of `wh_engine` has such a body.
scenario touched
make bands-of-rows
load p0 c4
counts
= format 1
= commands 20
= changes 13
= facts 4
= products 2
= stores 1
= customers 2
close

# The bytes of a batch of the same product are gone. A day of a customer's record is none, and neither is the end of another product's row.
sql UPDATE command SET bytes = x'' WHERE number = 4
sql UPDATE change SET day = 20240632 WHERE command = 14 AND record = 1
sql UPDATE product SET to_day = 20240332 WHERE surrogate = 9
open
= opened
plan product p10
> id,day,description,brand,category,department,launched,supplier
> P1,2024-02-01,Cola 1 l,Dash,Drinks,Grocery,2019,North
= put command 21
= put change 21 1
= put product 3
= put product 5
send product p10
> id,day,description,brand,category,department,launched,supplier
> P1,2024-02-01,Cola 1 l,Dash,Drinks,Grocery,2019,North
= accepted 21: 1 records, 0 placeholders
writes
= written 4
close

# The damage is still there. Without it all rows can be shown.
number SELECT to_day FROM product WHERE surrogate = 9
= 20240332
number SELECT day FROM change WHERE command = 14
= 20240632
sql UPDATE change SET day = 20240608 WHERE command = 14
sql UPDATE product SET to_day = 99991231 WHERE surrogate = 9
open
= opened
table product
= surrogate,durable,natural,from_day,to_day,is_current,a1,a2,a3,a4,a5,a6,b1,b2,b3,b4,b5,b6,profile_now
= 1,1,P1,19000101,20240119,0,Cola 1 l,Acme,Drinks,Grocery,2019,South,,,Soft drinks,,,East,0
= 3,1,P1,20240201,20240229,0,Cola 1 l,Dash,Drinks,Grocery,2019,South,,,Soft drinks,,,East,0
= 4,1,P1,20240120,20240131,0,Cola 1 l,Bolt,Drinks,Grocery,2019,South,,,Soft drinks,,,East,0
= 5,1,P1,20240301,20240331,0,Cola 1 l,Cask,Drinks,Grocery,2019,South,,,Soft drinks,,,East,0
= 6,1,P1,20240401,99991231,1,Cola 1 l,Cask,Soft drinks,Grocery,2019,South,,,Soft drinks,,,East,0
= 9,2,P9,19000101,99991231,1,Tea 50,Leaf,Drinks,Grocery,2024,North,,,Drinks,,,(none),0
table fact
= ticket,line,day,store_key,product_key,customer_key,store_durable,product_durable,customer_durable,profile,quantity,amount,cost
= T0,1,20231231,1,1,0,1,1,0,0,1,250,160
= T1,1,20240205,1,3,0,1,1,0,0,2,500,320
= T2,1,20240610,1,9,1,1,2,1,2,1,1000,700
= T4,1,20240229,1,3,0,1,1,0,0,1,250,160
check
= wrong: Command
";
