//! Batches with a fault, batches of nothing, and batches of stores and customers.

pub const ALL: &str = "
scenario faults
# A batch with a fault leaves nothing, and its id is free.
make flat
mark
send product p1
> id,day,description,brand,category,department,launched,supplier
> P1,2024-08-01,Cola
= refused: WrongLength at 1
same
= the same
send product p1
> id,day,description,brand,category,department,launched,supplier
> P1,2024-08-01,Cola
= refused: WrongLength at 1
batch p1
= accepted 2: 1 records, 0 placeholders

# The first record is good, and isn't kept.
make flat
mark
send product p1
> id,day,description,brand,category,department,launched,supplier
> P1,2024-01-10,Cola 1l,Acme,Drinks,Grocery,2019,North
> P2,2024-02-30,Tea,Acme,Drinks,Grocery,2019,North
= refused: BadDay at 2
same
= the same
send product p1
> id,day,description,brand,category,department,launched,supplier
> P1,2024-01-10,Cola 1l,Acme,Drinks,Grocery,2019,North
> P2,2024-02-30,Tea,Acme,Drinks,Grocery,2019,North
= refused: BadDay at 2
batch p1
= accepted 2: 1 records, 0 placeholders

make flat
mark
send product p1
> id,day,description,brand,category,department,launched,supplier
> P1,2024-01-10,Cola 1l,Acme,Drinks,Grocery,2019,North
> P1,2024-01-10,Cola 1l,Bolt,Drinks,Grocery,2019,North
= refused: TwiceInBatch at 2
same
= the same
send product p1
> id,day,description,brand,category,department,launched,supplier
> P1,2024-01-10,Cola 1l,Acme,Drinks,Grocery,2019,North
> P1,2024-01-10,Cola 1l,Bolt,Drinks,Grocery,2019,North
= refused: TwiceInBatch at 2
batch p1
= accepted 2: 1 records, 0 placeholders

# No bytes.
make flat
load p0 p0
send product p00
= refused: WrongHeader at 0
batch p1
= accepted 3: 1 records, 0 placeholders

scenario others
# No sales.
make flat
send sales s0
> ticket,line,day,store,product,customer,quantity,amount,cost
>
= accepted 2: 0 records, 0 placeholders
table fact
batch p0
= accepted 3: 0 records, 0 placeholders

# Empty fields.
make flat
send product p
> id,day,description,brand,category,department,launched,supplier
> P2,2024-01-10,,,,,,
= accepted 2: 1 records, 0 placeholders
table product
= surrogate,durable,natural,from_day,to_day,is_current,a1,a2,a3,a4,a5,a6,b1,b2,b3,b4,b5,b6,profile_now
= 1,1,P2,19000101,99991231,1,(none),(none),(none),(none),(none),(none),,,(none),,,(none),0

# Two profiles at first.
make flat
table profile
= number,v1,v2,v3,v4,v5,v6
= 0,,,,,,
= 1,,,,,,

# Two stores, and a customer, who stands beside the row of sales without a card.
send store s1
> id,day,city
> S1,2024-01-01,Bern
> S2,2024-01-01,Basel
= accepted 2: 2 records, 0 placeholders
send customer c1
> id,day,tier
> C9,2024-06-08,Gold
= accepted 3: 1 records, 0 placeholders
counts
= format 1
= commands 3
= changes 3
= facts 0
= products 0
= stores 2
= customers 1
table store
= surrogate,durable,natural,from_day,to_day,is_current,a1,a2,a3,a4,a5,a6,b1,b2,b3,b4,b5,b6,profile_now
= 1,1,S1,19000101,99991231,1,Bern,,,,,,,,,,,,0
= 3,2,S2,19000101,99991231,1,Basel,,,,,,,,,,,,0
table customer
= surrogate,durable,natural,from_day,to_day,is_current,a1,a2,a3,a4,a5,a6,b1,b2,b3,b4,b5,b6,profile_now
= 0,0,(no card),19000101,99991231,1,(no card),,,,,,,,,,,,0
= 1,1,C9,19000101,99991231,1,Gold,,,,,,,,,,,,0

# Each dimension counts its own members.
batch p1
= accepted 4: 1 records, 0 placeholders
table member
= dim,durable,natural,opening
= 1,1,P1,1
= 2,1,S1,1
= 2,2,S2,3
= 3,1,C9,1

# The first record of a customer brings a profile, and no other does.
table profile
= number,v1,v2,v3,v4,v5,v6
= 0,,,,,,
= 1,,,,,,
= 2,,,,,,
send customer c2
> id,day,tier
> C9,2024-07-01,Silver
> C8,2024-07-01,Gold
= accepted 5: 2 records, 0 placeholders
table profile
= number,v1,v2,v3,v4,v5,v6
= 0,,,,,,
= 1,,,,,,
= 2,,,,,,
";
