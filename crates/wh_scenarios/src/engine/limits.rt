//! Warehouses that are full.

pub const ALL: &str = "
scenario of records
# The last command, and no room for another.
make flat 2 10 10
batch p0
= accepted 2: 0 records, 0 placeholders
batch p1
= refused: Full(Commands)

# A repeat needs no room.
batch p0
= already 2: 0 records, 0 placeholders

# A bad id, and a fault, come before want of room.
send product a b
> id,day,description,brand,category,department,launched,supplier
>
= refused: BadId
send product p
> id,day,description,brand,category,department,launched,supplier
> P1,2024-08-01,Cola
= refused: WrongLength at 1

# No room for a change.
make flat 10 1 1
batch p1
= accepted 2: 1 records, 0 placeholders
batch p2
= refused: Full(Changes)
batch p0
= accepted 3: 0 records, 0 placeholders

# A batch finds room as a whole, or not at all.
make flat 10 1 1
send store s
> id,day,city
> S1,2024-01-01,Bern
> S2,2024-01-01,Basel
= refused: Full(Changes)
table store

# Commands are looked at before changes.
make flat 2 1 1
load p1 p1
batch p2
= refused: Full(Commands)

scenario of sales
# No room for a fact.
make flat 10 10 2
batch s1
= accepted 2: 2 records, 2 placeholders
send sales s
> ticket,line,day,store,product,customer,quantity,amount,cost
> T3,1,2024-07-02,S1,P1,,1,2.50,1.60
= refused: Full(Facts)
send sales s0
> ticket,line,day,store,product,customer,quantity,amount,cost
>
= accepted 3: 0 records, 0 placeholders

# A batch of sales finds room as a whole, or not at all.
make flat 10 1 1
send sales s
> ticket,line,day,store,product,customer,quantity,amount,cost
> T1,1,2024-02-05,S1,P1,,2,5.00,3.20
> T0,1,2023-12-31,S1,P1,,1,2.5,1.60
= refused: Full(Facts)
table fact
table store

# Lines are looked for before want of room for facts.
make flat 10 10 2
batch s1
= accepted 2: 2 records, 2 placeholders
send sales s
> ticket,line,day,store,product,customer,quantity,amount,cost
> T1,1,2024-02-05,S1,P1,,2,5.00,3.20
> T0,1,2023-12-31,S1,P1,,1,2.5,1.60
= refused: LineThere(1)

# Commands are looked at before lines.
make flat 2 10 10
batch s1
= accepted 2: 2 records, 2 placeholders
send sales s
> ticket,line,day,store,product,customer,quantity,amount,cost
> T1,1,2024-02-05,S1,P1,,2,5.00,3.20
> T0,1,2023-12-31,S1,P1,,1,2.5,1.60
= refused: Full(Commands)

# Sales take no room of changes, and records none of facts.
make flat 10 1 1
load p1 p1
send sales s
> ticket,line,day,store,product,customer,quantity,amount,cost
> T3,1,2024-07-02,S1,P1,,1,2.50,1.60
= accepted 3: 1 records, 1 placeholders
";
