//! Which databases are opened, and in which a warehouse is made.

pub const ALL: &str = "
scenario other databases
# An empty database, and the tables of another program.
empty
open
= NotAWarehouse
empty
sql CREATE TABLE notes (id, text); CREATE TABLE product (id, price)
open
= NotAWarehouse

# Other formats, and none.
make flat
load p0 p1
close
sql UPDATE meta SET value = 0 WHERE name = 'format'
open
= OldFormat
make flat
load p0 p1
close
sql UPDATE meta SET value = 3 WHERE name = 'format'
open
= NewFormat
make flat
load p0 p1
close
sql UPDATE meta SET value = 2 WHERE name = 'format'
open
= NotAWarehouse
make flat
load p0 p1
close
sql DELETE FROM meta WHERE name = 'format'
open
= NotAWarehouse

# No limits.
make flat
load p0 p1
close
sql DELETE FROM meta WHERE name = 'commands_max'
open
= Damaged(Meta)
make flat
load p0 p1
close
sql UPDATE meta SET value = 0 WHERE name = 'commands_max'
open
= Damaged(Meta)
make flat
load p0 p1
close
sql DELETE FROM meta WHERE name = 'changes_max'
open
= Damaged(Meta)
make flat
load p0 p1
close
sql UPDATE meta SET value = 0 WHERE name = 'changes_max'
open
= Damaged(Meta)
make flat
load p0 p1
close
sql DELETE FROM meta WHERE name = 'facts_max'
open
= Damaged(Meta)
make flat
load p0 p1
close
sql UPDATE meta SET value = 0 WHERE name = 'facts_max'
open
= Damaged(Meta)

scenario opened
# No making.
make flat
load p0 p1
close
sql DELETE FROM command WHERE id = 'init'
open
= Damaged(Command)
make flat
load p0 p1
close
sql UPDATE command SET kind = 'product' WHERE number = 1
open
= Damaged(Command)

# It is known by its kind, under whatever id.
make flat
load p0 p1
close
sql UPDATE command SET id = 'Init' WHERE number = 1
open
= opened

# A making with no policy.
make flat
load p0 p1
close
sql UPDATE command SET bytes = x'' WHERE number = 1
open
= Damaged(Command)
make flat
load p0 p1
close
sql UPDATE command SET bytes = x'ff00' WHERE number = 1
open
= Damaged(Command)

# A database that is refused stays as it was.
make flat
load p0 p1
close
sql UPDATE meta SET value = 3 WHERE name = 'format'
open
= NewFormat
sql UPDATE meta SET value = 1 WHERE name = 'format'
open
= opened

# A warehouse that was closed goes on where it was, under its policy and its limits.
make flat
load p0 p1
close
open
= opened
policy
= last year 2026
= attributes of a product 6
batch p2
= accepted 4: 1 records, 0 placeholders
make flat 2 10 10
close
open
= opened
load p0 p0
batch p1
= refused: Full(Commands)

scenario damaged
# A row of each table is damaged in turn. Meta and the making's row keep a warehouse from opening.
make flat
load p0 p1
close
sql UPDATE meta SET value = 'one' WHERE name = 'format'
open
= Damaged(Meta)
sql UPDATE meta SET value = 1 WHERE name = 'format'
sql UPDATE command SET records = 'none' WHERE number = 1
open
= Damaged(Command)

# Another command's row doesn't, and is met where its command comes again.
sql UPDATE command SET records = 0 WHERE number = 1
sql UPDATE command SET records = 'one' WHERE number = 3
open
= opened
counts
= format 1
= commands 3
= changes 1
= facts 0
= products 1
= stores 0
= customers 0
batch p1
= Damaged(Command)
close
sql UPDATE command SET records = 1 WHERE number = 3

# A member's row, its records and its rows are met where a record of it comes, which then changes nothing.
sql UPDATE member SET opening = 'first' WHERE dim = 1 AND durable = 1
open
= opened
counts
= Damaged(Member)
batch p2
= Damaged(Member)
close
sql UPDATE member SET opening = 1 WHERE dim = 1 AND durable = 1
sql UPDATE change SET day = 20240332
open
= opened
batch p2
= Damaged(Change)
close
sql UPDATE change SET day = 20240110
sql UPDATE product SET to_day = 20240332
open
= opened
batch p2
= Damaged(Product)
close
number SELECT count(*) FROM command
= 3
sql UPDATE product SET to_day = 99991231
open
= opened
send sales s1
> ticket,line,day,store,product,customer,quantity,amount,cost
> T1,1,2024-02-05,S1,P1,C9,2,5.00,3.20
= accepted 4: 1 records, 2 placeholders
close
sql UPDATE store SET to_day = 20240332
open
= opened
send store b1
> id,day,city
> S1,2024-01-01,Oslo
= Damaged(Store)
close
sql UPDATE customer SET to_day = 20240332 WHERE surrogate > 0
open
= opened
send customer c1
> id,day,tier
> C9,2024-01-01,Gold
= Damaged(Customer)
close
sql UPDATE customer SET to_day = 99991231 WHERE surrogate > 0

# The last profile is met where a combination is new, and a fact where a record of its member may move it.
sql UPDATE profile SET v1 = x'00' WHERE number = 1
open
= opened
send customer c1
> id,day,tier
> C9,2024-01-01,Gold
= Damaged(Profile)
close
sql UPDATE fact SET quantity = 'two'
open
= opened
batch p2
= Damaged(Fact)
close
sql UPDATE fact SET quantity = 2

# The calendar is not read, and what is damaged elsewhere keeps nothing else from its work.
sql UPDATE calendar SET weekday = 8
open
= opened
batch p2
= accepted 5: 1 records, 0 placeholders
close

# A record between two meets no fact since the later of them, where this one's row stays. Where it doesn't, it does.
sql UPDATE fact SET quantity = 'two'
open
= opened
send product a1
> id,day,description,brand,category,department,launched,supplier
> P1,2024-01-20,Cola 1l,Cask,Drinks,Grocery,2019,North
= accepted 6: 1 records, 0 placeholders
batch p3
= Damaged(Fact)

scenario exchanged
# Under the ids of two commands the rows of each other stand: a command that comes again finds other bytes than its own.
make flat
load p0 p1
close
sql UPDATE command SET id = 'none' WHERE number = 2
sql UPDATE command SET id = 'p0' WHERE number = 3
sql UPDATE command SET id = 'p1' WHERE number = 2
open
= opened
batch p0
= refused: Reused
batch p1
= refused: Reused
batch p2
= accepted 4: 1 records, 0 placeholders

scenario making
# The warehouse that is there stays as it was.
make flat
load p0 p1
mark
close
init flat
= NotEmpty
open
= opened
same
= the same

# A name that is taken.
empty
sql CREATE TABLE product (id, price)
init flat
= NotEmpty

# Under a policy with a fault nothing is written, and a warehouse can be made there.
empty
init bad-type
= Policy(BadType)
number SELECT count(*) FROM sqlite_master
= 0
init flat
= made

# The policy is looked at before the names.
make flat
load p0 p1
close
init bad-type
= Policy(BadType)
open
= opened
";
