//! Warehouses whose facts get a discount, by one command.

pub const ALL: &str = "
# After the worked batches and migrations: the facts change their table, and what is sold from then on has a discount.
scenario worked upgrade
make bands-of-rows
load p0 c2
send migrate m1
> brand-overwritten
= accepted 16: 0 records, 0 placeholders
send migrate m2
> bands-of-rows
= accepted 17: 0 records, 0 placeholders
batch s4
= accepted 18: 1 records, 0 placeholders
batch c3
= accepted 19: 1 records, 0 placeholders
batch c4
= accepted 20: 1 records, 0 placeholders

# The whole of it is planned, and nothing is written.
mark
plan upgrade u1
= put meta format
= put command 21
= remove fact T0 1
= remove fact T1 1
= remove fact T2 1
= remove fact T4 1
= put fact2 T0 1
= put fact2 T1 1
= put fact2 T2 1
= put fact2 T4 1
same
= the same
send upgrade u1
= accepted 21: 0 records, 0 placeholders
writes
= written 10
table fact
table fact2
= ticket,line,day,store_key,product_key,customer_key,store_durable,product_durable,customer_durable,profile,quantity,amount,cost,discount
= T0,1,20231231,1,1,0,1,1,0,0,1,250,160,0
= T1,1,20240205,1,3,0,1,1,0,0,2,500,320,0
= T2,1,20240610,1,9,1,1,2,1,2,1,1000,700,0
= T4,1,20240229,1,3,0,1,1,0,0,1,250,160,0
table void
counts
= format 2
= commands 21
= changes 13
= facts 4
= products 2
= stores 1
= customers 2
check
= clean

# It comes again; another finds it done.
mark
plan upgrade u1
send upgrade u1
= already 21: 0 records, 0 placeholders
writes
= written 0
plan upgrade u2
= Refused(Upgraded)
send upgrade u2
= refused: Upgraded
same
= the same

# A sale has one field more, which takes up to seven digits and two decimal places, and no sign.
send sales s5
> ticket,line,day,store,product,customer,quantity,amount,cost,discount
> T5,1,2024-07-05,S1,P1,C9,2,5.00,3.20,-0.5
= refused: BadNumber at 1
send sales s5
> ticket,line,day,store,product,customer,quantity,amount,cost,discount
> T5,1,2024-07-05,S1,P1,C9,2,5.00,3.20,0.505
= refused: BadNumber at 1
send sales s5
> ticket,line,day,store,product,customer,quantity,amount,cost,discount
> T5,1,2024-07-05,S1,P1,C9,2,5.00,3.20,
= refused: BadNumber at 1
send sales s5
> ticket,line,day,store,product,customer,quantity,amount,cost,discount
> T5,1,2024-07-05,S1,P1,C9,2,5.00,3.20,12345678
= refused: BadNumber at 1
send sales s5
> ticket,line,day,store,product,customer,quantity,amount,cost
> T5,1,2024-07-05,S1,P1,C9,2,5.00,3.20
= refused: WrongHeader at 0
send sales s5
> ticket,line,day,store,product,customer,quantity,amount,cost,discount
> T5,1,2024-07-05,S1,P1,C9,2,5.00,3.20
= refused: WrongLength at 1
same
= the same
send sales s5
> ticket,line,day,store,product,customer,quantity,amount,cost,discount
> T5,1,2024-07-05,S1,P1,C9,2,5.00,3.20,0.5
= accepted 22: 1 records, 0 placeholders
# The command and the fact.
writes
= written 2
table fact
table fact2
= ticket,line,day,store_key,product_key,customer_key,store_durable,product_durable,customer_durable,profile,quantity,amount,cost,discount
= T0,1,20231231,1,1,0,1,1,0,0,1,250,160,0
= T1,1,20240205,1,3,0,1,1,0,0,2,500,320,0
= T2,1,20240610,1,9,1,1,2,1,2,1,1000,700,0
= T4,1,20240229,1,3,0,1,1,0,0,1,250,160,0
= T5,1,20240705,1,6,1,1,1,1,3,2,500,320,50
check
= clean

# Batches of before, as they were told.
batch s1
= already 5: 2 records, 1 placeholders
batch s4
= already 18: 1 records, 0 placeholders

# A line of before is there, and its discount doesn't matter.
send sales s6
> ticket,line,day,store,product,customer,quantity,amount,cost,discount
> T6,1,2024-07-05,S1,P1,C9,2,5.00,3.20,0.50
> T1,1,2024-02-05,S1,P1,,2,5.00,3.20,0
= refused: LineThere(2)

# It is as it was when it is opened again.
mark
close
open
= opened
same
= the same
send upgrade u2
= refused: Upgraded

# Late records and policies after an upgrade move the facts of the second table, and leave their discounts.
scenario batches and policies after an upgrade
make small
send product p1
> id,day,brand
> P1,2024-02-01,Acme
= accepted 2: 1 records, 0 placeholders
send sales s1
> ticket,line,day,store,product,customer,quantity,amount,cost
> T1,1,2024-03-05,S1,P1,,1,2.50,1.60
> T3,1,2024-01-05,S1,P1,,1,2.50,1.60
= accepted 3: 2 records, 1 placeholders
send upgrade u1
= accepted 4: 0 records, 0 placeholders
# The format, the command, and two facts that leave one table for the other.
writes
= written 6
send sales s2
> ticket,line,day,store,product,customer,quantity,amount,cost,discount
> T2,1,2024-02-20,S1,P1,,1,2.50,1.60,9999999.99
> T0,1,2024-02-14,S1,P1,,1,2.50,1.60,0
= accepted 5: 2 records, 0 placeholders

# The brand came in March.
plan product p2
> id,day,brand
> P1,2024-03-01,Bolt
= put command 6
= put change 6 1
= put product 1
= put product 3
= rekey fact2 T1 1
send product p2
> id,day,brand
> P1,2024-03-01,Bolt
= accepted 6: 1 records, 0 placeholders
table fact2
= ticket,line,day,store_key,product_key,customer_key,store_durable,product_durable,customer_durable,profile,quantity,amount,cost,discount
= T0,1,20240214,1,1,0,1,1,0,0,1,250,160,0
= T1,1,20240305,1,3,0,1,1,0,0,1,250,160,0
= T2,1,20240220,1,1,0,1,1,0,0,1,250,160,999999999
= T3,1,20240105,1,1,0,1,1,0,0,1,250,160,0

# Another in the midst of February is told late.
send product p3
> id,day,brand
> P1,2024-02-15,Cask
= accepted 7: 1 records, 0 placeholders
# The command, its record, the row that ends earlier, the new one, and the fact T2.
writes
= written 5
table product
= surrogate,durable,natural,from_day,to_day,is_current,a1,a2,a3,a4,a5,a6,b1,b2,b3,b4,b5,b6,profile_now
= 1,1,P1,19000101,20240214,0,Acme,,,,,,,,,,,,0
= 3,1,P1,20240301,99991231,1,Bolt,,,,,,,,,,,,0
= 4,1,P1,20240215,20240229,0,Cask,,,,,,,,,,,,0
table fact2
= ticket,line,day,store_key,product_key,customer_key,store_durable,product_durable,customer_durable,profile,quantity,amount,cost,discount
= T0,1,20240214,1,1,0,1,1,0,0,1,250,160,0
= T1,1,20240305,1,3,0,1,1,0,0,1,250,160,0
= T2,1,20240220,1,4,0,1,1,0,0,1,250,160,999999999
= T3,1,20240105,1,1,0,1,1,0,0,1,250,160,0

# No brand begins a row any more.
plan migrate m1
> small-overwritten
= put command 8
= put product 1
= remove product 3
= remove product 4
= rekey fact2 T1 1
= rekey fact2 T2 1
send migrate m1
> small-overwritten
= accepted 8: 0 records, 0 placeholders
table fact
table fact2
= ticket,line,day,store_key,product_key,customer_key,store_durable,product_durable,customer_durable,profile,quantity,amount,cost,discount
= T0,1,20240214,1,1,0,1,1,0,0,1,250,160,0
= T1,1,20240305,1,1,0,1,1,0,0,1,250,160,0
= T2,1,20240220,1,1,0,1,1,0,0,1,250,160,999999999
= T3,1,20240105,1,1,0,1,1,0,0,1,250,160,0
send migrate m2
> small
= accepted 9: 0 records, 0 placeholders
table fact2
= ticket,line,day,store_key,product_key,customer_key,store_durable,product_durable,customer_durable,profile,quantity,amount,cost,discount
= T0,1,20240214,1,1,0,1,1,0,0,1,250,160,0
= T1,1,20240305,1,3,0,1,1,0,0,1,250,160,0
= T2,1,20240220,1,4,0,1,1,0,0,1,250,160,999999999
= T3,1,20240105,1,1,0,1,1,0,0,1,250,160,0
check
= clean

# Batches of before come again, of both formats.
send sales s1
> ticket,line,day,store,product,customer,quantity,amount,cost
> T1,1,2024-03-05,S1,P1,,1,2.50,1.60
> T3,1,2024-01-05,S1,P1,,1,2.50,1.60
= already 3: 2 records, 1 placeholders
send sales s2
> ticket,line,day,store,product,customer,quantity,amount,cost,discount
> T2,1,2024-02-20,S1,P1,,1,2.50,1.60,9999999.99
> T0,1,2024-02-14,S1,P1,,1,2.50,1.60,0
= already 5: 2 records, 0 placeholders

# An upgrade of a warehouse that was just made.
make small
send upgrade u1
= accepted 2: 0 records, 0 placeholders
# The format and the command.
writes
= written 2
send sales s1
> ticket,line,day,store,product,customer,quantity,amount,cost,discount
> T1,1,2024-03-05,S1,P1,,1,2.50,1.60,0.01
= accepted 3: 1 records, 2 placeholders
table fact2
= ticket,line,day,store_key,product_key,customer_key,store_durable,product_durable,customer_durable,profile,quantity,amount,cost,discount
= T1,1,20240305,1,1,0,1,1,0,0,1,250,160,1
check
= clean

# In one delivery with what comes before and after it; the one behind it is as if it came by itself.
make small
deliver
> sales s1
> ticket,line,day,store,product,customer,quantity,amount,cost
> T1,1,2024-03-05,S1,P1,,1,2.50,1.60
>
> upgrade u1
>
> sales s2
> ticket,line,day,store,product,customer,quantity,amount,cost,discount
> T2,1,2024-03-06,S1,P1,,1,2.50,1.60,0.25
>
> upgrade u2
>
> product p1
> id,day,brand
> P1,2024-03-06,Acme
= accepted 2: 1 records, 2 placeholders
= accepted 3: 0 records, 0 placeholders
= accepted 4: 1 records, 0 placeholders
= refused: Upgraded
= accepted 5: 1 records, 0 placeholders
table fact2
= ticket,line,day,store_key,product_key,customer_key,store_durable,product_durable,customer_durable,profile,quantity,amount,cost,discount
= T1,1,20240305,1,1,0,1,1,0,0,1,250,160,0
= T2,1,20240306,1,1,0,1,1,0,0,1,250,160,25
check
= clean

# Upgrades that aren't made, in the order in which it is asked why.
scenario upgrades that are refused
# A bad id, an id that a batch has, and one that an upgrade has.
make small
send product p1
> id,day,brand
> P1,2024-02-01,Acme
= accepted 2: 1 records, 0 placeholders
send upgrade u/1
= refused: BadId
send upgrade p1
= refused: Reused
send upgrade u1
= accepted 3: 0 records, 0 placeholders
send product u1
> id,day,brand
> P1,2024-02-01,Acme
= refused: Reused
send upgrade p1
= refused: Reused

# No room for a command comes before the format, and a repeat needs none.
make small 2 10 10
send upgrade u1
= accepted 2: 0 records, 0 placeholders
send upgrade u2
= refused: Full(Commands)
send upgrade u1
= already 2: 0 records, 0 placeholders
make small 1 10 10
close
sql CREATE TABLE fact2 (x)
open
= opened
send upgrade u1
= refused: Full(Commands)

# A table, an index or a view has one of the two names. Nothing is changed, and the id is free.
make small
send product p1
> id,day,brand
> P1,2024-02-01,Acme
= accepted 2: 1 records, 0 placeholders
close
sql CREATE TABLE fact2 (x)
open
= opened
mark
plan upgrade u1
= Refused(NameTaken)
send upgrade u1
= refused: NameTaken
deliver
> upgrade u1
>
> product p2
> id,day,brand
> P1,2024-03-01,Bolt
= refused: NameTaken
= accepted 3: 1 records, 0 placeholders
close
sql DROP TABLE fact2; CREATE TABLE other (x); CREATE INDEX fact2 ON other (x)
open
= opened
send upgrade u1
= refused: NameTaken
close
sql DROP TABLE other; CREATE VIEW fact2 AS SELECT * FROM fact
open
= opened
send upgrade u1
= refused: NameTaken
close
sql DROP VIEW fact2; CREATE TABLE void (x)
open
= opened
send upgrade u1
= refused: NameTaken
close
sql DROP TABLE void; CREATE TABLE other (x); CREATE INDEX void ON other (x)
open
= opened
send upgrade u1
= refused: NameTaken
close
sql DROP TABLE other; CREATE VIEW void AS SELECT * FROM fact
open
= opened
send upgrade u1
= refused: NameTaken
check
= clean
close
sql DROP VIEW void
open
= opened
send upgrade u1
= accepted 4: 0 records, 0 placeholders
check
= clean

# Files of the second format that somebody changed.
scenario changed files of the second format
# One of the two tables is gone, or the first table of facts.
make small
send upgrade u1
= accepted 2: 0 records, 0 placeholders
close
sql DROP TABLE void
open
= NotAWarehouse
make small
send upgrade u1
= accepted 2: 0 records, 0 placeholders
close
sql DROP TABLE fact2
open
= NotAWarehouse
make small
send upgrade u1
= accepted 2: 0 records, 0 placeholders
close
sql DROP TABLE fact
open
= NotAWarehouse

# The number of the format is another, and there is no upgrade in the list, or one too many.
make small
send sales s1
> ticket,line,day,store,product,customer,quantity,amount,cost
> T1,1,2024-03-05,S1,P1,,1,2.50,1.60
= accepted 2: 1 records, 2 placeholders
send upgrade u1
= accepted 3: 0 records, 0 placeholders
close
sql UPDATE meta SET value = 3 WHERE name = 'format'
open
= NewFormat
sql UPDATE meta SET value = 1 WHERE name = 'format'
open
= opened
check
= wrong: Command
close
sql UPDATE meta SET value = 2 WHERE name = 'format'
open
= opened
check
= clean
close
sql UPDATE command SET kind = 'sales' WHERE number = 3
open
= opened
check
= wrong: Command
close
sql UPDATE command SET kind = 'upgrade' WHERE number = 3
open
= opened
check
= clean

# A fact in the first table, a discount, one that is none, and a row of withdrawn lines.
close
sql INSERT INTO fact VALUES ('T9', 1, 20240305, 1, 1, 0, 1, 1, 0, 0, 1, 250, 160)
open
= opened
check
= wrong: Fact
close
sql DELETE FROM fact; UPDATE fact2 SET discount = 1
open
= opened
check
= wrong: Fact2
close
sql UPDATE fact2 SET discount = -1
open
= opened
check
= Damaged(Fact2)
close
sql UPDATE fact2 SET discount = 1000000000
open
= opened
check
= Damaged(Fact2)
close
sql UPDATE fact2 SET discount = 0; INSERT INTO void VALUES ('T1', 1, 3)
open
= opened
check
= wrong: Void
close
sql DELETE FROM void
open
= opened
check
= clean
";

/// Files that stop inside an upgrade, and inside the night that holds it.
pub const STOPS: &str = "\
files
init small
= made
send sales s1
> ticket,line,day,store,product,customer,quantity,amount,cost
> T1,1,2024-03-05,S1,P1,,1,2.50,1.60
= accepted 2: 1 records, 2 placeholders
stops either send upgrade u1
= as acknowledged, or with the next
";

/// The same of a delivery with an upgrade in its midst.
pub const NIGHTS: &str = "\
files
init small
= made
send sales s1
> ticket,line,day,store,product,customer,quantity,amount,cost
> T1,1,2024-03-05,S1,P1,,1,2.50,1.60
= accepted 2: 1 records, 2 placeholders
stops log deliver
> upgrade u1
>
> product p1
> id,day,brand
> P1,2024-03-01,Acme
>
> migrate m1
> small-overwritten
= as acknowledged, or with the next
";
