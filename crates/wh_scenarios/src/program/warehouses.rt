//! Commands for a warehouse's file, one by one.

pub const ALL: &str = r#"
scenario loads, one after the other
# A warehouse is made once under a name, and others under other names.
run init w policy.toml
= accepted 1 init: 0 records, 0 placeholders
run init w policy.toml
= refused: E11 not empty
run init v few.toml
= accepted 1 init: 0 records, 0 placeholders
run status w
= format 1
= commands 1
= changes 0
= facts 0
= members product 0 store 0 customer 0
run load w product p00 empty.csv
= refused: E3 batch, B2 wrong header, record 0

# Bad ids, and the one that the making has.
run load w product
> a b
> p1.csv
= refused: E1 bad id
run load w product
>
> p1.csv
= refused: E1 bad id
run load w product
> 12345678901234567890123456789012345678901
> p1.csv
= refused: E1 bad id
run load w product init p1.csv
= refused: E2 id reused

# A header alone, and again.
run load w product p0 p0.csv
= accepted 2 p0: 0 records, 0 placeholders
run load w product p0 p0.csv
= already 2 p0: 0 records, 0 placeholders

# A record, at first without an end of its line, and a later one.
bytes p1n.csv id,day,description,brand,category,department,launched,supplier\nP1,2024-01-10,Cola 1l,Acme,Drinks,Grocery,2019,North
run load w product p1 p1n.csv
= accepted 3 p1: 1 records, 0 placeholders
run load w product p2 p2.csv
= accepted 4 p2: 1 records, 0 placeholders
run status w
= format 1
= commands 4
= changes 2
= facts 0
= members product 1 store 0 customer 0

# The receipt is repeated, and an id of other bytes is refused.
run load w product p1 p1n.csv
= already 3 p1: 1 records, 0 placeholders
run load w product p1 p1.csv
= refused: E2 id reused

# Sales, a line that is there, and a number that is none.
run load w sales s1 s1.csv
= accepted 5 s1: 2 records, 1 placeholders
run load w sales s2 s2.csv
= accepted 6 s2: 1 records, 2 placeholders
run status w
= format 1
= commands 6
= changes 2
= facts 3
= members product 2 store 1 customer 1
run load w sales s3 s3.csv
= refused: E6 line there, record 2
run load w sales s1 s1.csv
= already 5 s1: 2 records, 1 placeholders
file letters.csv
> ticket,line,day,store,product,customer,quantity,amount,cost
> T1,1,2024-02-05,S1,P1,,x,5.00,3.20
run load w sales s3 letters.csv
= refused: E3 batch, B7 bad number, record 1

scenario stores and customers
ends 0 init w policy.toml
run load w store b1 k1.csv
= accepted 2 b1: 2 records, 0 placeholders
run load w customer c1 c1.csv
= accepted 3 c1: 1 records, 0 placeholders
run status w
= format 1
= commands 3
= changes 3
= facts 0
= members product 0 store 2 customer 1

scenario what a load would write is printed before, and nothing is written
ends 0 init w policy.toml
run plan w product p1 p1.csv
= put command 2
= put member 1 1
= put change 2 1
= put product 1
= edits 4
run load w product p1 p1.csv
= accepted 2 p1: 1 records, 0 placeholders
run plan w product p1 p1.csv
= edits 0
run plan w product p1 p1x.csv
= refused: E2 id reused
run plan w product p2 p2.csv
= put command 3
= put change 3 1
= put product 1
= put product 3
= edits 4
run plan w sales s1 s1.csv
= put command 3
= put member 2 1
= put store 1
= put fact T0 1
= put fact T1 1
= edits 5
run plan w product p2 none.csv
= failed: F1 file, none.csv
run status w
= format 1
= commands 2
= changes 1
= facts 0
= members product 1 store 0 customer 0

scenario a policy takes the place of another: the brand no longer begins a row
ends 0 init w policy.toml
ends 0 load w product p1 p1.csv
run load w product p2 p2.csv
= accepted 3 p2: 1 records, 0 placeholders
run plan w migrate m1 m1.toml
= put command 4
= put product 1
= remove product 3
= edits 3
run migrate w m1 m1.toml
= accepted 4 m1: 0 records, 0 placeholders
run migrate w m1 m1.toml
= already 4 m1: 0 records, 0 placeholders
run migrate w m2 cut.toml
= refused: E4 policy, P1 not toml
run migrate w m2 few.toml
= refused: E5 policy does not fit
run migrate w p2 policy.toml
= refused: E2 id reused
run migrate w m2 none.toml
= failed: F1 file, none.toml
run migrate w m2 policy.toml
= accepted 5 m2: 0 records, 0 placeholders
run plan w migrate m3 policy.toml
= put command 6
= edits 1

scenario nothing is there, and nothing is left there by a name that was mistyped
run load w product p1 p1.csv
= failed: N1 not a warehouse
run status w
= failed: N1 not a warehouse
stands w
= no

# A bad policy is refused before anything has the name, and then a warehouse can be made.
run init w cut.toml
= refused: E4 policy, P1 not toml
stands w
= no
ends 0 init w policy.toml
stands w
= yes

# It is refused over a warehouse too, which stays, and under the name of a file. No migration is to it, nor to one that loses attributes.
run init w cut.toml
= refused: E4 policy, P1 not toml
run init w policy.toml
= refused: E11 not empty
run init p1.csv cut.toml
= refused: E4 policy, P1 not toml
run migrate w m1 cut.toml
= refused: E4 policy, P1 not toml
run plan w migrate m1 cut.toml
= refused: E4 policy, P1 not toml
run migrate w m1 few.toml
= refused: E5 policy does not fit

scenario another program's file is no warehouse, but one can be made in it
sql w CREATE TABLE note (id INTEGER PRIMARY KEY)
run load w product p1 p1.csv
= failed: N1 not a warehouse
run init w policy.toml
= accepted 1 init: 0 records, 0 placeholders

# Nine tables.
sql w DROP TABLE fact
run load w product p1 p1.csv
= failed: N1 not a warehouse

scenario a taken name of a table
sql w CREATE TABLE fact (a)
run init w policy.toml
= refused: E11 not empty

scenario a taken name of an index is a refusal of the store, and nothing is left
sql w CREATE TABLE note (a); CREATE INDEX change_by_member ON note (a)
run init w policy.toml
= failed: E9 store, disk
run status w
= failed: N1 not a warehouse

scenario a file with further indexes of the facts, as earlier builds made them, goes on as it is, also where they are dropped
file p3.csv
> id,day,description,brand,category,department,launched,supplier
> P1,2024-03-01,Cola 1l,Cima,Drinks,Grocery,2019,North
file s1.csv
> ticket,line,day,store,product,customer,quantity,amount,cost
> T1,1,2024-03-05,S1,P1,,1,2.50,1.60
ends 0 init w policy.toml
sql w CREATE INDEX fact_by_store ON fact (store_durable, day); CREATE INDEX fact_by_product ON fact (product_durable, day); CREATE INDEX fact_by_customer ON fact (customer_durable, day)
ends 0 load w product p1 p1.csv
run load w sales s1 s1.csv
= accepted 3 s1: 1 records, 1 placeholders
ends 0 load w product p2 p2.csv
run dump w fact
= ticket,line,day,store_key,product_key,customer_key,store_durable,product_durable,customer_durable,profile,quantity,amount,cost
= T1,1,20240305,1,3,0,1,1,0,0,1,250,160
run upgrade w u1
= accepted 5 u1: 0 records, 0 placeholders
sql w DROP INDEX fact_by_store; DROP INDEX fact_by_product; DROP INDEX fact_by_customer
run load w product p3 p3.csv
= accepted 6 p3: 1 records, 0 placeholders
run dump w fact2
= ticket,line,day,store_key,product_key,customer_key,store_durable,product_durable,customer_durable,profile,quantity,amount,cost,discount
= T1,1,20240305,1,4,0,1,1,0,0,1,250,160,0

scenario other formats, and no room
ends 0 init w policy.toml
sql w UPDATE meta SET value = 0 WHERE name = 'format'
run status w
= failed: N2 old format
run load w product p1 p1.csv
= failed: N2 old format
sql w UPDATE meta SET value = 3 WHERE name = 'format'
run status w
= failed: N3 new format
run load w product p1 p1.csv
= failed: N3 new format
sql w UPDATE meta SET value = 'one' WHERE name = 'format'
run status w
= failed: E7 damaged, meta
run load w product p1 p1.csv
= failed: E7 damaged, meta

# No room for one more command, for two records, for two sales.
sql w UPDATE meta SET value = 1 WHERE name = 'format'
file two.csv
> id,day,description,brand,category,department,launched,supplier
> P1,2024-01-10,Cola 1l,Acme,Drinks,Grocery,2019,North
> P1,2024-02-01,Cola 1l,Bolt,Drinks,Grocery,2019,North
sql w UPDATE meta SET value = 1 WHERE name = 'commands_max'
run load w product p1 two.csv
= refused: E6 full, commands
sql w UPDATE meta SET value = 9 WHERE name = 'commands_max'
sql w UPDATE meta SET value = 1 WHERE name = 'changes_max'
run load w product p1 two.csv
= refused: E6 full, changes
sql w UPDATE meta SET value = 1 WHERE name = 'facts_max'
run load w sales s1 s1.csv
= refused: E6 full, facts
run status w
= format 1
= commands 1
= changes 0
= facts 0
= members product 0 store 0 customer 0

scenario the file of the input is read first
run init w none.toml
= failed: F1 file, none.toml
run load w product p1 none.csv
= failed: F1 file, none.csv

scenario a file that is not connected
run init c1.csv none.toml
= failed: F1 file, none.toml
run init c1.csv policy.toml
= failed: F1 file, c1.csv
run load c1.csv product p1 p1.csv
= failed: F1 file, c1.csv
run status c1.csv
= failed: F1 file, c1.csv
"#;
