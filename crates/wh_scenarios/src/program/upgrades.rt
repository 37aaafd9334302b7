//! Upgrades of a warehouse's file, after the shop and its night.

pub const ALL: &str = r#"
scenario the night's warehouse, and a manifest
# In the first format the two tables have no rows.
run dump w fact2
= ticket,line,day,store_key,product_key,customer_key,store_durable,product_durable,customer_durable,profile,quantity,amount,cost,discount
run dump w void
= ticket,line,command

# The plan, whose last word names no file.
run plan w upgrade u1 none
= put meta format
= put command 21
= remove fact T0 1
= remove fact T1 1
= remove fact T2 1
= remove fact T4 1
= put fact2 T0 1
= put fact2 T1 1
= put fact2 T2 1
= put fact2 T4 1
= edits 10
run upgrade w u/1
= refused: E1 bad id
run upgrade w s1
= refused: E2 id reused
run upgrade w u1
= accepted 21 u1: 0 records, 0 placeholders
run upgrade w u1
= already 21 u1: 0 records, 0 placeholders
run plan w upgrade u1 none
= edits 0
run upgrade w u2
= refused: E6 format, 2
run plan w upgrade u2 none
= refused: E6 format, 2
run status w
= format 2
= commands 21
= changes 13
= facts 4
= members product 2 store 1 customer 2
run dump w fact
= ticket,line,day,store_key,product_key,customer_key,store_durable,product_durable,customer_durable,profile,quantity,amount,cost
run dump w meta
= name,value
= changes_max,1000000
= commands_max,100000
= facts_max,1000000
= format,2

# A sale with a discount.
file bad.csv
> ticket,line,day,store,product,customer,quantity,amount,cost,discount
> T5,1,2024-07-05,S1,P1,C9,2,5.00,3.20,-0.5
run load w sales s5 bad.csv
= refused: E3 batch, B7 bad number, record 1
file bad.csv
> ticket,line,day,store,product,customer,quantity,amount,cost
> T5,1,2024-07-05,S1,P1,C9,2,5.00,3.20
run load w sales s5 bad.csv
= refused: E3 batch, B2 wrong header, record 0
run load w sales s5 d5.csv
= accepted 22 s5: 1 records, 0 placeholders
run dump w fact2
= ticket,line,day,store_key,product_key,customer_key,store_durable,product_durable,customer_durable,profile,quantity,amount,cost,discount
= T0,1,20231231,1,1,0,1,1,0,0,1,250,160,0
= T1,1,20240205,1,3,0,1,1,0,0,2,500,320,0
= T2,1,20240610,1,9,1,1,2,1,2,1,1000,700,0
= T4,1,20240229,1,3,0,1,1,0,0,1,250,160,0
= T5,1,20240705,1,6,1,1,1,1,3,2,500,320,50
run dump w void
= ticket,line,command
run load w sales s1 s1.csv
= already 5 s1: 2 records, 1 placeholders

# Reports read the second table, and their text is the same.
report w date.month was 2023-01-01 2026-12-31
=    lines   quantity         amount           cost         margin  label
=        1          1           2.50           1.60           0.90  2023-12
=        2          3           7.50           4.80           2.70  2024-02
=        1          1          10.00           7.00           3.00  2024-06
=        1          2           5.00           3.20           1.80  2024-07
=        5          7          25.00          16.60           8.40  total
run check w
= clean

# Changed rows of the second format.
changed w UPDATE fact2 SET discount = 1000000000 WHERE ticket = 'T5'
> UPDATE fact2 SET discount = 50 WHERE ticket = 'T5'
= failed: E7 damaged, fact2
changed w UPDATE fact2 SET discount = 51 WHERE ticket = 'T5'
> UPDATE fact2 SET discount = 50 WHERE ticket = 'T5'
= wrong: fact2
changed w INSERT INTO void VALUES ('T5', 1, 22)
> DELETE FROM void
= wrong: void
changed w UPDATE meta SET value = 3 WHERE name = 'format'
> UPDATE meta SET value = 2 WHERE name = 'format'
= failed: N3 new format
changed w UPDATE meta SET value = 1 WHERE name = 'format'
> UPDATE meta SET value = 2 WHERE name = 'format'
= wrong: command
run check w
= clean

# Upgrades in a manifest, whose third field names no file that is read.
anew
file d2.csv
> ticket,line,day,store,product,customer,quantity,amount,cost,discount
> T2,1,2024-06-10,S1,P9,C9,1,10.00,7.00,1
file night.csv
> product,p1,p1.csv
> sales,s1,s1.csv
> upgrade,u1,none
> upgrade,u1,none
> upgrade,u2,none
> sales,s2,d2.csv
ends 0 init w policy.toml

# A name that the upgrade needs is taken: what stands behind it is delivered.
sql w CREATE TABLE void (a)
run deliver w night.csv
= accepted 2 p1: 1 records, 0 placeholders
= accepted 3 s1: 2 records, 1 placeholders
= refused: E11 not empty
= refused: E11 not empty
= refused: E11 not empty
= refused: E3 batch, B2 wrong header, record 0
run upgrade w u1
= refused: E11 not empty
run plan w upgrade u1 none
= refused: E11 not empty
sql w DROP TABLE void
run deliver w night.csv
= already 2 p1: 1 records, 0 placeholders
= already 3 s1: 2 records, 1 placeholders
= accepted 4 u1: 0 records, 0 placeholders
= already 4 u1: 0 records, 0 placeholders
= refused: E6 format, 2
= accepted 5 s2: 1 records, 2 placeholders
run dump w fact2
= ticket,line,day,store_key,product_key,customer_key,store_durable,product_durable,customer_durable,profile,quantity,amount,cost,discount
= T0,1,20231231,1,1,0,1,1,0,0,1,250,160,0
= T1,1,20240205,1,1,0,1,1,0,0,2,500,320,0
= T2,1,20240610,1,3,1,1,2,1,1,1,1000,700,100
"#;
