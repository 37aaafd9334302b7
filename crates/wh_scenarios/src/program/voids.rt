//! Voids of a warehouse's file, after the shop, its night and an upgrade.

pub const ALL: &str = r#"
ends 0 upgrade w u1
ends 0 load w sales s5 d5.csv

scenario the night's warehouse, and a manifest
run plan w void v1 v1.csv
= put command 23
= remove fact2 T1 1
= put void T1 1
= edits 3
run load w void v1 v1.csv
= accepted 23 v1: 1 records, 0 placeholders
run dump w void
= ticket,line,command
= T1,1,23
run dump w fact2
= ticket,line,day,store_key,product_key,customer_key,store_durable,product_durable,customer_durable,profile,quantity,amount,cost,discount
= T0,1,20231231,1,1,0,1,1,0,0,1,250,160,0
= T2,1,20240610,1,9,1,1,2,1,2,1,1000,700,0
= T4,1,20240229,1,3,0,1,1,0,0,1,250,160,0
= T5,1,20240705,1,6,1,1,1,1,3,2,500,320,50
report w date.month was 2023-01-01 2026-12-31
=    lines   quantity         amount           cost         margin  label
=        1          1           2.50           1.60           0.90  2023-12
=        1          1           2.50           1.60           0.90  2024-02
=        1          1          10.00           7.00           3.00  2024-06
=        1          2           5.00           3.20           1.80  2024-07
=        4          5          20.00          13.40           6.60  total
run load w void v2 v1.csv
= refused: E6 no line, record 1
file d6.csv
> ticket,line,day,store,product,customer,quantity,amount,cost,discount
> T1,1,2024-02-05,S1,P1,,2,5.00,3.20,0
run load w sales s6 d6.csv
= refused: E6 line there, record 1
run load w void v1 v1.csv
= already 23 v1: 1 records, 0 placeholders
run plan w void v1 v1.csv
= edits 0
run status w
= format 2
= commands 23
= changes 13
= facts 4
= members product 2 store 1 customer 2
run check w
= clean

# Faults of a batch.
file v3.csv
> ticket,line
> T2,0
run load w void v3 v3.csv
= refused: E3 batch, B7 bad number, record 1
file v3.csv
> ticket;line
> T2;1
run load w void v3 v3.csv
= refused: E3 batch, B2 wrong header, record 0
run load w void v3 none.csv
= failed: F1 file, none.csv

# Changed rows.
changed w UPDATE void SET command = 22 WHERE ticket = 'T1'
> UPDATE void SET command = 23 WHERE ticket = 'T1'
= wrong: void
changed w DELETE FROM void
> INSERT INTO void VALUES ('T1', 1, 23)
= wrong: void
changed w UPDATE void SET line = 0
> UPDATE void SET line = 1
= failed: E7 damaged, void
changed w INSERT INTO fact2 VALUES ('T1', 1, 20240205, 1, 3, 0, 1, 1, 0, 0, 2, 500, 320, 0)
> DELETE FROM fact2 WHERE ticket = 'T1'
= wrong: fact2
run check w
= clean

# Voids in a manifest, and in a warehouse of the first format.
anew
file night.csv
> sales,s1,s1.csv
> void,v0,v1.csv
> upgrade,u1,none
> void,v1,v1.csv
> void,v2,v1.csv
ends 0 init w policy.toml
run load w void v1 v1.csv
= refused: E3 batch, B10 not in format, record 0
run plan w void v1 v1.csv
= refused: E3 batch, B10 not in format, record 0
run deliver w night.csv
= accepted 2 s1: 2 records, 2 placeholders
= refused: E3 batch, B10 not in format, record 0
= accepted 3 u1: 0 records, 0 placeholders
= accepted 4 v1: 1 records, 0 placeholders
= refused: E6 no line, record 1
run dump w void
= ticket,line,command
= T1,1,4

# The night again.
run deliver w night.csv
= already 2 s1: 2 records, 2 placeholders
= refused: E6 no line, record 1
= already 3 u1: 0 records, 0 placeholders
= already 4 v1: 1 records, 0 placeholders
= refused: E6 no line, record 1
"#;
