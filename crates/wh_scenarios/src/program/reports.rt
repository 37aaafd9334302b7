//! Reports and dumps of a warehouse that is sent the batches of the shop, one by one.

pub const ALL: &str = r#"
scenario worked, batch by batch
# A warehouse is made once. A batch without records, and one of no bytes.
run init w policy.toml
= accepted 1 init: 0 records, 0 placeholders
run init w policy.toml
= refused: E11 not empty
run dump w member
= dim,durable,natural,opening
run dump w change
= command,record,dim,durable,day,anchor,v1,v2,v3,v4,v5,v6
run dump w fact
= ticket,line,day,store_key,product_key,customer_key,store_durable,product_durable,customer_durable,profile,quantity,amount,cost
run dump w product
= surrogate,durable,natural,from_day,to_day,is_current,a1,a2,a3,a4,a5,a6,b1,b2,b3,b4,b5,b6,profile_now
run dump w store
= surrogate,durable,natural,from_day,to_day,is_current,a1,a2,a3,a4,a5,a6,b1,b2,b3,b4,b5,b6,profile_now
run dump w customer
= surrogate,durable,natural,from_day,to_day,is_current,a1,a2,a3,a4,a5,a6,b1,b2,b3,b4,b5,b6,profile_now
= 0,0,(no card),19000101,99991231,1,(no card),,,,,,,,,,,,0
run dump w profile
= number,v1,v2,v3,v4,v5,v6
= 0,,(no card),(no card),,,
= 1,,(unknown),(unknown),,,
run dump w meta
= name,value
= changes_max,1000000
= commands_max,100000
= facts_max,1000000
= format,1
report w product.brand was 2023-01-01 2026-12-31
=    lines   quantity         amount           cost         margin  label
=        0          0           0.00           0.00           0.00  total
run load w product p0 p0.csv
= accepted 2 p0: 0 records, 0 placeholders
run load w product p00 empty.csv
= refused: E3 batch, B2 wrong header, record 0

# A brand that changes: the number 2 was drawn by the earliest day, and no row begins there.
run load w product p1 p1.csv
= accepted 3 p1: 1 records, 0 placeholders
run load w product p2 p2.csv
= accepted 4 p2: 1 records, 0 placeholders
run dump w product
= surrogate,durable,natural,from_day,to_day,is_current,a1,a2,a3,a4,a5,a6,b1,b2,b3,b4,b5,b6,profile_now
= 1,1,P1,19000101,20240131,0,Cola 1l,Acme,Drinks,Grocery,2019,North,,,Drinks,,,(none),0
= 3,1,P1,20240201,99991231,1,Cola 1l,Bolt,Drinks,Grocery,2019,North,,,Drinks,,,(none),0

# Sales of two days, in a store that no record describes.
run load w sales s1 s1.csv
= accepted 5 s1: 2 records, 1 placeholders
run dump w fact
= ticket,line,day,store_key,product_key,customer_key,store_durable,product_durable,customer_durable,profile,quantity,amount,cost
= T0,1,20231231,1,1,0,1,1,0,0,1,250,160
= T1,1,20240205,1,3,0,1,1,0,0,2,500,320

# A record of a day between: a row ends earlier, another takes the place of the one behind it, and a sale follows.
run plan w product p3 p3.csv
= put command 6
= put change 6 1
= put product 1
= remove product 3
= put product 4
= rekey fact T1 1
= edits 6
run load w product p3 p3.csv
= accepted 6 p3: 1 records, 0 placeholders
table w product surrogate from_day to_day is_current a2
= surrogate,from_day,to_day,is_current,a2
= 1,19000101,20240119,0,Acme
= 4,20240120,99991231,1,Bolt
table w fact ticket day product_key
= ticket,day,product_key
= T0,20231231,1
= T1,20240205,4

# Another brand from a day that has a record: its row comes back under its number.
run load w product p4 p4.csv
= accepted 7 p4: 1 records, 0 placeholders
table w product surrogate from_day to_day is_current a2
= surrogate,from_day,to_day,is_current,a2
= 1,19000101,20240119,0,Acme
= 3,20240201,99991231,1,Cask
= 4,20240120,20240131,0,Bolt
table w fact ticket day product_key
= ticket,day,product_key
= T0,20231231,1
= T1,20240205,3

# A text that is overwritten shows on all rows, and none begins.
run plan w product p5 p5.csv
= put command 8
= put change 8 1
= put product 1
= put product 3
= put product 4
= edits 5
run load w product p5 p5.csv
= accepted 8 p5: 1 records, 0 placeholders
table w product surrogate from_day a1 a2
= surrogate,from_day,a1,a2
= 1,19000101,Cola 1 l,Acme
= 3,20240201,Cola 1 l,Cask
= 4,20240120,Cola 1 l,Bolt

# Another category begins a row, and stands as the newest in all.
run load w product p6 p6.csv
= accepted 9 p6: 1 records, 0 placeholders
table w product surrogate from_day to_day is_current a3 b3
= surrogate,from_day,to_day,is_current,a3,b3
= 1,19000101,20240119,0,Drinks,Soft drinks
= 3,20240201,20240331,0,Drinks,Soft drinks
= 4,20240120,20240131,0,Drinks,Soft drinks
= 6,20240401,99991231,1,Soft drinks,Soft drinks

# Suppliers and what they were before; a record of an earlier day leaves the newest supplier.
run load w product p7 p7.csv
= accepted 10 p7: 1 records, 0 placeholders
table w product surrogate from_day a5 a6 b6
= surrogate,from_day,a5,a6,b6
= 1,19000101,2019,South,North
= 3,20240201,2019,South,North
= 4,20240120,2019,South,North
= 6,20240401,2019,South,North
run load w product p8 p8.csv
= accepted 11 p8: 1 records, 0 placeholders
table w product surrogate from_day a5 a6 b6
= surrogate,from_day,a5,a6,b6
= 1,19000101,2019,South,East
= 3,20240201,2019,South,East
= 4,20240120,2019,South,East
= 6,20240401,2019,South,East

# A sale is the first to mention a product and a customer.
run plan w sales s2 s2.csv
= put command 12
= put member 1 2
= put member 3 1
= put product 9
= put customer 1
= put fact T2 1
= edits 6
run load w sales s2 s2.csv
= accepted 12 s2: 1 records, 2 placeholders
run dump w product
= surrogate,durable,natural,from_day,to_day,is_current,a1,a2,a3,a4,a5,a6,b1,b2,b3,b4,b5,b6,profile_now
= 1,1,P1,19000101,20240119,0,Cola 1 l,Acme,Drinks,Grocery,2019,South,,,Soft drinks,,,East,0
= 3,1,P1,20240201,20240331,0,Cola 1 l,Cask,Drinks,Grocery,2019,South,,,Soft drinks,,,East,0
= 4,1,P1,20240120,20240131,0,Cola 1 l,Bolt,Drinks,Grocery,2019,South,,,Soft drinks,,,East,0
= 6,1,P1,20240401,99991231,1,Cola 1 l,Cask,Soft drinks,Grocery,2019,South,,,Soft drinks,,,East,0
= 9,2,P9,19000101,99991231,1,(unknown),(unknown),(unknown),(unknown),(unknown),(unknown),,,(unknown),,,(none),0
run dump w customer
= surrogate,durable,natural,from_day,to_day,is_current,a1,a2,a3,a4,a5,a6,b1,b2,b3,b4,b5,b6,profile_now
= 0,0,(no card),19000101,99991231,1,(no card),,,,,,,,,,,,0
= 1,1,C9,19000101,99991231,1,(unknown),,,,,,,,,,,,1
run dump w fact
= ticket,line,day,store_key,product_key,customer_key,store_durable,product_durable,customer_durable,profile,quantity,amount,cost
= T0,1,20231231,1,1,0,1,1,0,0,1,250,160
= T1,1,20240205,1,3,0,1,1,0,0,2,500,320
= T2,1,20240610,1,9,1,1,2,1,1,1,1000,700
run dump w profile
= number,v1,v2,v3,v4,v5,v6
= 0,,(no card),(no card),,,
= 1,,(unknown),(unknown),,,
run dump w member
= dim,durable,natural,opening
= 1,1,P1,1
= 1,2,P9,9
= 2,1,S1,1
= 3,1,C9,1
report w product.brand was 2023-01-01 2026-12-31
=    lines   quantity         amount           cost         margin  label
=        1          1          10.00           7.00           3.00  (unknown)
=        1          1           2.50           1.60           0.90  Acme
=        1          2           5.00           3.20           1.80  Cask
=        3          4          17.50          11.80           5.70  total
report w customer.age_band was 2023-01-01 2026-12-31
=    lines   quantity         amount           cost         margin  label
=        2          3           7.50           4.80           2.70  (no card)
=        1          1          10.00           7.00           3.00  (unknown)
=        3          4          17.50          11.80           5.70  total

# Records fill the rows of both, under their numbers. The customer's bands give the sale another profile.
run load w product p9 p9.csv
= accepted 13 p9: 1 records, 0 placeholders
run dump w product
= surrogate,durable,natural,from_day,to_day,is_current,a1,a2,a3,a4,a5,a6,b1,b2,b3,b4,b5,b6,profile_now
= 1,1,P1,19000101,20240119,0,Cola 1 l,Acme,Drinks,Grocery,2019,South,,,Soft drinks,,,East,0
= 3,1,P1,20240201,20240331,0,Cola 1 l,Cask,Drinks,Grocery,2019,South,,,Soft drinks,,,East,0
= 4,1,P1,20240120,20240131,0,Cola 1 l,Bolt,Drinks,Grocery,2019,South,,,Soft drinks,,,East,0
= 6,1,P1,20240401,99991231,1,Cola 1 l,Cask,Soft drinks,Grocery,2019,South,,,Soft drinks,,,East,0
= 9,2,P9,19000101,99991231,1,Tea 50,Leaf,Drinks,Grocery,2024,North,,,Drinks,,,(none),0
table w fact ticket day product_key product_durable profile
= ticket,day,product_key,product_durable,profile
= T0,20231231,1,1,0
= T1,20240205,3,1,0
= T2,20240610,9,2,1
run plan w customer c1 c1.csv
= put command 14
= put change 14 1
= put customer 1
= put profile 2
= rekey fact T2 1
= edits 5
run load w customer c1 c1.csv
= accepted 14 c1: 1 records, 0 placeholders
run dump w customer
= surrogate,durable,natural,from_day,to_day,is_current,a1,a2,a3,a4,a5,a6,b1,b2,b3,b4,b5,b6,profile_now
= 0,0,(no card),19000101,99991231,1,(no card),,,,,,,,,,,,0
= 1,1,C9,19000101,99991231,1,Gold,,,,,,,,,,,,2
table w fact ticket day customer_key profile
= ticket,day,customer_key,profile
= T0,20231231,0,0
= T1,20240205,0,0
= T2,20240610,1,2
run dump w profile
= number,v1,v2,v3,v4,v5,v6
= 0,,(no card),(no card),,,
= 1,,(unknown),(unknown),,,
= 2,,30-39,high,,,

# A later band: the sale keeps its profile. A report by the bands of the day of sale, and by the newest.
run load w customer c2 c2.csv
= accepted 15 c2: 1 records, 0 placeholders
run dump w customer
= surrogate,durable,natural,from_day,to_day,is_current,a1,a2,a3,a4,a5,a6,b1,b2,b3,b4,b5,b6,profile_now
= 0,0,(no card),19000101,99991231,1,(no card),,,,,,,,,,,,0
= 1,1,C9,19000101,99991231,1,Gold,,,,,,,,,,,,3
table w fact ticket day customer_key profile
= ticket,day,customer_key,profile
= T0,20231231,0,0
= T1,20240205,0,0
= T2,20240610,1,2
run dump w profile
= number,v1,v2,v3,v4,v5,v6
= 0,,(no card),(no card),,,
= 1,,(unknown),(unknown),,,
= 2,,30-39,high,,,
= 3,,40-49,high,,,
run dump w change
= command,record,dim,durable,day,anchor,v1,v2,v3,v4,v5,v6
= 3,1,1,1,20240110,2,Cola 1l,Acme,Drinks,Grocery,2019,North
= 4,1,1,1,20240201,3,Cola 1l,Bolt,Drinks,Grocery,2019,North
= 6,1,1,1,20240120,4,Cola 1l,Bolt,Drinks,Grocery,2019,North
= 7,1,1,1,20240201,3,Cola 1l,Cask,Drinks,Grocery,2019,North
= 8,1,1,1,20240301,5,Cola 1 l,Cask,Drinks,Grocery,2019,North
= 9,1,1,1,20240401,6,Cola 1 l,Cask,Soft drinks,Grocery,2019,North
= 10,1,1,1,20240601,7,Cola 1 l,Cask,Soft drinks,Grocery,2021,South
= 11,1,1,1,20240501,8,Cola 1 l,Cask,Soft drinks,Grocery,2019,East
= 13,1,1,2,20240605,10,Tea 50,Leaf,Drinks,Grocery,2024,North
= 14,1,3,1,20240608,2,Gold,30-39,high,,,
= 15,1,3,1,20240701,3,Gold,40-49,high,,,
report w customer.age_band was 2023-01-01 2026-12-31
=    lines   quantity         amount           cost         margin  label
=        2          3           7.50           4.80           2.70  (no card)
=        1          1          10.00           7.00           3.00  30-39
=        3          4          17.50          11.80           5.70  total
report w customer.age_band is 2023-01-01 2026-12-31
=    lines   quantity         amount           cost         margin  label
=        2          3           7.50           4.80           2.70  (no card)
=        1          1          10.00           7.00           3.00  40-49
=        3          4          17.50          11.80           5.70  total

# A writer that takes a byte a call, and fails from a call on, or at a call alone: the report has 343 bytes.
breaks 1 report w customer.age_band was 2023-01-01 2026-12-31
= 343 calls
= a beginning, and then failed: G4 write where it can be written, status 3

# The brand is overwritten from now on, and then tracked again. A policy that exchanges two attributes doesn't fit.
run plan w migrate m1 m1.toml
= put command 16
= put product 1
= remove product 3
= remove product 4
= rekey fact T1 1
= edits 5
run migrate w m1 m1.toml
= accepted 16 m1: 0 records, 0 placeholders
run dump w product
= surrogate,durable,natural,from_day,to_day,is_current,a1,a2,a3,a4,a5,a6,b1,b2,b3,b4,b5,b6,profile_now
= 1,1,P1,19000101,20240331,0,Cola 1 l,Cask,Drinks,Grocery,2019,South,,,Soft drinks,,,East,0
= 6,1,P1,20240401,99991231,1,Cola 1 l,Cask,Soft drinks,Grocery,2019,South,,,Soft drinks,,,East,0
= 9,2,P9,19000101,99991231,1,Tea 50,Leaf,Drinks,Grocery,2024,North,,,Drinks,,,(none),0
table w fact ticket day product_key profile
= ticket,day,product_key,profile
= T0,20231231,1,0
= T1,20240205,1,0
= T2,20240610,9,2
report w product.brand is 2023-01-01 2026-12-31
=    lines   quantity         amount           cost         margin  label
=        2          3           7.50           4.80           2.70  Cask
=        1          1          10.00           7.00           3.00  Leaf
=        3          4          17.50          11.80           5.70  total
report w product.brand was 2023-01-01 2026-12-31
=    lines   quantity         amount           cost         margin  label
=        2          3           7.50           4.80           2.70  Cask
=        1          1          10.00           7.00           3.00  Leaf
=        3          4          17.50          11.80           5.70  total
run migrate w m2 policy.toml
= accepted 17 m2: 0 records, 0 placeholders
run dump w product
= surrogate,durable,natural,from_day,to_day,is_current,a1,a2,a3,a4,a5,a6,b1,b2,b3,b4,b5,b6,profile_now
= 1,1,P1,19000101,20240119,0,Cola 1 l,Acme,Drinks,Grocery,2019,South,,,Soft drinks,,,East,0
= 3,1,P1,20240201,20240331,0,Cola 1 l,Cask,Drinks,Grocery,2019,South,,,Soft drinks,,,East,0
= 4,1,P1,20240120,20240131,0,Cola 1 l,Bolt,Drinks,Grocery,2019,South,,,Soft drinks,,,East,0
= 6,1,P1,20240401,99991231,1,Cola 1 l,Cask,Soft drinks,Grocery,2019,South,,,Soft drinks,,,East,0
= 9,2,P9,19000101,99991231,1,Tea 50,Leaf,Drinks,Grocery,2024,North,,,Drinks,,,(none),0
table w fact ticket day product_key profile
= ticket,day,product_key,profile
= T0,20231231,1,0
= T1,20240205,3,0
= T2,20240610,9,2
run migrate w m3 m3.toml
= refused: E5 policy does not fit
report w product.brand was 2023-01-01 2026-12-31
=    lines   quantity         amount           cost         margin  label
=        1          1           2.50           1.60           0.90  Acme
=        1          2           5.00           3.20           1.80  Cask
=        1          1          10.00           7.00           3.00  Leaf
=        3          4          17.50          11.80           5.70  total

# A batch again, another under its id, and a sale of a line that is there.
run load w product p1 p1.csv
= already 3 p1: 1 records, 0 placeholders
run load w product p1 p1x.csv
= refused: E2 id reused
run load w sales s3 s3.csv
= refused: E6 line there, record 2
table w fact ticket line quantity amount cost
= ticket,line,quantity,amount,cost
= T0,1,1,250,160
= T1,1,2,500,320
= T2,1,1,1000,700

# A day of a leap year, no day, and a day that the calendar hasn't got.
run load w sales s4 s4.csv
= accepted 18 s4: 1 records, 0 placeholders
run dump w fact
= ticket,line,day,store_key,product_key,customer_key,store_durable,product_durable,customer_durable,profile,quantity,amount,cost
= T0,1,20231231,1,1,0,1,1,0,0,1,250,160
= T1,1,20240205,1,3,0,1,1,0,0,2,500,320
= T2,1,20240610,1,9,1,1,2,1,2,1,1000,700
= T4,1,20240229,1,3,0,1,1,0,0,1,250,160
run load w sales s5 s5.csv
= refused: E3 batch, B5 bad day, record 1
run load w sales s6 s6.csv
= refused: E3 batch, B9 outside calendar, record 1

# By attributes of each type, in each mode that it has a reading in.
run report w product.brand is 2023-01-01 2026-12-31
= refused: G2 no reading, type 2 is
report w product.category was 2023-01-01 2026-12-31
=    lines   quantity         amount           cost         margin  label
=        4          5          20.00          13.40           6.60  Drinks
=        4          5          20.00          13.40           6.60  total
report w product.category is 2023-01-01 2026-12-31
=    lines   quantity         amount           cost         margin  label
=        1          1          10.00           7.00           3.00  Drinks
=        3          4          10.00           6.40           3.60  Soft drinks
=        4          5          20.00          13.40           6.60  total
report w product.supplier is 2023-01-01 2026-12-31
=    lines   quantity         amount           cost         margin  label
=        1          1          10.00           7.00           3.00  North
=        3          4          10.00           6.40           3.60  South
=        4          5          20.00          13.40           6.60  total
report w product.supplier prior 2023-01-01 2026-12-31
=    lines   quantity         amount           cost         margin  label
=        1          1          10.00           7.00           3.00  (none)
=        3          4          10.00           6.40           3.60  East
=        4          5          20.00          13.40           6.60  total
report w date.month was 2023-01-01 2026-12-31
=    lines   quantity         amount           cost         margin  label
=        1          1           2.50           1.60           0.90  2023-12
=        2          3           7.50           4.80           2.70  2024-02
=        1          1          10.00           7.00           3.00  2024-06
=        4          5          20.00          13.40           6.60  total
report w date.month is 2023-01-01 2026-12-31
=    lines   quantity         amount           cost         margin  label
=        1          1           2.50           1.60           0.90  2023-12
=        2          3           7.50           4.80           2.70  2024-02
=        1          1          10.00           7.00           3.00  2024-06
=        4          5          20.00          13.40           6.60  total
report w date.holiday was 2023-01-01 2026-12-31
=    lines   quantity         amount           cost         margin  label
=        4          5          20.00          13.40           6.60  (none)
=        4          5          20.00          13.40           6.60  total
report w date.holiday is 2023-01-01 2026-12-31
=    lines   quantity         amount           cost         margin  label
=        4          5          20.00          13.40           6.60  (none)
=        4          5          20.00          13.40           6.60  total
report w product.launched was 2023-01-01 2026-12-31
=    lines   quantity         amount           cost         margin  label
=        3          4          10.00           6.40           3.60  2019
=        1          1          10.00           7.00           3.00  2024
=        4          5          20.00          13.40           6.60  total
report w product.launched is 2023-01-01 2026-12-31
=    lines   quantity         amount           cost         margin  label
=        3          4          10.00           6.40           3.60  2019
=        1          1          10.00           7.00           3.00  2024
=        4          5          20.00          13.40           6.60  total
report w product.description was 2023-01-01 2026-12-31
=    lines   quantity         amount           cost         margin  label
=        3          4          10.00           6.40           3.60  Cola 1 l
=        1          1          10.00           7.00           3.00  Tea 50
=        4          5          20.00          13.40           6.60  total
report w product.description is 2023-01-01 2026-12-31
=    lines   quantity         amount           cost         margin  label
=        3          4          10.00           6.40           3.60  Cola 1 l
=        1          1          10.00           7.00           3.00  Tea 50
=        4          5          20.00          13.40           6.60  total
report w product.brand was 2023-01-01 2026-12-31
=    lines   quantity         amount           cost         margin  label
=        1          1           2.50           1.60           0.90  Acme
=        2          3           7.50           4.80           2.70  Cask
=        1          1          10.00           7.00           3.00  Leaf
=        4          5          20.00          13.40           6.60  total
report w product.department was 2023-01-01 2026-12-31
=    lines   quantity         amount           cost         margin  label
=        4          5          20.00          13.40           6.60  Grocery
=        4          5          20.00          13.40           6.60  total
report w product.department is 2023-01-01 2026-12-31
=    lines   quantity         amount           cost         margin  label
=        4          5          20.00          13.40           6.60  Grocery
=        4          5          20.00          13.40           6.60  total
report w store.city was 2023-01-01 2026-12-31
=    lines   quantity         amount           cost         margin  label
=        4          5          20.00          13.40           6.60  (unknown)
=        4          5          20.00          13.40           6.60  total
report w customer.tier was 2023-01-01 2026-12-31
=    lines   quantity         amount           cost         margin  label
=        3          4          10.00           6.40           3.60  (no card)
=        1          1          10.00           7.00           3.00  Gold
=        4          5          20.00          13.40           6.60  total
report w customer.spend_band was 2023-01-01 2026-12-31
=    lines   quantity         amount           cost         margin  label
=        3          4          10.00           6.40           3.60  (no card)
=        1          1          10.00           7.00           3.00  high
=        4          5          20.00          13.40           6.60  total
report w customer.spend_band is 2023-01-01 2026-12-31
=    lines   quantity         amount           cost         margin  label
=        3          4          10.00           6.40           3.60  (no card)
=        1          1          10.00           7.00           3.00  high
=        4          5          20.00          13.40           6.60  total
run report w date.month prior 2023-01-01 2026-12-31
= refused: G2 no reading, date prior

# No sale, a single day, and both ends of a range, which are included.
report w product.category was 2025-01-01 2025-12-31
=    lines   quantity         amount           cost         margin  label
=        0          0           0.00           0.00           0.00  total
report w product.category was 2024-02-29 2024-02-29
=    lines   quantity         amount           cost         margin  label
=        1          1           2.50           1.60           0.90  Drinks
=        1          1           2.50           1.60           0.90  total
report w date.month was 2024-02-05 2024-02-29
=    lines   quantity         amount           cost         margin  label
=        2          3           7.50           4.80           2.70  2024-02
=        2          3           7.50           4.80           2.70  total
report w date.month was 2024-02-06 2024-02-28
=    lines   quantity         amount           cost         margin  label
=        0          0           0.00           0.00           0.00  total
report w customer.age_band is 1900-01-01 9999-12-31
=    lines   quantity         amount           cost         margin  label
=        3          4          10.00           6.40           3.60  (no card)
=        1          1          10.00           7.00           3.00  40-49
=        4          5          20.00          13.40           6.60  total

# A mark in front and other ends of lines make another batch; bands that weren't given are a profile too.
run plan w customer c3 c3.csv
= put command 19
= put change 19 1
= edits 2
run load w customer c3 c3.csv
= accepted 19 c3: 1 records, 0 placeholders
run load w customer c4 c4.csv
= accepted 20 c4: 1 records, 0 placeholders
file c5.csv
> id,day,tier,age_band,spend_band
> C8,2024-07-01,xxxxxxxxxxxxxxxxxxxxxxxxxxxxxxxxxxxxxxxxxxxxxxxxxxxxxxxxxxxxx,,
run load w customer c5 c5.csv
= refused: E3 batch, B6 bad value, record 1
run dump w customer
= surrogate,durable,natural,from_day,to_day,is_current,a1,a2,a3,a4,a5,a6,b1,b2,b3,b4,b5,b6,profile_now
= 0,0,(no card),19000101,99991231,1,(no card),,,,,,,,,,,,0
= 1,1,C9,19000101,99991231,1,Gold,,,,,,,,,,,,3
= 4,2,C8,19000101,99991231,1,xxxxxxxxxxxxxxxxxxxxxxxxxxxxxxxxxxxxxxxxxxxxxxxxxxxxxxxxxxxx,,,,,,,,,,,,4
run dump w profile
= number,v1,v2,v3,v4,v5,v6
= 0,,(no card),(no card),,,
= 1,,(unknown),(unknown),,,
= 2,,30-39,high,,,
= 3,,40-49,high,,,
= 4,,(none),(none),,,
run dump w member
= dim,durable,natural,opening
= 1,1,P1,1
= 1,2,P9,9
= 2,1,S1,1
= 3,1,C9,1
= 3,2,C8,4
run dump w change
= command,record,dim,durable,day,anchor,v1,v2,v3,v4,v5,v6
= 3,1,1,1,20240110,2,Cola 1l,Acme,Drinks,Grocery,2019,North
= 4,1,1,1,20240201,3,Cola 1l,Bolt,Drinks,Grocery,2019,North
= 6,1,1,1,20240120,4,Cola 1l,Bolt,Drinks,Grocery,2019,North
= 7,1,1,1,20240201,3,Cola 1l,Cask,Drinks,Grocery,2019,North
= 8,1,1,1,20240301,5,Cola 1 l,Cask,Drinks,Grocery,2019,North
= 9,1,1,1,20240401,6,Cola 1 l,Cask,Soft drinks,Grocery,2019,North
= 10,1,1,1,20240601,7,Cola 1 l,Cask,Soft drinks,Grocery,2021,South
= 11,1,1,1,20240501,8,Cola 1 l,Cask,Soft drinks,Grocery,2019,East
= 13,1,1,2,20240605,10,Tea 50,Leaf,Drinks,Grocery,2024,North
= 14,1,3,1,20240608,2,Gold,30-39,high,,,
= 15,1,3,1,20240701,3,Gold,40-49,high,,,
= 19,1,3,1,20240701,3,Gold,40-49,high,,,
= 20,1,3,2,20240701,5,xxxxxxxxxxxxxxxxxxxxxxxxxxxxxxxxxxxxxxxxxxxxxxxxxxxxxxxxxxxx,(none),(none),,,
report w customer.age_band is 2023-01-01 2026-12-31
=    lines   quantity         amount           cost         margin  label
=        3          4          10.00           6.40           3.60  (no card)
=        1          1          10.00           7.00           3.00  40-49
=        4          5          20.00          13.40           6.60  total
run status w
= format 1
= commands 20
= changes 13
= facts 4
= members product 2 store 1 customer 2

# The calendar has a line for each day of four years, below the columns' names. Of two days.
lines dump w calendar
= 1462 lines
sql w DELETE FROM calendar WHERE date_key <> 20240229 AND date_key <> 20241225
run dump w calendar
= date_key,iso,year,quarter,month,day,day_of_year,weekday,weekday_name,weekend,holiday
= 20240229,2024-02-29,2024,1,2,29,60,4,Thursday,0,(none)
= 20241225,2024-12-25,2024,4,12,25,360,3,Wednesday,0,Christmas Day
"#;
