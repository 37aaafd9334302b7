//! Dumps of the tables of a warehouse, and reports of what they can't read, under a policy of its own.

pub const ALL: &str = r#"
# Texts with commas and quotes, a text of 60 bytes that is no ASCII, and figures below nothing.
file small.toml
> first_year = 2024
> last_year = 2024
> [[product]]
> name = "label"
> type = 2
> [[store]]
> name = "city"
> type = 1
> [[customer]]
> name = "band"
> type = 5
> [[holiday]]
> day = "2024-12-25"
> name = 'Feast, "long"'
file tp.csv
> id,day,label
> P1,2024-01-10,"Tea, 50 ""Earl"""
> P2,2024-01-10,éééééééééééééééééééééééééééééé
> P1,2024-06-01,Tee
file tk.csv
> id,day,city
> S1,2024-01-01,Bern
file tc.csv
> id,day,band
> C1,2024-03-01,30-39
> C1,2024-09-01,
file ts.csv
> ticket,line,day,store,product,customer,quantity,amount,cost
> T1,1,2024-12-25,S1,P1,C1,1,2.00,1.00
> T1,2,2024-12-25,S1,P2,,-1,-0.05,0
> T2,1,2024-02-10,S1,P1,C1,3,6,3.5
> T2,10,2024-02-10,S1,P1,,2,0.00,0.01

scenario each table, and reports
ends 0 init w small.toml
run load w product p1 tp.csv
= accepted 2 p1: 3 records, 0 placeholders
run load w store k1 tk.csv
= accepted 3 k1: 1 records, 0 placeholders
run load w customer c1 tc.csv
= accepted 4 c1: 2 records, 0 placeholders
run load w sales s1 ts.csv
= accepted 5 s1: 4 records, 0 placeholders

# The calendar has 366 days and a header.
run dump w meta
= name,value
= changes_max,1000000
= commands_max,100000
= facts_max,1000000
= format,1
run dump w command
= number,id,kind,bytes,records,placeholders
= 1,init,init,66697273745f79656172203d20323032340a6c6173745f79656172203d20323032340a5b5b70726f647563745d5d0a6e616d65203d20226c6162656c220a74797065203d20320a5b5b73746f72655d5d0a6e616d65203d202263697479220a74797065203d20310a5b5b637573746f6d65725d5d0a6e616d65203d202262616e64220a74797065203d20350a5b5b686f6c696461795d5d0a646179203d2022323032342d31322d3235220a6e616d65203d202746656173742c20226c6f6e6722270a,0,0
= 2,p1,product,69642c6461792c6c6162656c0a50312c323032342d30312d31302c225465612c2035302022224561726c2222220a50322c323032342d30312d31302cc3a9c3a9c3a9c3a9c3a9c3a9c3a9c3a9c3a9c3a9c3a9c3a9c3a9c3a9c3a9c3a9c3a9c3a9c3a9c3a9c3a9c3a9c3a9c3a9c3a9c3a9c3a9c3a9c3a9c3a90a50312c323032342d30362d30312c5465650a,3,0
= 3,k1,store,69642c6461792c636974790a53312c323032342d30312d30312c4265726e0a,1,0
= 4,c1,customer,69642c6461792c62616e640a43312c323032342d30332d30312c33302d33390a43312c323032342d30392d30312c0a,2,0
= 5,s1,sales,7469636b65742c6c696e652c6461792c73746f72652c70726f647563742c637573746f6d65722c7175616e746974792c616d6f756e742c636f73740a54312c312c323032342d31322d32352c53312c50312c43312c312c322e30302c312e30300a54312c322c323032342d31322d32352c53312c50322c2c2d312c2d302e30352c300a54322c312c323032342d30322d31302c53312c50312c43312c332c362c332e350a54322c31302c323032342d30322d31302c53312c50312c2c322c302e30302c302e30310a,4,0
run dump w member
= dim,durable,natural,opening
= 1,1,P1,1
= 1,2,P2,3
= 2,1,S1,1
= 3,1,C1,1
run dump w change
= command,record,dim,durable,day,anchor,v1,v2,v3,v4,v5,v6
= 2,1,1,1,20240110,2,"Tea, 50 ""Earl""",,,,,
= 2,2,1,2,20240110,4,éééééééééééééééééééééééééééééé,,,,,
= 2,3,1,1,20240601,5,Tee,,,,,
= 3,1,2,1,20240101,2,Bern,,,,,
= 4,1,3,1,20240301,2,30-39,,,,,
= 4,2,3,1,20240901,3,(none),,,,,
run dump w product
= surrogate,durable,natural,from_day,to_day,is_current,a1,a2,a3,a4,a5,a6,b1,b2,b3,b4,b5,b6,profile_now
= 1,1,P1,19000101,20240531,0,"Tea, 50 ""Earl""",,,,,,,,,,,,0
= 3,2,P2,19000101,99991231,1,éééééééééééééééééééééééééééééé,,,,,,,,,,,,0
= 5,1,P1,20240601,99991231,1,Tee,,,,,,,,,,,,0
run dump w store
= surrogate,durable,natural,from_day,to_day,is_current,a1,a2,a3,a4,a5,a6,b1,b2,b3,b4,b5,b6,profile_now
= 1,1,S1,19000101,99991231,1,Bern,,,,,,,,,,,,0
run dump w customer
= surrogate,durable,natural,from_day,to_day,is_current,a1,a2,a3,a4,a5,a6,b1,b2,b3,b4,b5,b6,profile_now
= 0,0,(no card),19000101,99991231,1,,,,,,,,,,,,,0
= 1,1,C1,19000101,99991231,1,,,,,,,,,,,,,3
run dump w profile
= number,v1,v2,v3,v4,v5,v6
= 0,(no card),,,,,
= 1,(unknown),,,,,
= 2,30-39,,,,,
= 3,(none),,,,,
lines dump w calendar
= 367 lines
run dump w fact
= ticket,line,day,store_key,product_key,customer_key,store_durable,product_durable,customer_durable,profile,quantity,amount,cost
= T1,1,20241225,1,5,1,1,1,1,3,1,200,100
= T1,2,20241225,1,3,0,1,2,0,0,-1,-5,0
= T2,1,20240210,1,1,1,1,1,1,2,3,600,350
= T2,10,20240210,1,1,0,1,1,0,0,2,0,1

# Labels are not quoted, and stand in order of their bytes.
report w product.label was 2024-01-01 2024-12-31
=    lines   quantity         amount           cost         margin  label
=        2          5           6.00           3.51           2.49  Tea, 50 "Earl"
=        1          1           2.00           1.00           1.00  Tee
=        1         -1          -0.05           0.00          -0.05  éééééééééééééééééééééééééééééé
=        4          5           7.95           4.51           3.44  total
report w store.city was 2024-01-01 2024-12-31
=    lines   quantity         amount           cost         margin  label
=        4          5           7.95           4.51           3.44  Bern
=        4          5           7.95           4.51           3.44  total
report w customer.band was 2024-01-01 2024-12-31
=    lines   quantity         amount           cost         margin  label
=        2          1          -0.05           0.01          -0.06  (no card)
=        1          1           2.00           1.00           1.00  (none)
=        1          3           6.00           3.50           2.50  30-39
=        4          5           7.95           4.51           3.44  total
report w customer.band is 2024-01-01 2024-12-31
=    lines   quantity         amount           cost         margin  label
=        2          1          -0.05           0.01          -0.06  (no card)
=        2          4           8.00           4.50           3.50  (none)
=        4          5           7.95           4.51           3.44  total
report w date.holiday was 2024-01-01 2024-12-31
=    lines   quantity         amount           cost         margin  label
=        2          5           6.00           3.51           2.49  (none)
=        2          0           1.95           1.00           0.95  Feast, "long"
=        4          5           7.95           4.51           3.44  total
report w date.month is 2024-01-01 2024-12-31
=    lines   quantity         amount           cost         margin  label
=        2          5           6.00           3.51           2.49  2024-02
=        2          0           1.95           1.00           0.95  2024-12
=        4          5           7.95           4.51           3.44  total

# Another warehouse, under another name.
ends 0 init u small.toml
run load u store k1 tk.csv
= accepted 2 k1: 1 records, 0 placeholders
run dump u store
= surrogate,durable,natural,from_day,to_day,is_current,a1,a2,a3,a4,a5,a6,b1,b2,b3,b4,b5,b6,profile_now
= 1,1,S1,19000101,99991231,1,Bern,,,,,,,,,,,,0
report u store.city is 2024-01-01 2024-12-31
=    lines   quantity         amount           cost         margin  label
=        0          0           0.00           0.00           0.00  total
run report u store.town is 2024-01-01 2024-12-31
= refused: G1 no attribute

# A damaged row of a table is met by its dump and by reports that read it, and by no other.
sql w UPDATE store SET to_day = 20240332
run dump w store
= surrogate,durable,natural,from_day,to_day,is_current,a1,a2,a3,a4,a5,a6,b1,b2,b3,b4,b5,b6,profile_now
= failed: E7 damaged, store
run report w store.city is 2024-01-01 2024-12-31
= failed: E7 damaged, store
run dump w profile
= number,v1,v2,v3,v4,v5,v6
= 0,(no card),,,,,
= 1,(unknown),,,,,
= 2,30-39,,,,,
= 3,(none),,,,,
report w customer.band was 2024-01-01 2024-12-31
=    lines   quantity         amount           cost         margin  label
=        2          1          -0.05           0.01          -0.06  (no card)
=        1          1           2.00           1.00           1.00  (none)
=        1          3           6.00           3.50           2.50  30-39
=        4          5           7.95           4.51           3.44  total
run report w store.town is 2024-01-01 2024-12-31
= refused: G1 no attribute
sql w UPDATE store SET to_day = 99991231
# A report reads of a fact its day, one key and the measures, and meets no damage elsewhere.
sql w UPDATE fact SET line = 0 WHERE line = 1
run dump w fact
= ticket,line,day,store_key,product_key,customer_key,store_durable,product_durable,customer_durable,profile,quantity,amount,cost
= failed: E7 damaged, fact
report w store.city is 2024-01-01 2024-12-31
=    lines   quantity         amount           cost         margin  label
=        4          5           7.95           4.51           3.44  Bern
=        4          5           7.95           4.51           3.44  total
sql w UPDATE fact SET line = 1 WHERE line = 0
sql w UPDATE fact SET quantity = 'two'
run dump w fact
= ticket,line,day,store_key,product_key,customer_key,store_durable,product_durable,customer_durable,profile,quantity,amount,cost
= failed: E7 damaged, fact
run report w store.city is 2024-01-01 2024-12-31
= failed: E7 damaged, fact
run dump w store
= surrogate,durable,natural,from_day,to_day,is_current,a1,a2,a3,a4,a5,a6,b1,b2,b3,b4,b5,b6,profile_now
= 1,1,S1,19000101,99991231,1,Bern,,,,,,,,,,,,0
sql w UPDATE product SET from_day = 20240332
run report w product.label was 2024-01-01 2024-12-31
= failed: E7 damaged, product
run dump w product
= surrogate,durable,natural,from_day,to_day,is_current,a1,a2,a3,a4,a5,a6,b1,b2,b3,b4,b5,b6,profile_now
= failed: E7 damaged, product

scenario a row that a fact names for its label isn't there, where a sale of the range asks for it
ends 0 init w small.toml
ends 0 load w product p1 tp.csv
ends 0 load w store k1 tk.csv
ends 0 load w customer c1 tc.csv
ends 0 load w sales s1 ts.csv
sql w DELETE FROM product WHERE surrogate = 1
run report w product.label was 2024-01-01 2024-12-31
= failed: E7 damaged, product
report w product.label was 2024-12-01 2024-12-31
=    lines   quantity         amount           cost         margin  label
=        1          1           2.00           1.00           1.00  Tee
=        1         -1          -0.05           0.00          -0.05  éééééééééééééééééééééééééééééé
=        2          0           1.95           1.00           0.95  total
report w store.city was 2024-01-01 2024-12-31
=    lines   quantity         amount           cost         margin  label
=        4          5           7.95           4.51           3.44  Bern
=        4          5           7.95           4.51           3.44  total
sql w DELETE FROM calendar WHERE date_key = 20240210
run report w date.month is 2024-01-01 2024-12-31
= failed: E7 damaged, calendar
run report w date.holiday was 2024-02-10 2024-02-10
= failed: E7 damaged, calendar
report w date.holiday was 2024-02-11 2024-12-31
=    lines   quantity         amount           cost         margin  label
=        2          0           1.95           1.00           0.95  Feast, "long"
=        2          0           1.95           1.00           0.95  total
sql w DELETE FROM profile WHERE number = 3
run report w customer.band was 2024-01-01 2024-12-31
= failed: E7 damaged, profile
report w customer.band was 2024-01-01 2024-11-30
=    lines   quantity         amount           cost         margin  label
=        1          2           0.00           0.01          -0.01  (no card)
=        1          3           6.00           3.50           2.50  30-39
=        2          5           6.00           3.51           2.49  total
sql w DELETE FROM customer WHERE surrogate = 1
run report w customer.band is 2024-01-01 2024-12-31
= failed: E7 damaged, customer
sql w DELETE FROM store
run report w store.city was 2024-01-01 2024-12-31
= failed: E7 damaged, store
report w store.city was 2024-01-01 2024-01-31
=    lines   quantity         amount           cost         margin  label
=        0          0           0.00           0.00           0.00  total
run dump w store
= surrogate,durable,natural,from_day,to_day,is_current,a1,a2,a3,a4,a5,a6,b1,b2,b3,b4,b5,b6,profile_now

# As many such sales of one day as the calendar has days.
scenario figures that are wider than their columns
ends 0 init w policy.toml
run load w sales s2 s2.csv
= accepted 2 s2: 1 records, 3 placeholders
sql w INSERT INTO fact SELECT iso, 1, 20240229, 1, 1, 0, 1, 1, 0, 0, 9999, -999999999, 999999999 FROM calendar
report w customer.tier was 2023-01-01 2026-12-31
=    lines   quantity         amount           cost         margin  label
=     1461   14608539 -14609999985.39 14609999985.39 -29219999970.78  (no card)
=        1          1          10.00           7.00           3.00  (unknown)
=     1462   14608540 -14609999975.39 14609999992.39 -29219999967.78  total
report w date.month is 2024-02-29 2024-02-29
=    lines   quantity         amount           cost         margin  label
=     1461   14608539 -14609999985.39 14609999985.39 -29219999970.78  2024-02
=     1461   14608539 -14609999985.39 14609999985.39 -29219999970.78  total
# The facts of 1,461 days and one more, and the header.
lines dump w fact
= 1463 lines

# It takes a byte a call, and fails from a call on, or at a call alone: what went out is a beginning.
scenario a writer that fails under a dump
file year.toml
> first_year = 2024
> last_year = 2024
> [[product]]
> name = "brand"
> type = 2
> [[store]]
> name = "city"
> type = 2
> [[customer]]
> name = "tier"
> type = 2
file b1.csv
> id,day,brand
> P1,2024-01-10,Acme
ends 0 init f year.toml
run load f product b1 b1.csv
= accepted 2 b1: 1 records, 0 placeholders
run dump f command
= number,id,kind,bytes,records,placeholders
= 1,init,init,66697273745f79656172203d20323032340a6c6173745f79656172203d20323032340a5b5b70726f647563745d5d0a6e616d65203d20226272616e64220a74797065203d20320a5b5b73746f72655d5d0a6e616d65203d202263697479220a74797065203d20320a5b5b637573746f6d65725d5d0a6e616d65203d202274696572220a74797065203d20320a,0,0
= 2,b1,product,69642c6461792c6272616e640a50312c323032342d30312d31302c41636d650a,1,0
# The 421 bytes of this dump.
breaks 1 dump f command
= 421 calls
= a beginning, and then failed: G4 write where it can be written, status 3
"#;
