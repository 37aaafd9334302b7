//! What `explain` says of inputs that would be accepted and may be slips. The expected lines are worked by hand.

pub const ALL: &str = r#"
ends 0 init w flat.toml

scenario cells left empty
file p1.csv
> id,day,description,brand,category,department,launched,supplier
> P1,2024-01-01,Cola,Acme,Drinks,Food,2019,North
> P2,2024-01-01,Tea,,Drinks,Food,2020,
run load w product p1 p1.csv
= accepted 2 p1: 2 records, 0 placeholders
file p2.csv
> id,day,description,brand,category,department,launched,supplier
> P1,2024-07-01,Cola,Bolt,Drinks,Food,2019,West
run load w product p2 p2.csv
= accepted 3 p2: 1 records, 0 placeholders

# All but the original, which stays; what was empty before stays so; a new member had nothing.
file list.csv
> id,day,description,brand,category,department,launched,supplier
> P1,2024-08-01,,,,,,East
> P2,2024-08-01,,,,,,
> P3,2024-08-01,Jam,,,,,
run explain w product list.csv
= would be accepted: 3 records, 0 placeholders
= mentioned for the first time: product P3
= line 2: P1: empty, which replaces what was there by (none): description, brand, category, department
= line 3: P2: empty, which replaces what was there by (none): description, category, department

# Late news: the newest description and supplier stay. Before its first record a member was as in that.
file list.csv
> id,day,description,brand,category,department,launched,supplier
> P1,2024-03-01,,,,,,
> P1,2023-06-01,,,Drinks,Food,,
> P2,2023-06-01,,,,,,
run explain w product list.csv
= would be accepted: 3 records, 0 placeholders
= line 2: P1: empty, which replaces what was there by (none): brand, category, department
= line 3: P1: empty, which replaces what was there by (none): brand
= line 4: P2: empty, which replaces what was there by (none): category, department

# In place of a record of its day; behind one of its own batch, which has left the same out already.
file list.csv
> id,day,description,brand,category,department,launched,supplier
> P1,2024-07-01,Cola,,Drinks,Food,2019,West
> P1,2024-09-01,Cola,,Drinks,,2019,West
run explain w product list.csv
= would be accepted: 2 records, 0 placeholders
= line 2: P1: empty, which replaces what was there by (none): brand
= line 3: P1: empty, which replaces what was there by (none): department

# Another dimension's members have the same numbers.
file s1.csv
> id,day,city
> S1,2024-01-01,
run explain w store s1.csv
= would be accepted: 1 records, 0 placeholders
= mentioned for the first time: store S1

# Of 21 records the first 20 are told.
file cities.csv
> id,day,city
>* S{01-21},2024-01-01,Bern
run load w store s1 cities.csv
= accepted 4 s1: 21 records, 0 placeholders
file cities.csv
> id,day,city
>* S{01-21},2024-02-01,
run explain w store cities.csv
= would be accepted: 21 records, 0 placeholders
=* line {2-21}: S{01-20}: empty, which replaces what was there by (none): city
= and 1 more
run status w
= format 1
= commands 4
= changes 24
= facts 0
= members product 2 store 21 customer 0

# All kept records are read where a cell is empty: a damaged one is told, whichever member it is of.
sql w UPDATE change SET day = 0 WHERE command = 4 AND record = 21
file list.csv
> id,day,description,brand,category,department,launched,supplier
> P1,2024-08-01,,Bolt,Drinks,Food,2019,East
run explain w product list.csv
= failed: E7 damaged, change
file list.csv
> id,day,description,brand,category,department,launched,supplier
> P1,2024-08-01,Cola,Bolt,Drinks,Food,2019,East
run explain w product list.csv
= would be accepted: 1 records, 0 placeholders

scenario bytes of other code pages
# As they came from the till: alone, behind a byte that Latin-1 has, too, and with Latin-1 alone.
bytes c.csv id,day,city\nS1,2024-01-01,Z\x81rich\nS2,2024-01-01,5 \x80\nS3,2024-01-01,\xFC \x84\nS4,2024-01-01,Z\xFCrich\xA0\nS5,2024-01-01,K\x9F\n
run explain w store c.csv
= refused: E3 batch, B6 bad value, record 1
= line 2, column 3 "city": 'Z\x81rich' is no UTF-8 at byte 2; it looks like Windows-1252 or CP850: the byte 81 is ü in CP850
= line 3, column 3 "city": '5 \x80' is no UTF-8 at byte 3; it looks like Windows-1252 or CP850: the byte 80 is € in Windows-1252, Ç in CP850
= line 4, column 3 "city": '\xfc \x84' is no UTF-8 at byte 1; it looks like Windows-1252 or CP850: the byte 84 is „ in Windows-1252, ä in CP850
= line 5, column 3 "city": 'Z\xfcrich\xa0' is no UTF-8 at byte 2; it looks like Latin-1
= line 6, column 3 "city": 'K\x9f' is no UTF-8 at byte 2; it looks like Windows-1252 or CP850: the byte 9f is Ÿ in Windows-1252, ƒ in CP850
bytes h.csv id,day,Stra\xE1e K\x94ln\n
run explain w store h.csv
= refused: E3 batch, B2 wrong header, record 0
= line 1, column 3 "city": 'Stra\xe1e K\x94ln' stands there
= wanted: id,day,city
= there: id,day,Stra\xe1e K\x94ln
= the file looks like Windows-1252 or CP850: it is no UTF-8 at byte 12

# Made UTF-8 as if they were Latin-1: they are accepted, as the control characters that they then are.
bytes c.csv id,day,city\r\n\r\nS1,2024-01-01,Z\xC2\x81rich\r\nS2,2024-01-01,Z\xC3\xBCrich\r\nS3,2024-01-01,5 \xC2\x80 \xC2\x84\r\nS4,2024-01-01,\xC2\xA0\xC2\x9F\r\n
run explain w store c.csv
= would be accepted: 4 records, 0 placeholders
= mentioned for the first time: store S1, S2, S3, S4
= line 3, column 3 "city": 'Z\xc2\x81rich' has a control character at byte 2; the byte 81 is ü in CP850
= line 5, column 3 "city": '5 \xc2\x80 \xc2\x84' has a control character at byte 3; the byte 80 is € in Windows-1252, Ç in CP850
= line 6, column 3 "city": '\xc2\xa0\xc2\x9f' has a control character at byte 3; the byte 9f is Ÿ in Windows-1252, ƒ in CP850
bytes p.csv id,day,description,brand,category,department,launched,supplier\nP1,2024-01-01,K\xC2\x84se,Acme,Drinks,Food,2019,N\xC2\x94rdli\n
run explain w product p.csv
= would be accepted: 1 records, 0 placeholders
= mentioned for the first time: product P1
= line 2, column 3 "description": 'K\xc2\x84se' has a control character at byte 2; the byte 84 is „ in Windows-1252, ä in CP850
= line 2, column 8 "supplier": 'N\xc2\x94rdli' has a control character at byte 2; the byte 94 is ” in Windows-1252, ö in CP850
"#;
