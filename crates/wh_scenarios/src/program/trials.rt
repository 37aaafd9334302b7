//! Trials: tables, faults, the words around them, and a writer that fails.

pub const ALL: &str = r#"
# Two records of a product.
bytes p.csv id,day,description,brand\nP1,2024-01-10,Cola 1l,Acme\nP1,2024-02-01,Cola 1.0l,Bolt\n

scenario tables
# A product whose brand changed, and one of the first day.
run trial product p.csv
= surrogate,durable,natural,from_day,to_day,is_current,a1,a2,a3,a4,a5,a6,b1,b2,b3,b4,b5,b6,profile_now
= 1,1,P1,19000101,20240131,0,Cola 1.0l,Acme,,,,,,,,,,,0
= 3,1,P1,20240201,99991231,1,Cola 1.0l,Bolt,,,,,,,,,,,0
bytes p.csv id,day,description,brand\nP1,1900-01-01,Cola 1l,Acme
run trial product p.csv
= surrogate,durable,natural,from_day,to_day,is_current,a1,a2,a3,a4,a5,a6,b1,b2,b3,b4,b5,b6,profile_now
= 1,1,P1,19000101,99991231,1,Cola 1l,Acme,,,,,,,,,,,0

# No records.
bytes p.csv id,day,description,brand
run trial product p.csv
= surrogate,durable,natural,from_day,to_day,is_current,a1,a2,a3,a4,a5,a6,b1,b2,b3,b4,b5,b6,profile_now

# The row of sales without a card stands in front, under the key 0.
file p.csv
> id,day,tier
> C9,2024-06-08,Gold
run trial customer p.csv
= surrogate,durable,natural,from_day,to_day,is_current,a1,a2,a3,a4,a5,a6,b1,b2,b3,b4,b5,b6,profile_now
= 0,0,(no card),19000101,99991231,1,(no card),,,,,,,,,,,,0
= 1,1,C9,19000101,99991231,1,Gold,,,,,,,,,,,,0

# Members stand in order of first mention; a late record ends the row before it.
file p.csv
> id,day,city
> S2,2024-03-01,Bern
> S1,2024-01-01,Basel
> S2,2024-02-01,Chur
run trial store p.csv
= surrogate,durable,natural,from_day,to_day,is_current,a1,a2,a3,a4,a5,a6,b1,b2,b3,b4,b5,b6,profile_now
= 1,1,S2,19000101,20240229,0,Chur,,,,,,,,,,,,0
= 2,1,S2,20240301,99991231,1,Bern,,,,,,,,,,,,0
= 3,2,S1,19000101,99991231,1,Basel,,,,,,,,,,,,0

# A mark in front, and each end of a line.
bytes mark.csv \xEF\xBB\xBFid,day,description,brand\nP1,2024-01-10,Cola 1l,Acme\nP1,2024-02-01,Cola 1.0l,Bolt\n
bytes cr.csv id,day,description,brand\rP1,2024-01-10,Cola 1l,Acme\rP1,2024-02-01,Cola 1.0l,Bolt\r
bytes crlf.csv id,day,description,brand\r\nP1,2024-01-10,Cola 1l,Acme\r\nP1,2024-02-01,Cola 1.0l,Bolt\r\n
each trial product
> mark.csv
> cr.csv
> crlf.csv
= surrogate,durable,natural,from_day,to_day,is_current,a1,a2,a3,a4,a5,a6,b1,b2,b3,b4,b5,b6,profile_now
= 1,1,P1,19000101,20240131,0,Cola 1.0l,Acme,,,,,,,,,,,0
= 3,1,P1,20240201,99991231,1,Cola 1.0l,Bolt,,,,,,,,,,,0

# Five thousand records are the most. Each is a row, below the header.
many p.csv 5000
lines trial product p.csv
= 5001 lines

scenario faults
# A wrong header.
bytes p.csv
run trial product p.csv
= refused: E3 batch, B2 wrong header, record 0
bytes p.csv id,day,description\n
run trial product p.csv
= refused: E3 batch, B2 wrong header, record 0
bytes p.csv id,day,description,maker\n
run trial product p.csv
= refused: E3 batch, B2 wrong header, record 0

# A record of a wrong length.
bytes p.csv id,day,description,brand\nP1,2024-08-01,Cola
run trial product p.csv
= refused: E3 batch, B3 wrong length, record 1

# A bad field.
bytes p.csv id,day,description,brand\nP1,2024-08-01,a,b\nP 1,2024-08-01,a,b\n
run trial product p.csv
= refused: E3 batch, B4 bad key, record 2
bytes p.csv id,day,description,brand\nP1,2023-02-29,a,b\n
run trial product p.csv
= refused: E3 batch, B5 bad day, record 1
bytes p.csv id,day,description,brand\nP1,2024-08-01,(a,b\n
run trial product p.csv
= refused: E3 batch, B6 bad value, record 1

# A record that comes twice.
bytes p.csv id,day,description,brand\nP1,2024-08-01,a,b\nP1,2024-08-02,a,b\nP1,2024-08-01,c,d\n
run trial product p.csv
= refused: E3 batch, B8 twice in batch, record 3

# Too many records, and too many bytes.
many p.csv 5001
run trial product p.csv
= refused: E3 batch, B1 too large, record 5001
long p.csv 1000000
run trial product p.csv
= refused: E3 batch, B2 wrong header, record 0
long p.csv 1000001
run trial product p.csv
= refused: E3 batch, B1 too large, record 0
long p.csv 1000003
run trial product p.csv
= refused: E3 batch, B1 too large, record 0

scenario policies
# The original is the first value in order of acceptance; the prior value is that of the day before the newest that differs, also where it came last.
file p.csv
> id,day,description,brand,category,department,launched,supplier
> P1,2024-01-10,Cola 1l,Acme,Drinks,Grocery,,North
> P1,2024-04-01,Cola 1l,Acme,Soft drinks,Grocery,2019,North
> P1,2024-02-01,Cola 1l,Acme,Drinks,Food,2020,South
run trial product p.csv --policy flat.toml
= surrogate,durable,natural,from_day,to_day,is_current,a1,a2,a3,a4,a5,a6,b1,b2,b3,b4,b5,b6,profile_now
= 1,1,P1,19000101,20240131,0,Cola 1l,Acme,Drinks,Grocery,2019,North,,,Soft drinks,,,South,0
= 3,1,P1,20240401,99991231,1,Cola 1l,Acme,Soft drinks,Grocery,2019,North,,,Soft drinks,,,South,0
= 4,1,P1,20240201,20240331,0,Cola 1l,Acme,Drinks,Food,2019,North,,,Soft drinks,,,South,0

# Years after the last, a holiday that is no day, and a text that is cut.
policy p.toml last_year = 2026->last_year = 2053
run trial product p.csv --policy p.toml
= refused: E4 policy, P10 bad years
policy p.toml day = "2024-12-25"->day = "2023-02-29"
run trial product p.csv --policy p.toml
= refused: E4 policy, P11 bad holiday
bytes p.toml first_year = 2023\nlast_year = 2026\n[[product]]\nname = "desc
run trial product p.csv --policy p.toml
= refused: E4 policy, P1 not toml

# The policy's fault comes before the batch's.
policy p.toml name = "description"|type = 1->name = "description"|type = 8
bytes p.csv
run trial product p.csv --policy p.toml
= refused: E4 policy, P5 bad type

# Thirty years are the most.
policy p.toml last_year = 2026->last_year = 2052
bytes p.csv id,day,description,brand,category,department,launched,supplier
run trial product p.csv --policy p.toml
= surrogate,durable,natural,from_day,to_day,is_current,a1,a2,a3,a4,a5,a6,b1,b2,b3,b4,b5,b6,profile_now

scenario words that are no command, and files that aren't there
# A file that isn't there.
run trial product none.csv
= failed: F1 file, none.csv
run trial product
>
= failed: F1 file, 

# The file of a policy is asked for first.
run trial product none.csv --policy none.toml
= failed: F1 file, none.toml
run trial product none.csv --policy p.csv
= failed: F1 file, none.csv

# Words that are no command.
ends 4
ends 4 trial
ends 4 trial product
run trial shop p.csv
= error: DIMENSION is 'shop', and none of product, store and customer
ends 4 trial product p.csv more
ends 4 trial product -x
ends 4 load w product
ends 4 trial product p.csv --policy
ends 4 init w
run load w shop p1 p1.csv
= error: KIND is 'shop', and none of product, store, customer, sales and void
run load w migrate p1 p1.csv
= error: KIND is 'migrate', and none of product, store, customer, sales and void
run plan w it's p1 p1.csv
= error: KIND is 'it's', and none of product, store, customer, sales, void, migrate and upgrade
ends 4 load w product -p1 p1.csv
ends 4 status
ends 4 status w v

run plan w init p1 p1.csv
= error: KIND is 'init', and none of product, store, customer, sales, void, migrate and upgrade
run explain w shop p.csv
= error: KIND is 'shop', and none of product, store, customer, sales, void, init, migrate and upgrade
run explain w shop
= error: KIND is 'shop', and none of product, store, customer, sales, void, init, migrate and upgrade
ends 4 explain w init p.toml more
ends 4 explain w
ends 4 explain w product p.csv more

scenario an explanation reads its input first, if it has one, and makes no warehouse
run explain w product none.csv
= failed: F1 file, none.csv
run explain w product p.csv
= failed: N1 not a warehouse
run explain w upgrade none.csv
= failed: N1 not a warehouse
run explain w product
= failed: N1 not a warehouse
stands w
= no

scenario help, and the version
ends 0 --help
ends 0 help
run --version
= wh 1.0.0, reads warehouse formats 1 and 2
run -V
= wh 1.0.0, reads warehouse formats 1 and 2
ends 4 load --version
ends 0 help trial
ends 0 trial --help

# It takes ten bytes a call, and fails from a call on, or at a call alone: the table of p.csv has 209 bytes.
scenario a writer that fails
breaks 10 trial product p.csv
= 21 calls
= a beginning, and then failed: G4 write where it can be written, status 3
"#;
