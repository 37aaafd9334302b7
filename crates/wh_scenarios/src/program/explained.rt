//! What `explain` says of inputs as they come from tills and tables. The expected lines are worked by hand.

pub const ALL: &str = r#"
ends 0 init w flat.toml

scenario what is wanted, and what would be accepted
run explain w store
= id,day,city
= column 1 "id": 1 to 32 letters A-Z or a-z, digits, -, _ and .
= column 2 "day": a day as YYYY-MM-DD, from 1900-01-01 to 2199-12-31
= column 3 "city": nothing, or up to 60 bytes of UTF-8 without control characters and without ( in front
= a batch has at most 5000 records and 1000000 bytes
run explain w sales
= ticket,line,day,store,product,customer,quantity,amount,cost
= column 1 "ticket": 1 to 20 letters A-Z or a-z, digits, -, _ and .
= column 2 "line": a whole number from 1 to 9999
= column 3 "day": a day as YYYY-MM-DD, of the years 2023 to 2026
= column 4 "store": 1 to 32 letters A-Z or a-z, digits, -, _ and .
= column 5 "product": 1 to 32 letters A-Z or a-z, digits, -, _ and .
= column 6 "customer": nothing, or 1 to 32 letters A-Z or a-z, digits, -, _ and .
= column 7 "quantity": a whole number from -9999 to 9999
= column 8 "amount": a number such as 12.50 or -3, with up to 7 digits and up to 2 behind a point
= column 9 "cost": a number such as 12.50 or -3, with up to 7 digits and up to 2 behind a point
= a batch has at most 5000 records and 1000000 bytes
= a line of a ticket is sold once, so tickets have to differ over all shops and years
run explain w void
= lines are withdrawn in format 2 alone; this warehouse has format 1
run explain w migrate
= a policy in TOML of at most 65536 bytes
= product keeps in their places: description, brand, category, department, launched, supplier; more may follow
= store keeps in their places: city; more may follow
= customer keeps in their places: tier; more may follow
= the calendar keeps the years 2023 to 2026
run explain w upgrade
= an upgrade takes no file

# What would be accepted, with the members that it mentions for the first time.
file s1.csv
> ticket,line,day,store,product,customer,quantity,amount,cost
> T1,1,2024-06-10,S9,P7,,1,2.50,1.60
> T1,2,2024-06-10,S9,P8,C7,1,2.50,1.60
run explain w sales s1.csv
= would be accepted: 2 records, 4 placeholders
= mentioned for the first time: product P7, P8
= mentioned for the first time: store S9
= mentioned for the first time: customer C7
file good.csv
> id,day,city
> S1,2024-01-01,Bern
run explain w store good.csv
= would be accepted: 1 records, 0 placeholders
= mentioned for the first time: store S1
run explain w migrate flat.toml
= would be accepted: 0 records, 0 placeholders
run explain w upgrade none
= would be accepted: 0 records, 0 placeholders

# Nothing was written.
run status w
= format 1
= commands 1
= changes 0
= facts 0
= members product 0 store 0 customer 0
run explain w store nowhere.csv
= failed: F1 file, nowhere.csv
run explain v store good.csv
= failed: N1 not a warehouse

# Lines that are there, and lines that aren't.
run load w sales s1 s1.csv
= accepted 2 s1: 2 records, 4 placeholders

# Records of a store that a sale has mentioned, and two of one that is new, as a mistyped key is.
file stores.csv
> id,day,city
> S9,2024-01-01,Bern
> S0,2024-01-01,Basel
> S0,2024-02-01,Bern
run explain w store stores.csv
= would be accepted: 3 records, 0 placeholders
= mentioned for the first time: store S0
run explain w sales s1.csv
= refused: E6 line there, record 1
= line 2: ticket T1, line 1: sold by command 2, s1, on 2024-06-10 in S9; a line is sold once
= line 3: ticket T1, line 2: sold by command 2, s1, on 2024-06-10 in S9; a line is sold once
= the same bytes are command 2, s1
sql w UPDATE meta SET value = 2 WHERE name = 'facts_max'
file s2.csv
> ticket,line,day,store,product,customer,quantity,amount,cost
> T2,1,2024-06-10,S9,P7,,1,2.50,1.60
run explain w sales s2.csv
= refused: E6 full, facts
= the limit stands in meta, as facts_max
sql w UPDATE meta SET value = 1000000 WHERE name = 'facts_max'
sql w UPDATE meta SET value = 1 WHERE name = 'changes_max'
file two.csv
> id,day,city
> S1,2024-01-01,Bern
> S2,2024-01-01,Basel
run explain w store two.csv
= refused: E6 full, changes
= the limit stands in meta, as changes_max
sql w UPDATE meta SET value = 1000000 WHERE name = 'changes_max'
sql w UPDATE meta SET value = 2 WHERE name = 'commands_max'
run explain w store good.csv
= refused: E6 full, commands
= the limit stands in meta, as commands_max
sql w UPDATE meta SET value = 100000 WHERE name = 'commands_max'
file v1.csv
> ticket,line
> T9,3
run explain w void v1.csv
= refused: E3 batch, B10 not in format, record 0
= lines are withdrawn in format 2 alone; this warehouse has format 1
sql w CREATE TABLE void (a)
run explain w upgrade none
= refused: E11 not empty
= a table, an index or a view of another program has the name fact2 or void
sql w DROP TABLE void
run upgrade w u1
= accepted 3 u1: 0 records, 0 placeholders
run explain w upgrade none
= refused: E6 format, 2
= the warehouse has format 2 already
run explain w void v1.csv
= refused: E6 no line, record 1
= line 2: ticket T9, line 3: never sold
run explain w void
= ticket,line
= column 1 "ticket": 1 to 20 letters A-Z or a-z, digits, -, _ and .
= column 2 "line": a whole number from 1 to 9999
= a batch has at most 5000 records and 1000000 bytes
run explain w upgrade
= the warehouse has format 2 already
run explain w sales
= ticket,line,day,store,product,customer,quantity,amount,cost,discount
= column 1 "ticket": 1 to 20 letters A-Z or a-z, digits, -, _ and .
= column 2 "line": a whole number from 1 to 9999
= column 3 "day": a day as YYYY-MM-DD, of the years 2023 to 2026
= column 4 "store": 1 to 32 letters A-Z or a-z, digits, -, _ and .
= column 5 "product": 1 to 32 letters A-Z or a-z, digits, -, _ and .
= column 6 "customer": nothing, or 1 to 32 letters A-Z or a-z, digits, -, _ and .
= column 7 "quantity": a whole number from -9999 to 9999
= column 8 "amount": a number such as 12.50 or -3, with up to 7 digits and up to 2 behind a point
= column 9 "cost": a number such as 12.50 or -3, with up to 7 digits and up to 2 behind a point
= column 10 "discount": a number such as 12.50, without a sign, with up to 7 digits and up to 2 behind a point
= a batch has at most 5000 records and 1000000 bytes
= a line of a ticket is sold once, so tickets have to differ over all shops and years
file s3.csv
> ticket,line,day,store,product,customer,quantity,amount,cost,discount
> T3,1,2024-06-10,S9,P7,,1,2.50,1.60,-0.50
> T3,2,2024-06-10,S9,P7,,1,2.50,1.60,
run explain w sales s3.csv
= refused: E3 batch, B7 bad number, record 1
= line 2, column 10 "discount": '-0.50' has a - in front; wanted: a number such as 12.50, without a sign, with up to 7 digits and up to 2 behind a point
= line 3, column 10 "discount": '' is empty; wanted: a number such as 12.50, without a sign, with up to 7 digits and up to 2 behind a point

scenario where the lines come from that are there already or don't stand
file s1.csv
> ticket,line,day,store,product,customer,quantity,amount,cost
> T1,1,2024-06-10,S9,P7,,1,2.50,1.60
run load w sales s1 s1.csv
= accepted 2 s1: 1 records, 2 placeholders
file s2.csv
> ticket,line,day,store,product,customer,quantity,amount,cost
> T1,2,2024-06-12,S8,P7,,1,2.50,1.60
> T2,1,2024-06-11,S9,P7,,1,2.50,1.60
run load w sales s2 s2.csv
= accepted 3 s2: 2 records, 1 placeholders

# Of two sales commands the one that sold it, with its day and store, not those of the line that is sent: the first has another line of the ticket, and the line of another ticket.
file again.csv
> ticket,line,day,store,product,customer,quantity,amount,cost
> T3,1,2024-06-10,S9,P7,,1,2.50,1.60
> T2,1,2024-06-10,S9,P7,,1,2.50,1.60
> T1,1,2024-06-10,S9,P7,,1,2.50,1.60
run explain w sales again.csv
= refused: E6 line there, record 2
= line 3: ticket T2, line 1: sold by command 3, s2, on 2024-06-11 in S9; a line is sold once
= line 4: ticket T1, line 1: sold by command 2, s1, on 2024-06-10 in S9; a line is sold once
file again.csv
> ticket,line,day,store,product,customer,quantity,amount,cost
> T1,2,2024-06-10,S9,P7,,1,2.50,1.60
run explain w sales again.csv
= refused: E6 line there, record 1
= line 2: ticket T1, line 2: sold by command 3, s2, on 2024-06-12 in S8; a line is sold once

# In format 2, behind a policy with a year more: sold in format 1, and in that year.
policy p.toml last_year = 2026->last_year = 2027
run migrate w m1 p.toml
= accepted 4 m1: 0 records, 0 placeholders
run upgrade w u1
= accepted 5 u1: 0 records, 0 placeholders
file again.csv
> ticket,line,day,store,product,customer,quantity,amount,cost,discount
> T1,1,2024-06-10,S9,P7,,1,2.50,1.60,0
run explain w sales again.csv
= refused: E6 line there, record 1
= line 2: ticket T1, line 1: sold by command 2, s1, on 2024-06-10 in S9; a line is sold once
file s3.csv
> ticket,line,day,store,product,customer,quantity,amount,cost,discount
> T3,1,2027-01-04,S9,P7,,1,2.50,1.60,0.50
run load w sales s3 s3.csv
= accepted 6 s3: 1 records, 0 placeholders
run explain w sales s3.csv
= refused: E6 line there, record 1
= line 2: ticket T3, line 1: sold by command 6, s3, on 2027-01-04 in S9; a line is sold once
= the same bytes are command 6, s3

# Withdrawn by the second of two voids, and still sold by its sales.
file v1.csv
> ticket,line
> T2,1
run load w void v1 v1.csv
= accepted 7 v1: 1 records, 0 placeholders
file v2.csv
> ticket,line
> T1,2
> T3,1
run load w void v2 v2.csv
= accepted 8 v2: 2 records, 0 placeholders
file v3.csv
> ticket,line
> T1,1
> T3,1
run explain w void v3.csv
= refused: E6 no line, record 2
= line 3: ticket T3, line 1: withdrawn by command 8, v2
run explain w void v1.csv
= refused: E6 no line, record 1
= line 2: ticket T2, line 1: withdrawn by command 7, v1
= the same bytes are command 7, v1
run explain w sales s3.csv
= refused: E6 line there, record 1
= line 2: ticket T3, line 1: sold by command 6, s3, on 2027-01-04 in S9; withdrawn by command 8, v2; a line is sold once
= the same bytes are command 6, s3
file v3.csv
> ticket,line
> T2,2
> T1,1
> T1,2
> T8,1
run explain w void v3.csv
= refused: E6 no line, record 1
= line 2: ticket T2, line 2: never sold
= line 4: ticket T1, line 2: withdrawn by command 8, v2
= line 5: ticket T8, line 1: never sold
run check w
= clean

# All kept commands are read: a damaged one is told, whichever has the line.
sql w UPDATE command SET id = 's 2' WHERE number = 3
run explain w sales again.csv
= failed: E7 damaged, command
run explain w sales s3.csv
= failed: E7 damaged, command

scenario many lines that are there, as a till has them that sends its whole day each time, and many members
file day.csv
> ticket,line,day,store,product,customer,quantity,amount,cost
>* T1,{1-22},2024-06-10,S9,P{01-22},,1,2.50,1.60
# Of 22 products and a store that are new the first 20 products are told.
run explain w sales day.csv
= would be accepted: 22 records, 23 placeholders
= mentioned for the first time: product P01, P02, P03, P04, P05, P06, P07, P08, P09, P10, P11, P12, P13, P14, P15, P16, P17, P18, P19, P20 and 2 more
= mentioned for the first time: store S9
run load w sales s1 day.csv
= accepted 2 s1: 22 records, 23 placeholders

# The same lines behind a new one, with empty lines between.
file evening.csv
> ticket,line,day,store,product,customer,quantity,amount,cost
> T2,1,2024-06-10,S9,P01,,1,2.50,1.60
>
>* T1,{1-22},2024-06-10,S9,P{01-22},,1,2.50,1.60
run explain w sales evening.csv
= refused: E6 line there, record 2
=* line {4-23}: ticket T1, line {1-20}: sold by command 2, s1, on 2024-06-10 in S9; a line is sold once
= and 2 more

# Twenty are told, and no more.
file evening.csv
> ticket,line,day,store,product,customer,quantity,amount,cost
>* T1,{1-20},2024-06-10,S9,P{01-20},,1,2.50,1.60
run explain w sales evening.csv
= refused: E6 line there, record 1
=* line {2-21}: ticket T1, line {1-20}: sold by command 2, s1, on 2024-06-10 in S9; a line is sold once

# A fact that no command sold is there all the same.
sql w UPDATE fact SET ticket = 'T9' WHERE line = 22
file found.csv
> ticket,line,day,store,product,customer,quantity,amount,cost
> T9,22,2024-06-10,S9,P01,,1,2.50,1.60
run explain w sales found.csv
= refused: E6 line there, record 1
= line 2: ticket T9, line 22: sold before; a line is sold once

scenario headers
# Semicolons, tabs, capital letters, another order, a column more, one less, blanks, quotes.
file h.csv
> id;day;city
> S1;2024-01-01;Bern
run explain w store h.csv
= refused: E3 batch, B2 wrong header, record 0
= line 1, column 1 "id": 'id;day;city' stands there
= wanted: id,day,city
= there: id;day;city
= the file seems to be separated by semicolons; commas are wanted
bytes h.csv id\x09day\x09city\n
run explain w store h.csv
= refused: E3 batch, B2 wrong header, record 0
= line 1, column 1 "id": 'id\tday\tcity' stands there
= wanted: id,day,city
= there: id\tday\tcity
= the file seems to be separated by tabs; commas are wanted
file h.csv
> id|day|city
run explain w store h.csv
= refused: E3 batch, B2 wrong header, record 0
= line 1, column 1 "id": 'id|day|city' stands there
= wanted: id,day,city
= there: id|day|city
= the file seems to be separated by bars; commas are wanted
file h.csv
> id,Day,city
run explain w store h.csv
= refused: E3 batch, B2 wrong header, record 0
= line 1, column 2 "day": 'Day' stands there; small letters are wanted
= wanted: id,day,city
= there: id,Day,city
file h.csv
> id,city,day
run explain w store h.csv
= refused: E3 batch, B2 wrong header, record 0
= line 1, column 2 "day": 'city' stands there; it belongs in column 3
= wanted: id,day,city
= there: id,city,day
file h.csv
> id,day,city,size
run explain w store h.csv
= refused: E3 batch, B2 wrong header, record 0
= line 1, column 4: 'size' stands there; no column is wanted there
= wanted: id,day,city
= there: id,day,city,size
file h.csv
> id,day
run explain w store h.csv
= refused: E3 batch, B2 wrong header, record 0
= line 1, column 3 "city": nothing stands there
= wanted: id,day,city
= there: id,day
file h.csv
> id,day,city,
> S1,2024-01-01,Bern,
run explain w store h.csv
= refused: E3 batch, B2 wrong header, record 0
= line 1, column 4: a further column without a name stands there (the header ends with a comma); no column is wanted there
= wanted: id,day,city
= there: id,day,city,
file h.csv
> id,day,city,,size
run explain w store h.csv
= refused: E3 batch, B2 wrong header, record 0
= line 1, column 4: a further column without a name stands there; no column is wanted there
= wanted: id,day,city
= there: id,day,city,,size
file h.csv
> id,,city
run explain w store h.csv
= refused: E3 batch, B2 wrong header, record 0
= line 1, column 2 "day": nothing stands there
= wanted: id,day,city
= there: id,,city
file h.csv
> id, day,city
run explain w store h.csv
= refused: E3 batch, B2 wrong header, record 0
= line 1, column 2 "day": ' day' stands there; it has blanks around it
= wanted: id,day,city
= there: id, day,city

# Behind empty lines and a byte order mark; no line at all; UTF-16, Latin-1.
bytes h.csv \xEF\xBB\xBF\r\n\nid,day,Stadt\r\n
run explain w store h.csv
= refused: E3 batch, B2 wrong header, record 0
= line 3, column 3 "city": 'Stadt' stands there
= wanted: id,day,city
= there: id,day,Stadt
bytes h.csv \n\n
run explain w store h.csv
= refused: E3 batch, B2 wrong header, record 0
= line 1, column 1 "id": nothing stands there
= wanted: id,day,city
= there: nothing
bytes h.csv \xFF\xFEi\x00d\x00\n\x00
run explain w store h.csv
= refused: E3 batch, B2 wrong header, record 0
= line 1, column 1 "id": '\xff\xfei\x00d\x00' stands there
= wanted: id,day,city
= there: \xff\xfei\x00d\x00
= the file looks like UTF-16; UTF-8 is wanted
bytes h.csv i\x00d\x00\n\x00
run explain w store h.csv
= refused: E3 batch, B2 wrong header, record 0
= line 1, column 1 "id": 'i\x00d\x00' stands there
= wanted: id,day,city
= there: i\x00d\x00
= the file looks like UTF-16; UTF-8 is wanted
bytes h.csv PK\x03\x04\x14\x00
run explain w store h.csv
= refused: E3 batch, B2 wrong header, record 0
= line 1, column 1 "id": 'PK\x03\x04\x14\x00' stands there
= wanted: id,day,city
= there: PK\x03\x04\x14\x00
= the file is a zip or Excel file; it has to be exported as CSV
bytes h.csv id,day,city\x00\nS1,2024-01-01,Bern\n
run explain w store h.csv
= refused: E3 batch, B2 wrong header, record 0
= line 1, column 3 "city": 'city\x00' stands there
= wanted: id,day,city
= there: id,day,city\x00
= the file has a NUL byte, which no text has, at byte 12
bytes h.csv id,day,Stra\xDFe\n
run explain w store h.csv
= refused: E3 batch, B2 wrong header, record 0
= line 1, column 3 "city": 'Stra\xdfe' stands there
= wanted: id,day,city
= there: id,day,Stra\xdfe
= the file looks like Latin-1: it is no UTF-8 at byte 12

# Lines that end with CR alone; a sign that turns the direction of writing; more than 200 characters.
bytes h.csv \r\rid,day,Stadt\rS1,2024-01-01,Bern\r
run explain w store h.csv
= refused: E3 batch, B2 wrong header, record 0
= line 3, column 3 "city": 'Stadt' stands there
= wanted: id,day,city
= there: id,day,Stadt
bytes h.csv id,day,\xE2\x81\xA6city\n
run explain w store h.csv
= refused: E3 batch, B2 wrong header, record 0
= line 1, column 3 "city": '\xe2\x81\xa6city' stands there
= wanted: id,day,city
= there: id,day,\xe2\x81\xa6city
long h.csv 201
run explain w store h.csv
= refused: E3 batch, B2 wrong header, record 0
= line 1, column 1 "id": 'xxxxxxxxxxxxxxxxxxxxxxxxxxxxxxxxxxxxxxxxxxxxxxxxxxxxxxxxxxxx ..' stands there
= wanted: id,day,city
= there: xxxxxxxxxxxxxxxxxxxxxxxxxxxxxxxxxxxxxxxxxxxxxxxxxxxxxxxxxxxxxxxxxxxxxxxxxxxxxxxxxxxxxxxxxxxxxxxxxxxxxxxxxxxxxxxxxxxxxxxxxxxxxxxxxxxxxxxxxxxxxxxxxxxxxxxxxxxxxxxxxxxxxxxxxxxxxxxxxxxxxxxxxxxxxxxxxxxxxxxx ..

# Over the limit of bytes.
long long.csv 1000001
run explain w store long.csv
= refused: E3 batch, B1 too large, record 0
= the file has more than 1000000 bytes, which is the most that is allowed
"#;
