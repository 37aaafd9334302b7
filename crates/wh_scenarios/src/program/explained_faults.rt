//! What `explain` says of records and policies with faults, as they come from tills and tables. The expected lines are worked by hand.

pub const ALL: &str = r#"
ends 0 init w flat.toml

scenario records
# Natural keys: blanks, a character that isn't taken, none, too long. A right record stands between.
file k.csv
> id,day,city
> P 0049,2024-01-01,x
>  S1,2024-01-01,x
> S1 ,2024-01-01,x
> S2,2024-01-01,x
> ,2024-01-01,x
> Z1/0001,2024-01-01,x
> Zürich,2024-01-01,x
> kkkkkkkkkkkkkkkkkkkkkkkkkkkkkkkkk,2024-01-01,x
run explain w store k.csv
= refused: E3 batch, B4 bad key, record 1
= line 2, column 1 "id": 'P 0049' has a blank at byte 2; wanted: 1 to 32 letters A-Z or a-z, digits, -, _ and .
= line 3, column 1 "id": ' S1' has a blank in front; wanted: 1 to 32 letters A-Z or a-z, digits, -, _ and .
= line 4, column 1 "id": 'S1 ' has a blank at its end; wanted: 1 to 32 letters A-Z or a-z, digits, -, _ and .
= line 6, column 1 "id": '' is empty; wanted: 1 to 32 letters A-Z or a-z, digits, -, _ and .
= line 7, column 1 "id": 'Z1/0001' has '/' at byte 3; wanted: 1 to 32 letters A-Z or a-z, digits, -, _ and .
= line 8, column 1 "id": 'Zürich' has 'ü' at byte 2; wanted: 1 to 32 letters A-Z or a-z, digits, -, _ and .
= line 9, column 1 "id": 'kkkkkkkkkkkkkkkkkkkkkkkkkkkkkkkkk' has 33 bytes, at most 32 are allowed

# Days.
file d.csv
> id,day,city
> S1,01.02.2024,x
> S1,1.2.24,x
> S1,01/02/2024,x
> S1,20240201,x
> S1,2024-2-1,x
> S1,2024-02-30,x
> S1,1899-12-31,x
> S1,2200-01-01,x
> S1,2024-02-01 00:00,x
> S1,,x
run explain w store d.csv
= refused: E3 batch, B5 bad day, record 1
= line 2, column 2 "day": '01.02.2024' is written DD.MM.YYYY; wanted: a day as YYYY-MM-DD, from 1900-01-01 to 2199-12-31
= line 3, column 2 "day": '1.2.24' is written with points; wanted: a day as YYYY-MM-DD, from 1900-01-01 to 2199-12-31
= line 4, column 2 "day": '01/02/2024' is written with slashes; wanted: a day as YYYY-MM-DD, from 1900-01-01 to 2199-12-31
= line 5, column 2 "day": '20240201' has no hyphens; wanted: a day as YYYY-MM-DD, from 1900-01-01 to 2199-12-31
= line 6, column 2 "day": '2024-2-1' is written in another way; wanted: a day as YYYY-MM-DD, from 1900-01-01 to 2199-12-31
= line 7, column 2 "day": '2024-02-30' is no real day; wanted: a day as YYYY-MM-DD, from 1900-01-01 to 2199-12-31
= line 8, column 2 "day": '1899-12-31' is before 1900-01-01; wanted: a day as YYYY-MM-DD, from 1900-01-01 to 2199-12-31
= line 9, column 2 "day": '2200-01-01' is after 2199-12-31; wanted: a day as YYYY-MM-DD, from 1900-01-01 to 2199-12-31
= line 10, column 2 "day": '2024-02-01 00:00' has more than a day; wanted: a day as YYYY-MM-DD, from 1900-01-01 to 2199-12-31
= line 11, column 2 "day": '' is empty; wanted: a day as YYYY-MM-DD, from 1900-01-01 to 2199-12-31

# Values: 31 umlauts, cut at 60 characters, the program's own, Latin-1, a line end in quotes, control characters. Records aren't lines.
file v.csv
> id,day,city
> S1,2024-01-01,üüüüüüüüüüüüüüüüüüüüüüüüüüüüüüü
> S2,2024-01-01,Zürich-Oerlikon am Bahnhof hinter dem Laden mit dem roten Dache
> S3,2024-01-01,(none)
run explain w store v.csv
= refused: E3 batch, B6 bad value, record 1
= line 2, column 3 "city": 'üüüüüüüüüüüüüüüüüüüüüüüüüüüüüüü' has 62 bytes, at most 60 are allowed
= line 3, column 3 "city": 'Zürich-Oerlikon am Bahnhof hinter dem Laden mit dem roten Da ..' has 64 bytes, at most 60 are allowed
= line 4, column 3 "city": '(none)' begins with (; wanted: nothing, or up to 60 bytes of UTF-8 without control characters and without ( in front
bytes v.csv id,day,city\r\nS1,2024-01-01,"a\nb"\r\n\r\nS2,2024-01-01,Z\xFCrich\r\nS3,2024-01-01,a\x09b\r\nS4,2024-01-01,a\x07\x7F\r\n
run explain w store v.csv
= refused: E3 batch, B6 bad value, record 1
= line 2, column 3 "city": 'a\nb' has a line end (a quote not closed?) at byte 2; wanted: nothing, or up to 60 bytes of UTF-8 without control characters and without ( in front
= line 5, column 3 "city": 'Z\xfcrich' is no UTF-8 at byte 2; it looks like Latin-1
= line 6, column 3 "city": 'a\tb' has a tab at byte 2; wanted: nothing, or up to 60 bytes of UTF-8 without control characters and without ( in front
= line 7, column 3 "city": 'a\x07\x7f' has '\x07' at byte 2; wanted: nothing, or up to 60 bytes of UTF-8 without control characters and without ( in front

# Numbers of fields, and a key twice.
file n.csv
> id,day,city
> S1,2024-01-01,a,b
> S2,2024-01-01
> S3;2024-01-01;x
> S4,"2024-01-01",a,"b"
> S5,2024-01-01,a
> S5,2024-01-01,b
> "S6,2024-01-01,x
run explain w store n.csv
= refused: E3 batch, B3 wrong length, record 1
= line 2: the number of fields is 4, 3 are wanted; a field with a comma needs quotes: 'S1,2024-01-01,a,b'
= line 3: the number of fields is 2, 3 are wanted: 'S2,2024-01-01'
= line 4: the number of fields is 1, 3 are wanted; they seem to be separated by semicolons: 'S3;2024-01-01;x'
= line 5: the number of fields is 4, 3 are wanted; a field with a comma needs quotes: 'S4,"2024-01-01",a,"b"'
= line 7: an earlier record has the same id and day: 'S5,2024-01-01,b'
= line 8: the number of fields is 1, 3 are wanted; a quote is not closed on this line: '"S6,2024-01-01,x'

# Commas at the end; a quote that is closed lines below, and a record behind it.
file n.csv
> id,day,city
> S1,2024-01-01,Bern,
> S2,2024-01-01,Bern,,
> S3,2024-01-01,,
> S4,2024-01-01,a,b,
> S5,"2024-01-01,Bern
> S6,2024-01-01,Bern
> S7",2024-01-01
> S 8,2024-01-01,Bern
run explain w store n.csv
= refused: E3 batch, B3 wrong length, record 1
= line 2: the number of fields is 4, 3 are wanted; the last one is empty, behind a comma at the end: 'S1,2024-01-01,Bern,'
= line 3: the number of fields is 5, 3 are wanted; the last ones are empty, behind commas at the end: 'S2,2024-01-01,Bern,,'
= line 4: the number of fields is 4, 3 are wanted; the last ones are empty, behind commas at the end: 'S3,2024-01-01,,'
= line 5: the number of fields is 5, 3 are wanted; a field with a comma needs quotes: 'S4,2024-01-01,a,b,'
= line 6, column 2 "day": '2024-01-01,Bern\nS6,2024-01-01,Bern\nS7' has more than a day; wanted: a day as YYYY-MM-DD, from 1900-01-01 to 2199-12-31
= line 9, column 1 "id": 'S 8' has a blank at byte 2; wanted: 1 to 32 letters A-Z or a-z, digits, -, _ and .

# Lines that end with CR alone, two of them empty, and one with LF.
bytes c.csv id,day,city\rS1,2024-01-01\r\r\rS 2,2024-01-01,x\rS3,2024-13-01,x\nS4,2024-01-01,x\rS4,2024-01-01,y
run explain w store c.csv
= refused: E3 batch, B3 wrong length, record 1
= line 2: the number of fields is 2, 3 are wanted: 'S1,2024-01-01'
= line 5, column 1 "id": 'S 2' has a blank at byte 2; wanted: 1 to 32 letters A-Z or a-z, digits, -, _ and .
= line 6, column 2 "day": '2024-13-01' is no real day; wanted: a day as YYYY-MM-DD, from 1900-01-01 to 2199-12-31
= line 8: an earlier record has the same id and day: 'S4,2024-01-01,y'

# Bytes that no text has; a value that was cut within its last character, and one in Latin-1; signs that turn the direction of writing.
bytes u.csv id,day,city\nS1,2024-01-01,a\x00b\nS2,2024-01-01,Z\xC3\nS3,2024-01-01,5 \xE2\x82\nS4,2024-01-01,\xE9t\xE9\nS\xD8\x9C5,2024-01-01,x\nS\xE2\x81\xA96,2024-01-01,x\nS\xE2\x80\x8E7,2024-01-01,x\nS8,0abc-01-01,x\n
run explain w store u.csv
= refused: E3 batch, B6 bad value, record 1
= line 2, column 3 "city": 'a\x00b' has a NUL byte at byte 2; wanted: nothing, or up to 60 bytes of UTF-8 without control characters and without ( in front
= line 3, column 3 "city": 'Z\xc3' is no UTF-8 at byte 2; it is cut within a character, or Latin-1
= line 4, column 3 "city": '5 \xe2\x82' is no UTF-8 at byte 3; it is cut within a character, or Latin-1
= line 5, column 3 "city": '\xe9t\xe9' is no UTF-8 at byte 1; it looks like Latin-1
= line 6, column 1 "id": 'S\xd8\x9c5' has '\xd8\x9c' at byte 2; wanted: 1 to 32 letters A-Z or a-z, digits, -, _ and .
= line 7, column 1 "id": 'S\xe2\x81\xa96' has '\xe2\x81\xa9' at byte 2; wanted: 1 to 32 letters A-Z or a-z, digits, -, _ and .
= line 8, column 1 "id": 'S\xe2\x80\x8e7' has '\xe2\x80\x8e' at byte 2; wanted: 1 to 32 letters A-Z or a-z, digits, -, _ and .
= line 9, column 2 "day": '0abc-01-01' is written in another way; wanted: a day as YYYY-MM-DD, from 1900-01-01 to 2199-12-31

scenario sales
# Numbers, in 20 of 22 records.
file a.csv
> ticket,line,day,store,product,customer,quantity,amount,cost
> T1,1,2024-01-01,S1,P1,,1,"1,50",1.00
> T1,1,2024-01-01,S1,P1,,1,1'250.00,1.00
> T1,1,2024-01-01,S1,P1,,1,"1,250.00",1.00
> T1,1,2024-01-01,S1,P1,,1,1.005,1.00
> T1,1,2024-01-01,S1,P1,,1,12345678,1.00
> T1,1,2024-01-01,S1,P1,,1,12345678.00,1.00
> T1,1,2024-01-01,S1,P1,,1,.50,1.00
> T1,1,2024-01-01,S1,P1,,1,1.,1.00
> T1,1,2024-01-01,S1,P1,,1,1.2.3,1.00
> T1,1,2024-01-01,S1,P1,,1,CHF 1,1.00
> T1,1,2024-01-01,S1,P1,,1,+1,1.00
> T1,1,2024-01-01,S1,P1,,1,1.50-,1.00
> T1,1,2024-01-01,S1,P1,,1,-,1.00
> T1,1,2024-01-01,S1,P1,,1,1.00,
> T1,1,2024-01-01,S1,P1,,0.450,1.00,1.00
> T1,1,2024-01-01,S1,P1,,10000,1.00,1.00
> T1,0,2024-01-01,S1,P1,,1,1.00,1.00
> T1,-1,2024-01-01,S1,P1,,1,1.00,1.00
> T1,12345,2024-01-01,S1,P1,,1,1.00,1.00
> TTTTTTTTTTTTTTTTTTTTT,1,2024-01-01,S1,P1,,1,1.00,1.00
> T1,x,2024-01-01,S1,P1,,1,1.00,1.00
> T1,1,2024-01-01,S1,P1,C 1,1,1.00,1.00
run explain w sales a.csv
= refused: E3 batch, B7 bad number, record 1
= line 2, column 8 "amount": '1,50' has a decimal comma; wanted: a number such as 12.50 or -3, with up to 7 digits and up to 2 behind a point
= line 3, column 8 "amount": '1'250.00' has marks between thousands; wanted: a number such as 12.50 or -3, with up to 7 digits and up to 2 behind a point
= line 4, column 8 "amount": '1,250.00' has marks between thousands; wanted: a number such as 12.50 or -3, with up to 7 digits and up to 2 behind a point
= line 5, column 8 "amount": '1.005' has more than 2 digits behind the point; wanted: a number such as 12.50 or -3, with up to 7 digits and up to 2 behind a point
= line 6, column 8 "amount": '12345678' has more than 7 digits; wanted: a number such as 12.50 or -3, with up to 7 digits and up to 2 behind a point
= line 7, column 8 "amount": '12345678.00' has more than 7 digits before the point; wanted: a number such as 12.50 or -3, with up to 7 digits and up to 2 behind a point
= line 8, column 8 "amount": '.50' has no digit before the point; wanted: a number such as 12.50 or -3, with up to 7 digits and up to 2 behind a point
= line 9, column 8 "amount": '1.' has no digit behind the point; wanted: a number such as 12.50 or -3, with up to 7 digits and up to 2 behind a point
= line 10, column 8 "amount": '1.2.3' has more than one point; wanted: a number such as 12.50 or -3, with up to 7 digits and up to 2 behind a point
= line 11, column 8 "amount": 'CHF 1' has 'C' at byte 1; wanted: a number such as 12.50 or -3, with up to 7 digits and up to 2 behind a point
= line 12, column 8 "amount": '+1' has a + in front; wanted: a number such as 12.50 or -3, with up to 7 digits and up to 2 behind a point
= line 13, column 8 "amount": '1.50-' has a - that is not in front; wanted: a number such as 12.50 or -3, with up to 7 digits and up to 2 behind a point
= line 14, column 8 "amount": '-' has no digit; wanted: a number such as 12.50 or -3, with up to 7 digits and up to 2 behind a point
= line 15, column 9 "cost": '' is empty; wanted: a number such as 12.50 or -3, with up to 7 digits and up to 2 behind a point
= line 16, column 7 "quantity": '0.450' has decimals; wanted: a whole number from -9999 to 9999
= line 17, column 7 "quantity": '10000' has more than 4 digits; wanted: a whole number from -9999 to 9999
= line 18, column 2 "line": '0' is no line; wanted: a whole number from 1 to 9999
= line 19, column 2 "line": '-1' has a - in front; wanted: a whole number from 1 to 9999
= line 20, column 2 "line": '12345' has more than 4 digits; wanted: a whole number from 1 to 9999
= line 21, column 1 "ticket": 'TTTTTTTTTTTTTTTTTTTTT' has 21 bytes, at most 20 are allowed
= and 2 more

# Commas that may be for thousands or for decimals, a point at the end, thousands without decimals in a whole number.
file a.csv
> ticket,line,day,store,product,customer,quantity,amount,cost
> T1,1,2024-01-01,S1,P1,,1,"1,250",1.00
> T1,1,2024-01-01,S1,P1,,1,"-1,250",1.00
> T1,1,2024-01-01,S1,P1,,1,"1,2",1.00
> T1,1,2024-01-01,S1,P1,,1.,1.00,1.00
> T1,1,2024-01-01,S1,P1,,"1,250",1.00,1.00
> T1,1.0,2024-01-01,S1,P1,,1,1.00,1.00
run explain w sales a.csv
= refused: E3 batch, B7 bad number, record 1
= line 2, column 8 "amount": '1,250' has a comma, for thousands or for decimals; wanted: a number such as 12.50 or -3, with up to 7 digits and up to 2 behind a point
= line 3, column 8 "amount": '-1,250' has a comma, for thousands or for decimals; wanted: a number such as 12.50 or -3, with up to 7 digits and up to 2 behind a point
= line 4, column 8 "amount": '1,2' has a decimal comma; wanted: a number such as 12.50 or -3, with up to 7 digits and up to 2 behind a point
= line 5, column 7 "quantity": '1.' ends with a point; wanted: a whole number from -9999 to 9999
= line 6, column 7 "quantity": '1,250' has a comma, for thousands or for decimals; wanted: a whole number from -9999 to 9999
= line 7, column 2 "line": '1.0' has decimals; wanted: a whole number from 1 to 9999

# A decimal comma without quotes, a day outside the calendar, and a line twice, which also a sale outside makes.
file b.csv
> ticket,line,day,store,product,customer,quantity,amount,cost
> T1,1,2024-01-01,S1,P1,,1,1,50,1,00
> T1,1,2027-01-01,S1,P1,,1,1.50,1.00
> T1,2,2022-12-31,S1,P1,,1,1.50,1.00
> T1,1,2024-01-01,S1,P1,,1,1.50,1.00
run explain w sales b.csv
= refused: E3 batch, B3 wrong length, record 1
= line 2: the number of fields is 11, 9 are wanted; a field with a comma needs quotes: 'T1,1,2024-01-01,S1,P1,,1,1,50,1,00'
= line 3, column 3 "day": '2027-01-01' is outside the calendar, which has the years 2023 to 2026
= line 4, column 3 "day": '2022-12-31' is outside the calendar, which has the years 2023 to 2026
= line 5: an earlier record has the same ticket and line: 'T1,1,2024-01-01,S1,P1,,1,1.50,1.00'

scenario records with several faults
# In all fields but two; in one behind a day outside the calendar; none, though a record with a fault has its key; a key twice, and outside.
file several.csv
> ticket,line,day,store,product,customer,quantity,amount,cost
> T 1,0,31.12.2024,S1,P1,C 1,1.5,"1,50",
> T2,1,2027-01-01,S1,P1,,1,x,1.00
> T2,1,2024-01-01,S1,P1,,1,1.00,1.00
> T2,1,2027-01-02,S1,P1,,1,1.00,1.00
run explain w sales several.csv
= refused: E3 batch, B4 bad key, record 1
= line 2, column 1 "ticket": 'T 1' has a blank at byte 2; wanted: 1 to 20 letters A-Z or a-z, digits, -, _ and .
= line 2, column 2 "line": '0' is no line; wanted: a whole number from 1 to 9999
= line 2, column 3 "day": '31.12.2024' is written DD.MM.YYYY; wanted: a day as YYYY-MM-DD
= line 2, column 6 "customer": 'C 1' has a blank at byte 2; wanted: nothing, or 1 to 32 letters A-Z or a-z, digits, -, _ and .
= line 2, column 7 "quantity": '1.5' has decimals; wanted: a whole number from -9999 to 9999
= line 2, column 8 "amount": '1,50' has a decimal comma; wanted: a number such as 12.50 or -3, with up to 7 digits and up to 2 behind a point
= line 2, column 9 "cost": '' is empty; wanted: a number such as 12.50 or -3, with up to 7 digits and up to 2 behind a point
= line 3, column 8 "amount": 'x' has 'x' at byte 1; wanted: a number such as 12.50 or -3, with up to 7 digits and up to 2 behind a point
= line 3, column 3 "day": '2027-01-01' is outside the calendar, which has the years 2023 to 2026
= line 5: an earlier record has the same ticket and line: 'T2,1,2027-01-02,S1,P1,,1,1.00,1.00'
= line 5, column 3 "day": '2027-01-02' is outside the calendar, which has the years 2023 to 2026

# Quotes within fields, line ends, and bytes that no text has.
bytes quoted.csv id,day,city\r\n"S""1",2024-1-1,"(a\nb)"\r\nS2,"2024-13-01","a\nb""c"\r\nS3,,Z\xFCrich\r\n
run explain w store quoted.csv
= refused: E3 batch, B4 bad key, record 1
= line 2, column 1 "id": 'S"1' has '"' at byte 2; wanted: 1 to 32 letters A-Z or a-z, digits, -, _ and .
= line 2, column 2 "day": '2024-1-1' is written in another way; wanted: a day as YYYY-MM-DD, from 1900-01-01 to 2199-12-31
= line 2, column 3 "city": '(a\nb)' begins with (; wanted: nothing, or up to 60 bytes of UTF-8 without control characters and without ( in front
= line 4, column 2 "day": '2024-13-01' is no real day; wanted: a day as YYYY-MM-DD, from 1900-01-01 to 2199-12-31
= line 4, column 3 "city": 'a\nb"c' has a line end (a quote not closed?) at byte 2; wanted: nothing, or up to 60 bytes of UTF-8 without control characters and without ( in front
= line 6, column 2 "day": '' is empty; wanted: a day as YYYY-MM-DD, from 1900-01-01 to 2199-12-31
= line 6, column 3 "city": 'Z\xfcrich' is no UTF-8 at byte 2; it looks like Latin-1

scenario the policy of a warehouse that is still to be made
anew
run explain w init flat.toml
= would be accepted: 0 records, 0 placeholders
stands w
= no
policy p.toml name = "brand"->name = "Bezeichnung"
run init w p.toml
= refused: E4 policy, P4 bad name
run explain w init p.toml
= refused: E4 policy, P4 bad name
= [[product]] number 2, key "name": the text 'Bezeichnung' stands there; a name has 1 to 24 characters: a letter a to z, then letters a to z, digits or _; it is neither id nor day
policy p.toml day = "2024-12-25"->day = 2024-12-25
run explain w init p.toml
= refused: E4 policy, P11 bad holiday
= [[holiday]] number 1, key "day": a TOML datetime stands there; a holiday's day is "YYYY-MM-DD" with quotes, within the years and on no other holiday's day, and its name has 1 to 60 bytes and doesn't begin with (
policy p.toml name = "brand"->name = "brand
run explain w init p.toml
= refused: E4 policy, P1 not toml
= line 7: invalid string; a policy is a text in TOML
long p.toml 65537
run explain w init p.toml
= refused: E4 policy, P1 not toml
= the file has more than 65536 bytes, which is the most that is allowed
run init w nowhere.toml
= failed: F1 file, nowhere.toml
run explain w init nowhere.toml
= failed: F1 file, nowhere.toml
stands w
= no

# All rules, in the order of the faults.
run explain w init
= a policy in TOML of at most 65536 bytes
= wanted: first_year, last_year and at least one [[product]], [[store]] and [[customer]], each with name and type; a [[holiday]] with day and name
= the keys are first_year, last_year, product, store, customer and holiday, those of an attribute name and type, those of a holiday day and name
= a name has 1 to 24 characters: a letter a to z, then letters a to z, digits or _; it is neither id nor day
= a type is a whole number from 0 to 7, without quotes
= a dimension has at most 6 attributes
= no two attributes of a dimension have the same name
= types 4 and 5 are for attributes of customer alone
= customer has attributes of type 4 or of type 5, not of both
= first_year and last_year are whole numbers from 1900 to 2199 without quotes, the first not after the last, and at most 30 years
= a holiday's day is "YYYY-MM-DD" with quotes, within the years and on no other holiday's day, and its name has 1 to 60 bytes and doesn't begin with (
stands w
= no

# A warehouse that is there isn't looked at, nor is a file that is none.
ends 0 init w flat.toml
run explain w init flat.toml
= would be accepted: 0 records, 0 placeholders
run explain flat.toml init flat.toml
= would be accepted: 0 records, 0 placeholders
policy p.toml last_year = 2026->last_year = 2200
session w
> explain init flat.toml
> explain init p.toml
= would be accepted: 0 records, 0 placeholders
= status 0
= refused: E4 policy, P10 bad years
= key "last_year": the number 2200 stands there; it is too late; first_year and last_year are whole numbers from 1900 to 2199 without quotes, the first not after the last, and at most 30 years
= status 2
run status w
= format 1
= commands 1
= changes 0
= facts 0
= members product 0 store 0 customer 0

scenario policies, and a batch with a record too many
policy p.toml name = "brand"->name = "brand
run explain w migrate p.toml
= refused: E4 policy, P1 not toml
= line 7: invalid string; a policy is a text in TOML
bytes p.toml # 1\r\n# Z\xFCrich\n
run explain w migrate p.toml
= refused: E4 policy, P1 not toml
= line 2: no UTF-8; a policy is a text in TOML
= the file looks like Latin-1: it is no UTF-8 at byte 9
bytes p.toml \xFF\xFEa\x00
run explain w migrate p.toml
= refused: E4 policy, P1 not toml
= line 1: no UTF-8; a policy is a text in TOML
= the file looks like UTF-16; UTF-8 is wanted
bytes p.toml PK\x03\x04\xFF
run explain w migrate p.toml
= refused: E4 policy, P1 not toml
= line 1: no UTF-8; a policy is a text in TOML
= the file is a zip or Excel file; it has to be exported as TOML
long p.toml 65537
run explain w migrate p.toml
= refused: E4 policy, P1 not toml
= the file has more than 65536 bytes, which is the most that is allowed
policy p.toml first_year = 2023->
run explain w migrate p.toml
= refused: E4 policy, P2 missing
= key "first_year" is missing; wanted: first_year, last_year and at least one [[product]], [[store]] and [[customer]], each with name and type; a [[holiday]] with day and name
policy p.toml first_year->first_yaer
run explain w migrate p.toml
= refused: E4 policy, P3 unknown key
= key "first_yaer": the number 2023 stands there; the keys are first_year, last_year, product, store, customer and holiday, those of an attribute name and type, those of a holiday day and name
policy p.toml first_year->"a\u001b[2J\nb"
run explain w migrate p.toml
= refused: E4 policy, P3 unknown key
= key "a\x1b[2J\nb": the number 2023 stands there; the keys are first_year, last_year, product, store, customer and holiday, those of an attribute name and type, those of a holiday day and name
policy p.toml first_year->kkkkkkkkkkkkkkkkkkkkkkkkkkkkkkkkkkkkkkkkkkkkkkkkkkkkkkkkkkkkk
run explain w migrate p.toml
= refused: E4 policy, P3 unknown key
= key "kkkkkkkkkkkkkkkkkkkkkkkkkkkkkkkkkkkkkkkkkkkkkkkkkkkkkkkkkkkk ..": the number 2023 stands there; the keys are first_year, last_year, product, store, customer and holiday, those of an attribute name and type, those of a holiday day and name
policy p.toml [[holiday]]->[[holidays]]
run explain w migrate p.toml
= refused: E4 policy, P3 unknown key
= key "holidays": a TOML array stands there; the keys are first_year, last_year, product, store, customer and holiday, those of an attribute name and type, those of a holiday day and name
policy p.toml name = "brand"->name = "Brand"
run explain w migrate p.toml
= refused: E4 policy, P4 bad name
= [[product]] number 2, key "name": the text 'Brand' stands there; a name has 1 to 24 characters: a letter a to z, then letters a to z, digits or _; it is neither id nor day
policy p.toml name = "brand"|type = 2->name = "brand"|type = "2"
run explain w migrate p.toml
= refused: E4 policy, P5 bad type
= [[product]] number 2, key "type": the text '2' stands there; a type is a whole number from 0 to 7, without quotes
policy p.toml [[store]]->[[product]]|name = "size"|type = 1|[[store]]
run explain w migrate p.toml
= refused: E4 policy, P6 too many
= [[product]]: a dimension has at most 6 attributes
policy p.toml name = "brand"->name = "description"
run explain w migrate p.toml
= refused: E4 policy, P7 named twice
= [[product]] number 2, key "name": the text 'description' stands there; no two attributes of a dimension have the same name
policy p.toml name = "brand"|type = 2->name = "brand"|type = 4
run explain w migrate p.toml
= refused: E4 policy, P8 profile outside
= [[product]] number 2, key "type": the number 4 stands there; types 4 and 5 are for attributes of customer alone
policy p.toml name = "tier"|type = 2->name = "tier"|type = 4|[[customer]]|name = "age_band"|type = 5
run explain w migrate p.toml
= refused: E4 policy, P9 profile mixed
= [[customer]] number 2, key "type": the number 5 stands there; customer has attributes of type 4 or of type 5, not of both
policy p.toml last_year = 2026->last_year = 2053
run explain w migrate p.toml
= refused: E4 policy, P10 bad years
= key "last_year": the number 2053 stands there; that makes more than 30 years; first_year and last_year are whole numbers from 1900 to 2199 without quotes, the first not after the last, and at most 30 years
policy p.toml first_year = 2023->first_year = 2030
run explain w migrate p.toml
= refused: E4 policy, P10 bad years
= key "last_year": the number 2026 stands there; it is before first_year; first_year and last_year are whole numbers from 1900 to 2199 without quotes, the first not after the last, and at most 30 years
policy p.toml first_year = 2023->first_year = 1899
run explain w migrate p.toml
= refused: E4 policy, P10 bad years
= key "first_year": the number 1899 stands there; it is too early; first_year and last_year are whole numbers from 1900 to 2199 without quotes, the first not after the last, and at most 30 years
policy p.toml last_year = 2026->last_year = 2200
run explain w migrate p.toml
= refused: E4 policy, P10 bad years
= key "last_year": the number 2200 stands there; it is too late; first_year and last_year are whole numbers from 1900 to 2199 without quotes, the first not after the last, and at most 30 years
policy p.toml last_year = 2026->last_year = "2026"
run explain w migrate p.toml
= refused: E4 policy, P10 bad years
= key "last_year": the text '2026' stands there; first_year and last_year are whole numbers from 1900 to 2199 without quotes, the first not after the last, and at most 30 years
policy p.toml day = "2024-12-25"->day = 2024-12-25
run explain w migrate p.toml
= refused: E4 policy, P11 bad holiday
= [[holiday]] number 1, key "day": a TOML datetime stands there; a holiday's day is "YYYY-MM-DD" with quotes, within the years and on no other holiday's day, and its name has 1 to 60 bytes and doesn't begin with (

# In the tables of stores and holidays.
policy p.toml name = "city"|type = 2->name = "city"|kind = 2
run explain w migrate p.toml
= refused: E4 policy, P3 unknown key
= [[store]] number 1, key "kind": the number 2 stands there; the keys are first_year, last_year, product, store, customer and holiday, those of an attribute name and type, those of a holiday day and name
policy p.toml name = "city"|type = 2->name = "city"|typ = 2
run explain w migrate p.toml
= refused: E4 policy, P3 unknown key
= [[store]] number 1, key "typ": the number 2 stands there; the keys are first_year, last_year, product, store, customer and holiday, those of an attribute name and type, those of a holiday day and name
bytes p.toml first_year = 2023\nlast_year = 2026\nproduct = []\n[[store]]\nname = "city"\ntype = 2\n[[customer]]\nname = "tier"\ntype = 2\n
run explain w migrate p.toml
= refused: E4 policy, P2 missing
= [[product]]: wanted: first_year, last_year and at least one [[product]], [[store]] and [[customer]], each with name and type; a [[holiday]] with day and name
bytes p.toml first_year = 2023\nlast_year = 2026\nproduct = [1]\n[[store]]\nname = "city"\ntype = 2\n[[customer]]\nname = "tier"\ntype = 2\n
run explain w migrate p.toml
= refused: E4 policy, P2 missing
= [[product]] number 1: wanted: first_year, last_year and at least one [[product]], [[store]] and [[customer]], each with name and type; a [[holiday]] with day and name
policy p.toml name = "city"|type = 2->name = "city"
run explain w migrate p.toml
= refused: E4 policy, P2 missing
= [[store]] number 1, key "type" is missing; wanted: first_year, last_year and at least one [[product]], [[store]] and [[customer]], each with name and type; a [[holiday]] with day and name
policy p.toml last_year = 2026->last_year = 2026|store = true and [[store]]|name = "city"|type = 2->
run explain w migrate p.toml
= refused: E4 policy, P2 missing
= key "store": a TOML boolean stands there; wanted: first_year, last_year and at least one [[product]], [[store]] and [[customer]], each with name and type; a [[holiday]] with day and name
policy p.toml [[holiday]]->[[holiday]]|day = "2024-12-25"|name = "Noel"|[[holiday]]
run explain w migrate p.toml
= refused: E4 policy, P11 bad holiday
= [[holiday]] number 2, key "day": the text '2024-12-25' stands there; a holiday's day is "YYYY-MM-DD" with quotes, within the years and on no other holiday's day, and its name has 1 to 60 bytes and doesn't begin with (
policy p.toml name = "Christmas Day"->name = "(none)"
run explain w migrate p.toml
= refused: E4 policy, P11 bad holiday
= [[holiday]] number 1, key "name": the text '(none)' stands there; a holiday's day is "YYYY-MM-DD" with quotes, within the years and on no other holiday's day, and its name has 1 to 60 bytes and doesn't begin with (
policy p.toml day = "2024-12-25"->day = "2027-01-01"
run explain w migrate p.toml
= refused: E4 policy, P11 bad holiday
= [[holiday]] number 1, key "day": the text '2027-01-01' stands there; a holiday's day is "YYYY-MM-DD" with quotes, within the years and on no other holiday's day, and its name has 1 to 60 bytes and doesn't begin with (

# A renamed attribute, one that is gone, and a year that is lost.
policy p.toml name = "brand"->name = "marke" and [[product]]|name = "supplier"|type = 3|->  and last_year = 2026->last_year = 2025
run explain w migrate p.toml
= refused: E5 policy does not fit
= product: attribute 2 "brand" has to stay in its place; "marke" stands there
= product: attribute 6 "supplier" has to stay in its place; nothing stands there
= the years 2023 to 2026 have to stay; 2023 to 2025 stand there

# A record too many.
policy two.toml name = "brand"|type = 2|[[product]]|name = "category"|type = 6|[[product]]|name = "department"|type = 7|[[product]]|name = "launched"|type = 0|[[product]]|name = "supplier"|type = 3->name = "brand"|type = 2
ends 0 init v two.toml
many many.csv 5001
run explain v product many.csv
= refused: E3 batch, B1 too large, record 5001
= line 5002: record 5001, at most 5000 are allowed; the file has 5002 lines

# A fault in each of 5,000 records, and then one record too many, which is a fault more.
undated many.csv 5000
run explain v product many.csv
= refused: E3 batch, B5 bad day, record 1
=* line {2-21}, column 2 "day": '2024-13-10' is no real day; wanted: a day as YYYY-MM-DD, from 1900-01-01 to 2199-12-31
= and 4980 more
undated many.csv 5001
run explain v product many.csv
= refused: E3 batch, B5 bad day, record 1
=* line {2-21}, column 2 "day": '2024-13-10' is no real day; wanted: a day as YYYY-MM-DD, from 1900-01-01 to 2199-12-31
= and 4981 more
"#;
