//! Batches, manifests and lists of reports, as their bytes are read.

pub const ALL: &str = r#"
# Batches for dimensions.
scenario batches for dimensions
# A record: id day|attributes, each with a bar behind it.
batch product id,day,description,brand\nP1,2024-02-01,Cola 1l,\nP.1-_x,1900-01-01,"Cola, ""1l""",Acme\n
= P1 20240201|Cola 1l|(none)|
= P.1-_x 19000101|Cola, "1l"|Acme|

# LF, CR and CRLF end a record, blank lines are none, and a byte order mark in front isn't a part of the header.
batch customer id,day,tier\nC9,2024-07-01,Gold\nC9,2024-07-02,Iron\n
= C9 20240701|Gold|
= C9 20240702|Iron|
batch customer id,day,tier\rC9,2024-07-01,Gold\rC9,2024-07-02,Iron\r
= C9 20240701|Gold|
= C9 20240702|Iron|
batch customer id,day,tier\r\nC9,2024-07-01,Gold\r\nC9,2024-07-02,Iron\r\n
= C9 20240701|Gold|
= C9 20240702|Iron|
batch customer \xEF\xBB\xBF\n\nid,day,tier\n\nC9,2024-07-01,Gold\n\r\nC9,2024-07-02,Iron
= C9 20240701|Gold|
= C9 20240702|Iron|

# Headers.
batch customer
= 0 WrongHeader
batch customer \xEF\xBB\xBF\r\n
= 0 WrongHeader
batch customer id,day\n
= 0 WrongHeader
batch customer id,day,tier,city\n
= 0 WrongHeader
batch customer id,day,city\n
= 0 WrongHeader
batch customer ID,day,tier\n
= 0 WrongHeader
batch customer C9,2024-07-01,Gold\n
= 0 WrongHeader
batch customer "id",day,tier
= no record
batch store id,day,city\nS1,2024-07-01,Oslo
= S1 20240701|Oslo|

# What is wrong with a field.
rows product P1,2024-08-01,Cola
= 1 WrongLength
rows product P1,2024-08-01,Cola,Acme,
= 1 WrongLength
rows product ,2024-08-01,Cola,Acme
= 1 BadKey
rows product P 1,2024-13-01,(x,Acme
= 1 BadKey
rows product P\x001,2024-08-01,Cola,Acme
= 1 BadKey
rows product P12345678901234567890123456789012,2024-08-01,Cola,Acme
= 1 BadKey
rows product P1,2023-02-29,(x,Acme
= 1 BadDay
rows product P1,2200-01-01,Cola,Acme
= 1 BadDay
rows product P1,2024-08-01,(x,Acme
= 1 BadValue
rows product P1,2024-08-01,Cola,A\x00
= 1 BadValue
rows product P1,2024-08-01,"Cola\n1l",Acme
= 1 BadValue
rows product P1,2024-08-01,Cola,\xC3
= 1 BadValue

# Good fields.
rows product P1234567890123456789012345678901,2199-12-31,Cola,Acme
= P1234567890123456789012345678901 21991231|Cola|Acme|
rows product P1,2024-08-01, Cola 1l ,
= P1 20240801| Cola 1l |(none)|
rows product P1,2024-08-01,Caf\xC3\xA9,x)
= P1 20240801|Café|x)|
rows product P1,2024-08-01,Cola,"Acme
= P1 20240801|Cola|Acme|

# A member may have a day once.
rows customer C9,2024-07-01,Gold\nC8,2024-07-01,Gold\nC9,2024-07-01,Iron
= 3 TwiceInBatch

# A batch that was cut off is read where whole records are left, and also where the cut lies in the last value.
cuts id,day,tier\nC9,2024-07-01,Gold
= 0: 0 WrongHeader
= 11: no record
= 13: 1 WrongLength
= 26: C9 20240701|(none)|
= 27: C9 20240701|G|
= 28: C9 20240701|Go|
= 29: C9 20240701|Gol|
= 30: C9 20240701|Gold|

# Up to 5,000 records and 1,000,000 bytes. The mark in front counts, and blank lines do.
many customer 5000
= of a dimension 5000
many customer 5000 C0
= 5001 TooLarge
long customer 1000000 \xEF\xBB\xBFid,day,tier
= no record
long customer 1000001 \xEF\xBB\xBFid,day,tier
= 0 TooLarge

any store S1,2024-01-05,Oslo\n
= of a dimension 1
made customer
= C9 19000101|

# Batches of sales.
scenario batches of sales
# A record: ticket line day store product customer quantity amount cost, and a discount that is not 0.
rows sales T1,0001,2024-01-05,S1,P1,C9,-0099,12.5,1
= T1 1 20240105 S1 P1 C9 -99 1250 100

# Amounts are in hundredths.
rows sales T1,9999,2023-01-01,S1,P1,,0,-9999999.99,-0
= T1 9999 20230101 S1 P1 - 0 -999999999 0
rows sales T1,1,2026-12-31,S1,P1,,9999,12.5,0
= T1 1 20261231 S1 P1 - 9999 1250 0
rows sales T1,1,2024-01-05,S1,P1,,-9999,-0,0
= T1 1 20240105 S1 P1 - -9999 0 0
rows sales T1,1,2024-01-05,S1,P1,,1,0000001.05,0
= T1 1 20240105 S1 P1 - 1 105 0
rows sales T1,1,2024-01-05,S1,P1,,1,-0.05,0
= T1 1 20240105 S1 P1 - 1 -5 0
rows sales T1,1,2024-01-05,S1,P1,,1,9999999,0
= T1 1 20240105 S1 P1 - 1 999999900 0

# Lines are 1 to 9999, quantities up to 9999 either way, amounts below 10,000,000 with up to two digits after a point.
rows sales T1,0,2024-13-01,S1,P1,,1,1,1
= 1 BadNumber
rows sales T1,10000,2024-01-05,S1,P1,,1,1,1
= 1 BadNumber
rows sales T1,,2024-01-05,S1,P1,,1,1,1
= 1 BadNumber
rows sales T1,-1,2024-01-05,S1,P1,,1,1,1
= 1 BadNumber
rows sales T1,1,2024-01-05,S1,P1,,10000,1,1
= 1 BadNumber
rows sales T1,1,2024-01-05,S1,P1,,-,1,1
= 1 BadNumber
rows sales T1,1,2024-01-05,S1,P1,,1.0,1,1
= 1 BadNumber
rows sales T1,1,2024-01-05,S1,P1,,1,10000000,1
= 1 BadNumber
rows sales T1,1,2024-01-05,S1,P1,,1,1.234,1
= 1 BadNumber
rows sales T1,1,2024-01-05,S1,P1,,1,+1,1
= 1 BadNumber
rows sales T1,1,2024-01-05,S1,P1,,1,.5,1
= 1 BadNumber
rows sales T1,1,2024-01-05,S1,P1,,1,1.,1
= 1 BadNumber
rows sales T1,1,2024-01-05,S1,P1,,1,1, 1
= 1 BadNumber
rows sales T1,1,2024-01-05,S1,P1,,1,1,
= 1 BadNumber

# Other fields.
rows sales T1,1,2024-13-01,S 1,P1,,1,1,1
= 1 BadDay
rows sales T1,1,1899-12-31,S1,P1,,1,1,1
= 1 BadDay
rows sales T12345678901234567890,1,2024-01-05,S1,P1,,1,1,1
= 1 BadKey
rows sales T1,1,2024-01-05,,P1,,1,1,1
= 1 BadKey
rows sales T1,1,2024-01-05,S1,P\x07,,1,1,1
= 1 BadKey
rows sales T1,1,2024-01-05,S1,P1,C 9,1,1,1
= 1 BadKey
rows sales T1,1,2024-01-05,S1,P1,,1,1
= 1 WrongLength
rows sales T1,1,2024-01-05,S1,P1,,1,1,1,
= 1 WrongLength

# A line that is there comes before a day outside the calendar, on the same record.
rows sales T5,1,2024-01-05,S1,P1,,1,1,1\nT5,0001,2027-01-01,S1,P1,,1,1,1
= 2 TwiceInBatch
rows sales T5,1,2024-01-05,S1,P1,,1,1,1\nT5,2,2024-01-05,S1,P1,,1,1,1
= T5 1 20240105 S1 P1 - 1 100 100
= T5 2 20240105 S1 P1 - 1 100 100
rows sales T5,1,2024-01-05,S1,P1,,1,1,1\nT5,2,2027-01-01,S1,P1,,1,1,1
= 2 OutsideCalendar
rows sales T5,1,2024-01-05,S1,P1,,1,1,1\nT5,2,2022-12-31,S1,P1,,1,1,1
= 2 OutsideCalendar
rows sales T5,1,2024-01-05,S1,P1,,1,1,1\nT5,2,2200-01-01,S1,P1,,1,1,1
= 2 OutsideCalendar
rows sales T5,1,2024-01-05,S1,P1,,1,1,1\nT5,2,9999-12-31,S1,P1,,1,1,1
= 2 OutsideCalendar

# Headers.
batch sales
= 0 WrongHeader
batch sales ticket,line,day,store,product,customer,quantity,cost,amount\n
= 0 WrongHeader
batch sales ticket,line,day,store,product,customer,quantity,amount\n
= 0 WrongHeader
batch sales ticket,line,day,store,product,customer,quantity,amount,cost
= no record

# In the second format a discount stands behind the cost: up to seven digits and perhaps a point with one or two, and no sign.
rows discounted T5,1,2024-07-05,S1,P1,C9,2,5.00,3.20,0.5
= T5 1 20240705 S1 P1 C9 2 500 320 50
rows discounted T5,1,2024-07-05,S1,P1,C9,2,5.00,3.20,0
= T5 1 20240705 S1 P1 C9 2 500 320
rows discounted T5,1,2024-07-05,S1,P1,C9,2,5.00,3.20,9999999.99
= T5 1 20240705 S1 P1 C9 2 500 320 999999999
rows discounted T5,1,2024-07-05,S1,P1,C9,-2,-5.00,-3.20,0000001.05
= T5 1 20240705 S1 P1 C9 -2 -500 -320 105
rows discounted T5,1,2024-07-05,S1,P1,C9,2,5.00,3.20,-0.5
= 1 BadNumber
rows discounted T5,1,2024-07-05,S1,P1,C9,2,5.00,3.20,+0.5
= 1 BadNumber
rows discounted T5,1,2024-07-05,S1,P1,C9,2,5.00,3.20,
= 1 BadNumber
rows discounted T5,1,2024-07-05,S1,P1,C9,2,5.00,3.20,.5
= 1 BadNumber
rows discounted T5,1,2024-07-05,S1,P1,C9,2,5.00,3.20,0.
= 1 BadNumber
rows discounted T5,1,2024-07-05,S1,P1,C9,2,5.00,3.20,0.125
= 1 BadNumber
rows discounted T5,1,2024-07-05,S1,P1,C9,2,5.00,3.20,10000000
= 1 BadNumber
rows discounted T5,1,2024-07-05,S1,P1,C9,2,5.00,3.20
= 1 WrongLength
rows discounted T5,1,2024-07-05,S1,P1,C9,2,5.00,3.20,0.5,
= 1 WrongLength
# The discount is the last field, so that a fault of any other comes first, and a line that is there after it.
rows discounted T5,1,2024-07-05,S1,P1,C 9,2,5.00,3.20,-1
= 1 BadKey
rows discounted T5,1,2024-07-05,S1,P1,,2,5.00,3.20,0\nT5,1,2024-07-05,S1,P1,,2,5.00,3.20,-1
= 2 BadNumber
rows discounted T5,1,2024-07-05,S1,P1,,2,5.00,3.20,0\nT5,1,2024-07-05,S1,P1,,2,5.00,3.20,1
= 2 TwiceInBatch
# The header is that of the format.
batch discounted ticket,line,day,store,product,customer,quantity,amount,cost\nT1,1,2024-02-05,S1,P1,,2,5.00,3.20
= 0 WrongHeader
batch discounted ticket,line,day,store,product,customer,quantity,amount,discount,cost\n
= 0 WrongHeader
batch discounted ticket,line,day,store,product,customer,quantity,amount,cost,discount
= no record
batch sales ticket,line,day,store,product,customer,quantity,amount,cost,discount
= 0 WrongHeader
any discounted T5,1,2024-07-05,S1,P1,C9,2,5.00,3.20,0.5
= of sales 1

any sales T1,1,2024-01-05,S1,P1,,1,1,1
= of sales 1
many sales 4999 T4999,1,2024-01-05,S1,P1,,1,1,1
= of sales 5000
many sales 5000 ,
= 5001 TooLarge
made sales
= T1 1 99991231 S1 P1 - -1 -250 -160

# Batches of voids.
scenario batches of voids
# A record: ticket line.
batch void ticket,line\nT5,1\nT6,12\n
= T5 1
= T6 12

# A ticket has up to 20 bytes, a line up to four digits, with zeros in front or without.
rows void T5,0001\nT5,0002\nT5,9999
= T5 1
= T5 2
= T5 9999
rows void T1234567890123456789,1
= T1234567890123456789 1

# Quotes, and LF, CR and CRLF, which end a record; blank lines are none, and a byte order mark in front isn't a part of the header.
batch void "ticket","line"\n"T5","2"\n
= T5 2
batch void ticket,line\rT5,1\rT5,2\r
= T5 1
= T5 2
batch void ticket,line\r\nT5,1\r\nT5,2\r\n
= T5 1
= T5 2
batch void \xEF\xBB\xBFticket,line\n\nT5,1\n\r\nT5,2
= T5 1
= T5 2

# No record.
batch void ticket,line
= no record
batch void ticket,line\n
= no record

# Headers.
batch void
= 0 WrongHeader
batch void ticket
= 0 WrongHeader
batch void line,ticket\n
= 0 WrongHeader
batch void ticket,Line\n
= 0 WrongHeader
batch void ticket,line,day\nT5,1\n
= 0 WrongHeader
batch void T5,1\n
= 0 WrongHeader
batch void ticket,line,day,store,product,customer,quantity,amount,cost,discount\n
= 0 WrongHeader

# What is wrong with a record: its length first, then its ticket and then its line.
rows void T5
= 1 WrongLength
rows void T 5,0,2024-07-05
= 1 WrongLength
rows void T5,1,
= 1 WrongLength
rows void T 5,0
= 1 BadKey
rows void ,1
= 1 BadKey
rows void T12345678901234567890,1
= 1 BadKey
rows void T5,0
= 1 BadNumber
rows void T5,10000
= 1 BadNumber
rows void T5,00001
= 1 BadNumber
rows void T5,x
= 1 BadNumber
rows void T5,
= 1 BadNumber
rows void T5,-1
= 1 BadNumber
rows void T5,1.0
= 1 BadNumber
rows void T5, 1
= 1 BadNumber

# A batch withdraws a line once. A ticket of other letters is another, and the first record that is wrong is told.
rows void T5,1\nT5,1
= 2 TwiceInBatch
rows void T5,1\nT6,1\nT5,0001
= 3 TwiceInBatch
rows void T5,1\nt5,1
= T5 1
= t5 1
rows void T5,1\nT5,1\nT5,0
= 2 TwiceInBatch
rows void T5,1\nT5,0\nT5,1
= 2 BadNumber

# Up to 5,000 records and 1,000,000 bytes.
many void 5000
= of voids 5000
many void 5000 ,
= 5001 TooLarge
long void 1000000 ticket,line
= no record
long void 1000001 ticket,line
= 0 TooLarge

# The first format has no such batch, whatever its bytes are.
rows early T5,1
= 0 NotInFormat
batch early
= 0 NotInFormat
batch early ticket,line,day\nT 5,0
= 0 NotInFormat
long early 1000001 ticket,line
= 0 NotInFormat
any early T5,1
= 0 NotInFormat

any void T5,1\nT5,2
= of voids 2
made void
= T1 9999

# Batches with faults, as files that were exported have them.
scenario faults of batches
# Semicolons for commas, in the header and below it.
faults sales 20 ticket;line;day;store;product;customer;quantity;amount;cost\nT1;1;05.01.2024;S1;P1;;1;1,50;1\n
= 0 1 0 WrongHeader|ticket;line;day;store;product;customer;quantity;amount;cost
faults sales 20 ticket,line,day,store,product,customer,quantity,amount,cost\nT1;1;2024-01-05;S1;P1;;1;1;1\nT1,1,2024-01-05,S1,P1,,1,1,1\n
= 1 2 - WrongLength

# Days and amounts as they are written in German; without quotes a comma makes two fields.
faults sales 20 ticket,line,day,store,product,customer,quantity,amount,cost\nT1,1,01.02.2024,S1,P1,,1,1,1\nT2,1,2024-02-01,S1,P1,,1,"1,50",1\nT3,1,2024-02-01,S1,P1,,1,1,"1,50"\nT4,1,2024-02-01,S1,P1,,1,1.50,1\n
= 1 2 2 BadDay|01.02.2024
= 2 3 7 BadNumber|1,50
= 3 4 8 BadNumber|1,50
faults sales 20 ticket,line,day,store,product,customer,quantity,amount,cost\nT2,1,2024-02-01,S1,P1,,1,1,50,1\n
= 1 2 - WrongLength

# Latin-1, of which no byte above 127 is text.
faults product 20 id,day,description,brand\nP1,2024-02-01,Caf\xE9,Acme\nP2,2024-02-01,Caf\xC3\xA9,Acme\nP\xE9,2024-02-01,Cola,Acme\n
= 1 2 2 BadValue|Caf\xE9
= 3 4 0 BadKey|P\xE9

# 60 bytes and 61.
faults customer 20 id,day,tier\nC1,2024-07-01,aaaaaaaaaaaaaaaaaaaaaaaaaaaaaaaaaaaaaaaaaaaaaaaaaaaaaaaaaaaa\nC2,2024-07-01,aaaaaaaaaaaaaaaaaaaaaaaaaaaaaaaaaaaaaaaaaaaaaaaaaaaaaaaaaaaaa\n
= 2 3 2 BadValue|aaaaaaaaaaaaaaaaaaaaaaaaaaaaaaaaaaaaaaaaaaaaaaaaaaaaaaaaaaaaa

# A header with another name, one name less, one more, none.
faults store 20 id,day,town\nS 1,x,Oslo\n
= 0 1 2 WrongHeader|town
faults store 20 id,day\nS1,2024-07-01\n
= 0 1 2 WrongHeader|
faults store 20 id,day,city,town\n
= 0 1 3 WrongHeader|town
faults store 20
= 0 1 0 WrongHeader|
faults sales 20 ticket,line,day,store,product,customer,quantity,amount,cost,discount\n
= 0 1 9 WrongHeader|discount
faults discounted 20 ticket,line,day,store,product,customer,quantity,amount,cost\n
= 0 1 9 WrongHeader|

# A line ends with LF, with CR, or with CR and LF, also within quotes; blank lines and a byte order mark count in no record.
faults customer 20 id,day,tier\nC1,2024-07-01,"Go\nld\r\n"\nC2,2024-13-01,Gold\n
= 1 2 2 BadValue|Go\x0Ald\x0D\x0A
= 2 5 1 BadDay|2024-13-01
faults customer 20 id,day,tier\nC1,2024-07-01,Gold\n"C2","2024-07-01\n","Gold"\nC3,2024-07-01,Gold,\n
= 2 3 1 BadDay|2024-07-01\x0A
= 3 5 - WrongLength
faults customer 20 id,day,tier\r\nC1,x,Gold\r\n\r\nC2,y,Gold\r\n
= 1 2 1 BadDay|x
= 2 4 1 BadDay|y
faults customer 20 id,day,tier\rC1,x,Gold\r\r\nC2,y,"Go\rld"\rC3,z,Gold\r
= 1 2 1 BadDay|x
= 2 4 1 BadDay|y
= 3 6 1 BadDay|z
faults customer 20 \xEF\xBB\xBF\n\r\nid,day,city\n
= 0 3 2 WrongHeader|city
faults customer 20 \xEF\xBB\xBFid,day,tier\n\n\nC1,x,Gold
= 1 4 1 BadDay|x

# A key counts where its record is outside the calendar or came twice, and not where a field is at fault.
faults sales 20 ticket,line,day,store,product,customer,quantity,amount,cost\nT5,1,2027-01-01,S1,P1,,1,1,1\nT5,1,2024-01-05,S1,P1,,1,1,1\nT5,01,2027-01-01,S1,P1,,1,1,1\nT5,2,x,S1,P1,,1,1,1\nT5,2,2024-01-05,S1,P1,,1,1,1\n
= 1 2 2 OutsideCalendar|2027-01-01
= 2 3 - TwiceInBatch
= 3 4 - TwiceInBatch
= 4 5 2 BadDay|x

# Of thirty faults twenty are listed; of one none.
faults customer 20 id,day,tier\nC1\nC1\nC1\nC1\nC1\nC1\nC1\nC1\nC1\nC1\nC1\nC1\nC1\nC1\nC1\nC1\nC1\nC1\nC1\nC1\nC1\nC1\nC1\nC1\nC1\nC1\nC1\nC1\nC1\nC1\n
=* {1-20} {2-21} - WrongLength
= 10 more
faults customer 0 id,day,tier\nC1\n
= 1 more

# After 5,000 records there is one fault more.
crowd customer 4999 C1,x
= 5000 5001 - WrongLength
crowd customer 5000 C1,x
= 5001 5002 - TooLarge

# Voids, and sales of the second format.
faults void 20 ticket,line\nT5,0\nT 5,1\nT5,1\n
= 1 2 1 BadNumber|0
= 2 3 0 BadKey|T 5
faults void 20 ticket,line\nT5,1\n
= no fault
faults early 20 ticket,line\nT5,1\n
= 0 1 - NotInFormat
faults discounted 20 ticket,line,day,store,product,customer,quantity,amount,cost,discount\nT1,1,2024-01-05,S1,P1,,1,1,1,-0.5\n
= 1 2 9 BadNumber|-0.5

columns product
= id Key
= day EffectiveDay
= description Value
= brand Value
columns sales
= ticket Ticket
= line Line
= day Day
= store Key
= product Key
= customer CustomerKey
= quantity Quantity
= amount Amount
= cost Amount
columns discounted
= ticket Ticket
= line Line
= day Day
= store Key
= product Key
= customer CustomerKey
= quantity Quantity
= amount Amount
= cost Amount
= discount Discount
columns early
= ticket Ticket
= line Line

# Manifests of deliveries.
scenario manifests of deliveries
# LF, CR and CRLF end a record, blank lines are none, and a byte order mark in front isn't a part of the first word.
manifest product,p1,p1.csv\nsales,s1,s1.csv\nmigrate,m1,m1.toml\n
= product p1 p1.csv
= sales s1 s1.csv
= migrate m1 m1.toml
manifest store,o1,o1.csv\rcustomer,c1,c1.csv
= store o1 o1.csv
= customer c1 c1.csv
manifest \xEF\xBB\xBFproduct,p1,p1.csv\r\n\r\nsales,s1,s1.csv\r\n
= product p1 p1.csv
= sales s1 s1.csv
manifest \n\nproduct,p1,p1.csv\n\n
= product p1 p1.csv
manifest sales,s1,s1.csv\nvoid,v1,v1.csv\nstore,o1,o1.csv
= sales s1 s1.csv
= void v1 v1.csv
= store o1 o1.csv

# Quotes, blanks, and an id and a path that are anything.
manifest "product","p ""1""","first, one.csv"\nsales, s1,s 1.csv\nstore,,o1.csv
= product p "1" first, one.csv
= sales  s1 s 1.csv
= store  o1.csv
manifest customer,caf\xC3\xA9,d/\xC3\xA9.csv
= customer café d/é.csv

# No command.
manifest
= no command
manifest \xEF\xBB\xBF
= no command
manifest \n\r\n
= no command

# Two fields, four and none, and the record alone that is the first.
manifest product,p1
= 1 is none
manifest product,p1,p1.csv\nsales,s1\nstore,o1
= 2 is none
manifest product,p1,p1.csv\nsales,s1,s1.csv,
= 2 is none
manifest product,p1,p1.csv\n\n\nsales,s1,s1.csv\n""
= 3 is none

# Words of no kind. Blank lines have no number.
manifest Product,p1,p1.csv
= 1 is none
manifest product ,p1,p1.csv
= 1 is none
manifest void,v1,v1.csv\nvoids,v2,v2.csv
= 2 is none
manifest Void,v1,v1.csv
= 1 is none
manifest product,p1,p1.csv\n\ninit,i1,i1.toml
= 2 is none
manifest ,p1,p1.csv
= 1 is none
manifest kind,id,path\nproduct,p1,p1.csv
= 1 is none

# Bytes that are no text.
manifest \xFF,p1,p1.csv
= 1 is none
manifest product,p1,p1.csv\nsales,s\xC3,s1.csv
= 2 is none
manifest product,p1,\xED\xA0\x80
= 1 is none

# Lists of reports.
scenario lists of reports
# LF, CR and CRLF end a record, blank lines are none, and a byte order mark in front isn't a part of the first attribute.
reports product.brand,was,2024-01-01,2024-12-31\ndate.month,is,2023-01-01,2023-12-31\n
= product.brand|was|2024-01-01|2024-12-31
= date.month|is|2023-01-01|2023-12-31
reports product.brand,was,2024-01-01,2024-12-31\rstore.city,prior,2024-01-01,2024-12-31
= product.brand|was|2024-01-01|2024-12-31
= store.city|prior|2024-01-01|2024-12-31
reports \xEF\xBB\xBFproduct.brand,was,2024-01-01,2024-12-31\r\n\r\ndate.month,is,2023-01-01,2023-12-31\r\n
= product.brand|was|2024-01-01|2024-12-31
= date.month|is|2023-01-01|2023-12-31

# Any texts, quoted ones and empty ones: what they ask for is judged by a report.
reports "shelf ""A""",Was,"1, 2",\n,,,
= shelf "A"|Was|1, 2|
= |||
reports caf\xC3\xA9,once,\xC3\xA9,2024
= café|once|é|2024

# No report.
reports
= no report
reports \xEF\xBB\xBF
= no report
reports \n\r\n
= no report

# Three fields, five and none, and the record alone that is the first. Blank lines have no number.
reports product.brand,was,2024-01-01
= 1 is none
reports product.brand,was,2024-01-01,2024-12-31\n\nproduct.brand,was,2024-01-01\ndate.month
= 2 is none
reports product.brand,was,2024-01-01,2024-12-31,
= 1 is none
reports product.brand,was,2024-01-01,2024-12-31\n""
= 2 is none

# Bytes that are no text, in each field.
reports \xFF,was,2024-01-01,2024-12-31
= 1 is none
reports a,was,b,c\na,w\xC3,b,c
= 2 is none
reports a,was,\xED\xA0\x80,c
= 1 is none
reports a,was,b,\x80
= 1 is none
"#;
