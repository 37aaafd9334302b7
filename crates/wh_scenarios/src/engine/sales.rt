//! Batches of sales among batches of members, in order, and the facts after them.

pub const ALL: &str = "
scenario among batches
# Each sale has the row of its day, and a sale without a card has zeros.
make flat
load p0 p2
send sales s1
> ticket,line,day,store,product,customer,quantity,amount,cost
> T1,1,2024-02-05,S1,P1,,2,5.00,3.20
> T0,1,2023-12-31,S1,P1,,1,2.5,1.60
= accepted 5: 2 records, 1 placeholders
table fact
= ticket,line,day,store_key,product_key,customer_key,store_durable,product_durable,customer_durable,profile,quantity,amount,cost
= T0,1,20231231,1,1,0,1,1,0,0,1,250,160
= T1,1,20240205,1,3,0,1,1,0,0,2,500,320

# A late record moves a sale.
load p3 p3
table fact
= ticket,line,day,store_key,product_key,customer_key,store_durable,product_durable,customer_durable,profile,quantity,amount,cost
= T0,1,20231231,1,1,0,1,1,0,0,1,250,160
= T1,1,20240205,1,4,0,1,1,0,0,2,500,320

# A later one moves it back.
load p4 p4
table fact
= ticket,line,day,store_key,product_key,customer_key,store_durable,product_durable,customer_durable,profile,quantity,amount,cost
= T0,1,20231231,1,1,0,1,1,0,0,1,250,160
= T1,1,20240205,1,3,0,1,1,0,0,2,500,320

# Records that make no row of its day leave a sale where it is.
load p5 p5
table fact
= ticket,line,day,store_key,product_key,customer_key,store_durable,product_durable,customer_durable,profile,quantity,amount,cost
= T0,1,20231231,1,1,0,1,1,0,0,1,250,160
= T1,1,20240205,1,3,0,1,1,0,0,2,500,320
load p6 p8
table fact
= ticket,line,day,store_key,product_key,customer_key,store_durable,product_durable,customer_durable,profile,quantity,amount,cost
= T0,1,20231231,1,1,0,1,1,0,0,1,250,160
= T1,1,20240205,1,3,0,1,1,0,0,2,500,320

# A product and a customer that nothing mentioned. Their keys are those of their only rows, and the profile is the unknown one.
send sales s2
> ticket,line,day,store,product,customer,quantity,amount,cost
> T2,1,2024-06-10,S1,P9,C9,1,10.00,7.00
= accepted 12: 1 records, 2 placeholders
table fact
= ticket,line,day,store_key,product_key,customer_key,store_durable,product_durable,customer_durable,profile,quantity,amount,cost
= T0,1,20231231,1,1,0,1,1,0,0,1,250,160
= T1,1,20240205,1,3,0,1,1,0,0,2,500,320
= T2,1,20240610,1,9,1,1,2,1,1,1,1000,700
table store
= surrogate,durable,natural,from_day,to_day,is_current,a1,a2,a3,a4,a5,a6,b1,b2,b3,b4,b5,b6,profile_now
= 1,1,S1,19000101,99991231,1,(unknown),,,,,,,,,,,,0
table customer
= surrogate,durable,natural,from_day,to_day,is_current,a1,a2,a3,a4,a5,a6,b1,b2,b3,b4,b5,b6,profile_now
= 0,0,(no card),19000101,99991231,1,(no card),,,,,,,,,,,,0
= 1,1,C9,19000101,99991231,1,(unknown),,,,,,,,,,,,0

# The numbers 7 and 8 were drawn by days of the first product.
table product
= surrogate,durable,natural,from_day,to_day,is_current,a1,a2,a3,a4,a5,a6,b1,b2,b3,b4,b5,b6,profile_now
= 1,1,P1,19000101,20240119,0,Cola 1 l,Acme,Drinks,Grocery,2019,South,,,Soft drinks,,,East,0
= 3,1,P1,20240201,20240331,0,Cola 1 l,Cask,Drinks,Grocery,2019,South,,,Soft drinks,,,East,0
= 4,1,P1,20240120,20240131,0,Cola 1 l,Bolt,Drinks,Grocery,2019,South,,,Soft drinks,,,East,0
= 6,1,P1,20240401,99991231,1,Cola 1 l,Cask,Soft drinks,Grocery,2019,South,,,Soft drinks,,,East,0
= 9,2,P9,19000101,99991231,1,(unknown),(unknown),(unknown),(unknown),(unknown),(unknown),,,(unknown),,,(none),0

# The unknown profile is there from the start.
table profile
= number,v1,v2,v3,v4,v5,v6
= 0,,,,,,
= 1,,,,,,
table member
= dim,durable,natural,opening
= 1,1,P1,1
= 1,2,P9,9
= 2,1,S1,1
= 3,1,C9,1

# A batch is kept to the byte, with its counts.
command 5
= number,id,kind,bytes,records,placeholders
= 5,s1,sales,ticket,line,day,store,product,customer,quantity,amount,cost
= T1,1,2024-02-05,S1,P1,,2,5.00,3.20
= T0,1,2023-12-31,S1,P1,,1,2.5,1.60
= ,2,1
command 12
= number,id,kind,bytes,records,placeholders
= 12,s2,sales,ticket,line,day,store,product,customer,quantity,amount,cost
= T2,1,2024-06-10,S1,P9,C9,1,10.00,7.00
= ,1,2
counts
= format 1
= commands 12
= changes 8
= facts 3
= products 2
= stores 1
= customers 1

# A record that fills a placeholder finds its sale under the same keys.
send product p9
> id,day,description,brand,category,department,launched,supplier
> P9,2024-06-05,Tea 50,Leaf,Drinks,Grocery,2024,North
= accepted 13: 1 records, 0 placeholders
table fact
= ticket,line,day,store_key,product_key,customer_key,store_durable,product_durable,customer_durable,profile,quantity,amount,cost
= T0,1,20231231,1,1,0,1,1,0,0,1,250,160
= T1,1,20240205,1,3,0,1,1,0,0,2,500,320
= T2,1,20240610,1,9,1,1,2,1,1,1,1000,700

# The first record of a customer gives the sale another profile, under the same keys.
send customer c1
> id,day,tier
> C9,2024-06-08,Gold
= accepted 14: 1 records, 0 placeholders
table fact
= ticket,line,day,store_key,product_key,customer_key,store_durable,product_durable,customer_durable,profile,quantity,amount,cost
= T0,1,20231231,1,1,0,1,1,0,0,1,250,160
= T1,1,20240205,1,3,0,1,1,0,0,2,500,320
= T2,1,20240610,1,9,1,1,2,1,2,1,1000,700

# A placeholder is filled where it stands, and makes no member.
table product
= surrogate,durable,natural,from_day,to_day,is_current,a1,a2,a3,a4,a5,a6,b1,b2,b3,b4,b5,b6,profile_now
= 1,1,P1,19000101,20240119,0,Cola 1 l,Acme,Drinks,Grocery,2019,South,,,Soft drinks,,,East,0
= 3,1,P1,20240201,20240331,0,Cola 1 l,Cask,Drinks,Grocery,2019,South,,,Soft drinks,,,East,0
= 4,1,P1,20240120,20240131,0,Cola 1 l,Bolt,Drinks,Grocery,2019,South,,,Soft drinks,,,East,0
= 6,1,P1,20240401,99991231,1,Cola 1 l,Cask,Soft drinks,Grocery,2019,South,,,Soft drinks,,,East,0
= 9,2,P9,19000101,99991231,1,Tea 50,Leaf,Drinks,Grocery,2024,North,,,Drinks,,,(none),0
table customer
= surrogate,durable,natural,from_day,to_day,is_current,a1,a2,a3,a4,a5,a6,b1,b2,b3,b4,b5,b6,profile_now
= 0,0,(no card),19000101,99991231,1,(no card),,,,,,,,,,,,0
= 1,1,C9,19000101,99991231,1,Gold,,,,,,,,,,,,0
table profile
= number,v1,v2,v3,v4,v5,v6
= 0,,,,,,
= 1,,,,,,
= 2,,,,,,
table member
= dim,durable,natural,opening
= 1,1,P1,1
= 1,2,P9,9
= 2,1,S1,1
= 3,1,C9,1

# A later tier that held on the day moves the sale to its row.
send customer c2
> id,day,tier
> C9,2024-06-10,Silver
= accepted 15: 1 records, 0 placeholders
table fact
= ticket,line,day,store_key,product_key,customer_key,store_durable,product_durable,customer_durable,profile,quantity,amount,cost
= T0,1,20231231,1,1,0,1,1,0,0,1,250,160
= T1,1,20240205,1,3,0,1,1,0,0,2,500,320
= T2,1,20240610,1,9,3,1,2,1,2,1,1000,700

# The same answers, and facts, where nothing else is asked between the batches.
scenario in one session
make flat
load p0 p2
batch s1
= accepted 5: 2 records, 1 placeholders
load p3 p8
batch s2
= accepted 12: 1 records, 2 placeholders
batch p9
= accepted 13: 1 records, 0 placeholders
send customer c1
> id,day,tier
> C9,2024-06-08,Gold
= accepted 14: 1 records, 0 placeholders
send customer c2
> id,day,tier
> C9,2024-06-10,Silver
= accepted 15: 1 records, 0 placeholders
table fact
= ticket,line,day,store_key,product_key,customer_key,store_durable,product_durable,customer_durable,profile,quantity,amount,cost
= T0,1,20231231,1,1,0,1,1,0,0,1,250,160
= T1,1,20240205,1,3,0,1,1,0,0,2,500,320
= T2,1,20240610,1,9,3,1,2,1,2,1,1000,700

scenario others
# A store moves the sales of its days alone.
make flat
load p0 p2
batch s1
= accepted 5: 2 records, 1 placeholders
send store b1
> id,day,city
> S1,2024-01-01,Bern
> S1,2024-02-01,Basel
= accepted 6: 2 records, 0 placeholders
table fact
= ticket,line,day,store_key,product_key,customer_key,store_durable,product_durable,customer_durable,profile,quantity,amount,cost
= T0,1,20231231,1,1,0,1,1,0,0,1,250,160
= T1,1,20240205,3,3,0,1,1,0,0,2,500,320

# A sale on a leap day.
make flat
load p0 p2
batch s1
= accepted 5: 2 records, 1 placeholders
load p3 p4
batch s4
= accepted 8: 1 records, 0 placeholders
table fact
= ticket,line,day,store_key,product_key,customer_key,store_durable,product_durable,customer_durable,profile,quantity,amount,cost
= T0,1,20231231,1,1,0,1,1,0,0,1,250,160
= T1,1,20240205,1,3,0,1,1,0,0,2,500,320
= T4,1,20240229,1,3,0,1,1,0,0,1,250,160

# A member that is mentioned again is one placeholder, and each dimension has its own.
make flat
send sales s1
> ticket,line,day,store,product,customer,quantity,amount,cost
> T1,1,2024-01-05,X1,X1,X1,1,1.00,0.50
> T1,2,2024-01-05,X1,X1,,1,1.00,0.50
> T1,3,2024-01-05,X1,X1,X1,1,1.00,0.50
= accepted 2: 3 records, 3 placeholders
table member
= dim,durable,natural,opening
= 1,1,X1,1
= 2,1,X1,1
= 3,1,X1,1
table fact
= ticket,line,day,store_key,product_key,customer_key,store_durable,product_durable,customer_durable,profile,quantity,amount,cost
= T1,1,20240105,1,1,1,1,1,1,1,1,100,50
= T1,2,20240105,1,1,0,1,1,0,0,1,100,50
= T1,3,20240105,1,1,1,1,1,1,1,1,100,50

# Another line of a ticket is another sale.
make flat
load p0 p2
batch s1
= accepted 5: 2 records, 1 placeholders
send sales s
> ticket,line,day,store,product,customer,quantity,amount,cost
> T1,2,2024-02-05,S1,P1,,1,2.50,1.60
= accepted 6: 1 records, 0 placeholders

# More sales than are put in at once, sent from the last to the first: those of January by the row with the first brand, those of February by the next.
make flat
load p0 p2
send sales s1
> ticket,line,day,store,product,customer,quantity,amount,cost
> T35,1,2024-02-05,S1,P1,,35,35.05,21.00
> T34,1,2024-01-15,S1,P1,,34,34.05,20.40
> T33,1,2024-02-05,S1,P1,,33,33.05,19.80
> T32,1,2024-01-15,S1,P1,,32,32.05,19.20
> T31,1,2024-02-05,S1,P1,,31,31.05,18.60
> T30,1,2024-01-15,S1,P1,,30,30.05,18.00
> T29,1,2024-02-05,S1,P1,,29,29.05,17.40
> T28,1,2024-01-15,S1,P1,,28,28.05,16.80
> T27,1,2024-02-05,S1,P1,,27,27.05,16.20
> T26,1,2024-01-15,S1,P1,,26,26.05,15.60
> T25,1,2024-02-05,S1,P1,,25,25.05,15.00
> T24,1,2024-01-15,S1,P1,,24,24.05,14.40
> T23,1,2024-02-05,S1,P1,,23,23.05,13.80
> T22,1,2024-01-15,S1,P1,,22,22.05,13.20
> T21,1,2024-02-05,S1,P1,,21,21.05,12.60
> T20,1,2024-01-15,S1,P1,,20,20.05,12.00
> T19,1,2024-02-05,S1,P1,,19,19.05,11.40
> T18,1,2024-01-15,S1,P1,,18,18.05,10.80
> T17,1,2024-02-05,S1,P1,,17,17.05,10.20
> T16,1,2024-01-15,S1,P1,,16,16.05,9.60
> T15,1,2024-02-05,S1,P1,,15,15.05,9.00
> T14,1,2024-01-15,S1,P1,,14,14.05,8.40
> T13,1,2024-02-05,S1,P1,,13,13.05,7.80
> T12,1,2024-01-15,S1,P1,,12,12.05,7.20
> T11,1,2024-02-05,S1,P1,,11,11.05,6.60
> T10,1,2024-01-15,S1,P1,,10,10.05,6.00
> T09,1,2024-02-05,S1,P1,,9,9.05,5.40
> T08,1,2024-01-15,S1,P1,,8,8.05,4.80
> T07,1,2024-02-05,S1,P1,,7,7.05,4.20
> T06,1,2024-01-15,S1,P1,,6,6.05,3.60
> T05,1,2024-02-05,S1,P1,,5,5.05,3.00
> T04,1,2024-01-15,S1,P1,,4,4.05,2.40
> T03,1,2024-02-05,S1,P1,,3,3.05,1.80
> T02,1,2024-01-15,S1,P1,,2,2.05,1.20
> T01,1,2024-02-05,S1,P1,,1,1.05,0.60
= accepted 5: 35 records, 1 placeholders
# The command, the store that nothing mentioned with its row, and 35 facts.
writes
= written 38
table fact
= ticket,line,day,store_key,product_key,customer_key,store_durable,product_durable,customer_durable,profile,quantity,amount,cost
= T01,1,20240205,1,3,0,1,1,0,0,1,105,60
= T02,1,20240115,1,1,0,1,1,0,0,2,205,120
= T03,1,20240205,1,3,0,1,1,0,0,3,305,180
= T04,1,20240115,1,1,0,1,1,0,0,4,405,240
= T05,1,20240205,1,3,0,1,1,0,0,5,505,300
= T06,1,20240115,1,1,0,1,1,0,0,6,605,360
= T07,1,20240205,1,3,0,1,1,0,0,7,705,420
= T08,1,20240115,1,1,0,1,1,0,0,8,805,480
= T09,1,20240205,1,3,0,1,1,0,0,9,905,540
= T10,1,20240115,1,1,0,1,1,0,0,10,1005,600
= T11,1,20240205,1,3,0,1,1,0,0,11,1105,660
= T12,1,20240115,1,1,0,1,1,0,0,12,1205,720
= T13,1,20240205,1,3,0,1,1,0,0,13,1305,780
= T14,1,20240115,1,1,0,1,1,0,0,14,1405,840
= T15,1,20240205,1,3,0,1,1,0,0,15,1505,900
= T16,1,20240115,1,1,0,1,1,0,0,16,1605,960
= T17,1,20240205,1,3,0,1,1,0,0,17,1705,1020
= T18,1,20240115,1,1,0,1,1,0,0,18,1805,1080
= T19,1,20240205,1,3,0,1,1,0,0,19,1905,1140
= T20,1,20240115,1,1,0,1,1,0,0,20,2005,1200
= T21,1,20240205,1,3,0,1,1,0,0,21,2105,1260
= T22,1,20240115,1,1,0,1,1,0,0,22,2205,1320
= T23,1,20240205,1,3,0,1,1,0,0,23,2305,1380
= T24,1,20240115,1,1,0,1,1,0,0,24,2405,1440
= T25,1,20240205,1,3,0,1,1,0,0,25,2505,1500
= T26,1,20240115,1,1,0,1,1,0,0,26,2605,1560
= T27,1,20240205,1,3,0,1,1,0,0,27,2705,1620
= T28,1,20240115,1,1,0,1,1,0,0,28,2805,1680
= T29,1,20240205,1,3,0,1,1,0,0,29,2905,1740
= T30,1,20240115,1,1,0,1,1,0,0,30,3005,1800
= T31,1,20240205,1,3,0,1,1,0,0,31,3105,1860
= T32,1,20240115,1,1,0,1,1,0,0,32,3205,1920
= T33,1,20240205,1,3,0,1,1,0,0,33,3305,1980
= T34,1,20240115,1,1,0,1,1,0,0,34,3405,2040
= T35,1,20240205,1,3,0,1,1,0,0,35,3505,2100

scenario refused
# A line that is there. The first sale is good, and isn't kept.
make flat
load p0 p2
batch s1
= accepted 5: 2 records, 1 placeholders
load p3 p8
batch s2
= accepted 12: 1 records, 2 placeholders
mark
send sales s
> ticket,line,day,store,product,customer,quantity,amount,cost
> T3,1,2024-07-02,S1,P1,,1,2.50,1.60
> T2,1,2024-07-02,S1,P1,,1,2.50,1.60
= refused: LineThere(2)
same
= the same

# The same batch under another id is another command.
make flat
load p0 p2
batch s1
= accepted 5: 2 records, 1 placeholders
mark
send sales s
> ticket,line,day,store,product,customer,quantity,amount,cost
> T1,1,2024-02-05,S1,P1,,2,5.00,3.20
> T0,1,2023-12-31,S1,P1,,1,2.5,1.60
= refused: LineThere(1)
same
= the same

# A sale twice.
make flat
mark
send sales s
> ticket,line,day,store,product,customer,quantity,amount,cost
> T5,1,2024-01-05,S1,P1,,1,1,1
> T5,0001,2024-01-06,S1,P1,,1,1,1
= refused: TwiceInBatch at 2
same
= the same

# A sale outside the calendar.
send sales s
> ticket,line,day,store,product,customer,quantity,amount,cost
> T5,1,2027-01-01,S1,P1,,1,1,1
= refused: OutsideCalendar at 1
same
= the same

# A sale on no day.
send sales s
> ticket,line,day,store,product,customer,quantity,amount,cost
> T5,1,2023-02-29,S1,P1,,1,1,1
= refused: BadDay at 1
same
= the same

# Others' tickets stand between those of a batch, and one is damaged. It is met where the batch has its line.
make flat
load p0 p2
batch s1
= accepted 5: 2 records, 1 placeholders
load p3 p8
batch s2
= accepted 12: 1 records, 2 placeholders
close
sql UPDATE fact SET quantity = 'two' WHERE ticket = 'T1'
open
= opened
send sales s3
> ticket,line,day,store,product,customer,quantity,amount,cost
> T3,1,2024-07-02,S1,P1,,1,2.50,1.60
> T0,2,2024-07-02,S1,P1,,1,2.50,1.60
= accepted 13: 2 records, 0 placeholders
send sales s4
> ticket,line,day,store,product,customer,quantity,amount,cost
> T4,1,2024-07-02,S1,P1,,1,2.50,1.60
> T2,1,2024-07-02,S1,P1,,1,2.50,1.60
= refused: LineThere(2)
send sales s4
> ticket,line,day,store,product,customer,quantity,amount,cost
> T4,1,2024-07-02,S1,P1,,1,2.50,1.60
> T1,1,2024-07-02,S1,P1,,1,2.50,1.60
= Damaged(Fact)
close

# The first line of the least ticket, and of the greatest.
sql UPDATE fact SET quantity = 2 WHERE ticket = 'T1'
open
= opened
send sales s4
> ticket,line,day,store,product,customer,quantity,amount,cost
> T1,2,2024-07-02,S1,P1,,1,2.50,1.60
> T0,1,2024-07-02,S1,P1,,1,2.50,1.60
= refused: LineThere(2)
send sales s4
> ticket,line,day,store,product,customer,quantity,amount,cost
> T3,1,2024-07-02,S1,P1,,1,2.50,1.60
> T20,1,2024-07-02,S1,P1,,1,2.50,1.60
= refused: LineThere(1)
";
