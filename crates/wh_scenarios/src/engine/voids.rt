//! Lines of tickets that are withdrawn.

pub const ALL: &str = "
# After the worked batches, migrations and the upgrade: a line is withdrawn, and stays so.
scenario worked void
make bands-of-rows
load p0 c2
send migrate m1
> brand-overwritten
= accepted 16: 0 records, 0 placeholders
send migrate m2
> bands-of-rows
= accepted 17: 0 records, 0 placeholders
batch s4
= accepted 18: 1 records, 0 placeholders
batch c3
= accepted 19: 1 records, 0 placeholders
batch c4
= accepted 20: 1 records, 0 placeholders

# The first format has no voids, whatever the batch holds.
mark
send void v1
> ticket,line
> T1,1
= refused: NotInFormat at 0
send void v1
> no header
= refused: NotInFormat at 0
plan void v1
> ticket,line
> T1,1
= Refused(Batch(BatchFault { kind: NotInFormat, number: 0 }))
same
= the same
send upgrade u1
= accepted 21: 0 records, 0 placeholders
send sales s5
> ticket,line,day,store,product,customer,quantity,amount,cost,discount
> T5,1,2024-07-05,S1,P1,C9,2,5.00,3.20,0.5
= accepted 22: 1 records, 0 placeholders

# The whole of it is planned, and nothing is written.
mark
plan void v1
> ticket,line
> T1,1
= put command 23
= remove fact2 T1 1
= put void T1 1
same
= the same
send void v1
> ticket,line
> T1,1
= accepted 23: 1 records, 0 placeholders
writes
= written 3
table fact2
= ticket,line,day,store_key,product_key,customer_key,store_durable,product_durable,customer_durable,profile,quantity,amount,cost,discount
= T0,1,20231231,1,1,0,1,1,0,0,1,250,160,0
= T2,1,20240610,1,9,1,1,2,1,2,1,1000,700,0
= T4,1,20240229,1,3,0,1,1,0,0,1,250,160,0
= T5,1,20240705,1,6,1,1,1,1,3,2,500,320,50
table void
= ticket,line,command
= T1,1,23
counts
= format 2
= commands 23
= changes 13
= facts 4
= products 2
= stores 1
= customers 2
check
= clean

# It comes again; the line is withdrawn once, and is not sold again.
mark
send void v1
> ticket,line
> T1,1
= already 23: 1 records, 0 placeholders
writes
= written 0
send void v1
> ticket,line
> T0,1
= refused: Reused
send void v2
> ticket,line
> T0,1
> T1,1
= refused: NoLine(2)
plan void v2
> ticket,line
> T1,1
= Refused(NoLine(1))
send sales s6
> ticket,line,day,store,product,customer,quantity,amount,cost,discount
> T6,1,2024-07-05,S1,P1,C9,2,5.00,3.20,0
> T1,1,2024-02-05,S1,P1,,2,5.00,3.20,0
= refused: LineThere(2)
same
= the same
close
open
= opened
same
= the same
send sales s6
> ticket,line,day,store,product,customer,quantity,amount,cost,discount
> T1,1,2024-02-05,S1,P1,,2,5.00,3.20,0
= refused: LineThere(1)
close

# A damaged row of a withdrawn line is met where a batch has the line, and not where that is between the batch's tickets.
sql UPDATE void SET command = 'two'
open
= opened
send sales s6
> ticket,line,day,store,product,customer,quantity,amount,cost,discount
> T1,1,2024-02-05,S1,P1,,2,5.00,3.20,0
= Damaged(Void)
send sales s6
> ticket,line,day,store,product,customer,quantity,amount,cost,discount
> T11,1,2024-07-05,S1,P1,C9,2,5.00,3.20,0
> T10,1,2024-07-05,S1,P1,C9,2,5.00,3.20,0
= accepted 24: 2 records, 0 placeholders
send sales s7
> ticket,line,day,store,product,customer,quantity,amount,cost,discount
> T12,1,2024-07-05,S1,P1,C9,2,5.00,3.20,0
> T0,2,2024-07-05,S1,P1,C9,2,5.00,3.20,0
= accepted 25: 2 records, 0 placeholders

# What comes after voids: late records and policies move the facts that stand, and members stay.
scenario batches and policies after voids
make small
send product p1
> id,day,brand
> P1,2024-02-01,Acme
= accepted 2: 1 records, 0 placeholders
send sales s1
> ticket,line,day,store,product,customer,quantity,amount,cost
> T1,1,2024-03-05,S1,P1,,1,2.50,1.60
> T3,1,2024-01-05,S1,P1,,1,2.50,1.60
> T4,1,2024-03-06,S1,P1,,1,2.50,1.60
= accepted 3: 3 records, 1 placeholders
send upgrade u1
= accepted 4: 0 records, 0 placeholders
send void v1
> ticket,line
> T1,1
= accepted 5: 1 records, 0 placeholders

# The brand came in March: of its two facts the one that stands is moved.
plan product p2
> id,day,brand
> P1,2024-03-01,Bolt
= put command 6
= put change 6 1
= put product 1
= put product 3
= rekey fact2 T4 1
send product p2
> id,day,brand
> P1,2024-03-01,Bolt
= accepted 6: 1 records, 0 placeholders
writes
= written 5
table fact2
= ticket,line,day,store_key,product_key,customer_key,store_durable,product_durable,customer_durable,profile,quantity,amount,cost,discount
= T3,1,20240105,1,1,0,1,1,0,0,1,250,160,0
= T4,1,20240306,1,3,0,1,1,0,0,1,250,160,0
table void
= ticket,line,command
= T1,1,5

# So it is under another policy.
plan migrate m1
> small-overwritten
= put command 7
= put product 1
= remove product 3
= rekey fact2 T4 1
send migrate m1
> small-overwritten
= accepted 7: 0 records, 0 placeholders
send migrate m2
> small
= accepted 8: 0 records, 0 placeholders
table fact2
= ticket,line,day,store_key,product_key,customer_key,store_durable,product_durable,customer_durable,profile,quantity,amount,cost,discount
= T3,1,20240105,1,1,0,1,1,0,0,1,250,160,0
= T4,1,20240306,1,3,0,1,1,0,0,1,250,160,0
table void
= ticket,line,command
= T1,1,5
check
= clean

# A product that one sale alone mentions stays when that is withdrawn, under its numbers.
send sales s2
> ticket,line,day,store,product,customer,quantity,amount,cost,discount
> T5,1,2024-04-01,S1,P9,,1,1.00,0.50,0
= accepted 9: 1 records, 1 placeholders
plan void v2
> ticket,line
> T5,1
> T4,1
= put command 10
= remove fact2 T4 1
= remove fact2 T5 1
= put void T4 1
= put void T5 1
send void v2
> ticket,line
> T5,1
> T4,1
= accepted 10: 2 records, 0 placeholders
writes
= written 5
counts
= format 2
= commands 10
= changes 2
= facts 1
= products 2
= stores 1
= customers 0
send sales s3
> ticket,line,day,store,product,customer,quantity,amount,cost,discount
> T6,1,2024-04-02,S1,P9,,1,1.00,0.50,0
= accepted 11: 1 records, 0 placeholders
table fact2
= ticket,line,day,store_key,product_key,customer_key,store_durable,product_durable,customer_durable,profile,quantity,amount,cost,discount
= T3,1,20240105,1,1,0,1,1,0,0,1,250,160,0
= T6,1,20240402,1,4,0,1,2,0,0,1,100,50,0
table void
= ticket,line,command
= T1,1,5
= T4,1,10
= T5,1,10
check
= clean

# All that was sold is withdrawn, and an empty batch withdraws nothing.
send void v3
> ticket,line
> T3,1
> T6,1
= accepted 12: 2 records, 0 placeholders
table fact2
send void v4
> ticket,line
= accepted 13: 0 records, 0 placeholders
# The command.
writes
= written 1
check
= clean

# In one delivery with what it withdraws.
make small
deliver
> void v0
> ticket,line
> T1,2
>
> upgrade u1
>
> sales s1
> ticket,line,day,store,product,customer,quantity,amount,cost,discount
> T1,1,2024-03-05,S1,P1,,1,2.50,1.60,0
> T1,2,2024-03-05,S1,P1,,1,2.50,1.60,0
>
> void v1
> ticket,line
> T1,2
>
> void v2
> ticket,line
> T1,2
>
> sales s2
> ticket,line,day,store,product,customer,quantity,amount,cost,discount
> T1,2,2024-03-05,S1,P1,,1,2.50,1.60,0
= refused: NotInFormat at 0
= accepted 2: 0 records, 0 placeholders
= accepted 3: 2 records, 2 placeholders
= accepted 4: 1 records, 0 placeholders
= refused: NoLine(1)
= refused: LineThere(1)
table fact2
= ticket,line,day,store_key,product_key,customer_key,store_durable,product_durable,customer_durable,profile,quantity,amount,cost,discount
= T1,1,20240305,1,1,0,1,1,0,0,1,250,160,0
table void
= ticket,line,command
= T1,2,4
check
= clean

# Voids that aren't accepted, in the order in which it is asked why.
scenario voids that are refused
make small
send upgrade u1
= accepted 2: 0 records, 0 placeholders
send sales s1
> ticket,line,day,store,product,customer,quantity,amount,cost,discount
> T1,1,2024-03-05,S1,P1,,1,2.50,1.60,0
= accepted 3: 1 records, 2 placeholders
mark
send void v/1
> ticket,line
> T1,1
= refused: BadId
send void s1
> ticket,line
> T1,1
= refused: Reused
send void v1
> ticket,line,day
> T1,1,2024-03-05
= refused: WrongHeader at 0
send void v1
> ticket,line
> T1,1
> T1
= refused: WrongLength at 2
send void v1
> ticket,line
> T 1,1
= refused: BadKey at 1
send void v1
> ticket,line
> T1,0
= refused: BadNumber at 1
send void v1
> ticket,line
> T1,10000
= refused: BadNumber at 1
send void v1
> ticket,line
> T1,1
> T1,01
= refused: TwiceInBatch at 2

# A line that never was, one of another ticket, and the first of two.
send void v1
> ticket,line
> T1,2
= refused: NoLine(1)
send void v1
> ticket,line
> T1,1
> T2,1
> T3,1
= refused: NoLine(2)
same
= the same
check
= clean

# Room for a command comes before the lines. A void needs no room for facts, and gives none back.
make small 4 10 1
send upgrade u1
= accepted 2: 0 records, 0 placeholders
send sales s1
> ticket,line,day,store,product,customer,quantity,amount,cost,discount
> T1,1,2024-03-05,S1,P1,,1,2.50,1.60,0
= accepted 3: 1 records, 2 placeholders
send void v1
> ticket,line
> T1,1
= accepted 4: 1 records, 0 placeholders
send void v2
> ticket,line
> T9,1
= refused: Full(Commands)
make small 9 10 1
send upgrade u1
= accepted 2: 0 records, 0 placeholders
send sales s1
> ticket,line,day,store,product,customer,quantity,amount,cost,discount
> T1,1,2024-03-05,S1,P1,,1,2.50,1.60,0
= accepted 3: 1 records, 2 placeholders
send void v1
> ticket,line
> T1,1
= accepted 4: 1 records, 0 placeholders
send sales s2
> ticket,line,day,store,product,customer,quantity,amount,cost,discount
> T2,1,2024-03-05,S1,P1,,1,2.50,1.60,0
= refused: Full(Facts)
check
= clean
";

/// A void that is stopped leaves what was there before it, or what is there after it.
pub const STOPS: &str = "\
files
init small
= made
send upgrade u1
= accepted 2: 0 records, 0 placeholders
send sales s1
> ticket,line,day,store,product,customer,quantity,amount,cost,discount
> T1,1,2024-03-05,S1,P1,,1,2.50,1.60,0
> T1,2,2024-03-05,S1,P1,,1,2.50,1.60,0
= accepted 3: 2 records, 2 placeholders
stops either send void v1
> ticket,line
> T1,1
= as acknowledged, or with the next
";
