//! Several commands at once: each has its answer, a refused one stops nothing, and all may be delivered again, also after a stop of the
//! machine.

pub const ALL: &str = "
scenario deliveries
make small

# No command.
mark
deliver
same
= the same

# One of each kind, and one that is refused in the middle: its second line is there.
deliver
> product p1
> id,day,brand
> P1,2024-02-01,Acme
> P1,2024-03-01,Bolt
>
> store t1
> id,day,city
> S1,2024-01-01,Bern
>
> sales s1
> ticket,line,day,store,product,customer,quantity,amount,cost
> T1,1,2024-03-05,S1,P1,C9,1,2.50,1.60
>
> sales s2
> ticket,line,day,store,product,customer,quantity,amount,cost
> T2,1,2024-03-05,S1,P1,,1,2.50,1.60
> T1,1,2024-03-06,S1,P1,,1,2.50,1.60
>
> migrate m1
> small-overwritten
>
> customer c1
> id,day,tier
> C9,2024-01-01,Gold
= accepted 2: 2 records, 0 placeholders
= accepted 3: 1 records, 0 placeholders
= accepted 4: 1 records, 1 placeholders
= refused: LineThere(2)
= accepted 5: 0 records, 0 placeholders
= accepted 6: 1 records, 0 placeholders
counts
= format 1
= commands 6
= changes 4
= facts 1
= products 1
= stores 1
= customers 1
table product
= surrogate,durable,natural,from_day,to_day,is_current,a1,a2,a3,a4,a5,a6,b1,b2,b3,b4,b5,b6,profile_now
= 1,1,P1,19000101,99991231,1,Bolt,,,,,,,,,,,,0
table fact
= ticket,line,day,store_key,product_key,customer_key,store_durable,product_durable,customer_durable,profile,quantity,amount,cost
= T1,1,20240305,1,1,1,1,1,1,2,1,250,160

# The same again, and the same in another order.
mark
deliver
> product p1
> id,day,brand
> P1,2024-02-01,Acme
> P1,2024-03-01,Bolt
>
> store t1
> id,day,city
> S1,2024-01-01,Bern
>
> sales s1
> ticket,line,day,store,product,customer,quantity,amount,cost
> T1,1,2024-03-05,S1,P1,C9,1,2.50,1.60
>
> sales s2
> ticket,line,day,store,product,customer,quantity,amount,cost
> T2,1,2024-03-05,S1,P1,,1,2.50,1.60
> T1,1,2024-03-06,S1,P1,,1,2.50,1.60
>
> migrate m1
> small-overwritten
>
> customer c1
> id,day,tier
> C9,2024-01-01,Gold
= already 2: 2 records, 0 placeholders
= already 3: 1 records, 0 placeholders
= already 4: 1 records, 1 placeholders
= refused: LineThere(2)
= already 5: 0 records, 0 placeholders
= already 6: 1 records, 0 placeholders
same
= the same
deliver
> migrate m1
> small-overwritten
>
> product p1
> id,day,brand
> P1,2024-02-01,Acme
> P1,2024-03-01,Bolt
= already 5: 0 records, 0 placeholders
= already 2: 2 records, 0 placeholders
same
= the same

scenario again
deliver_again small
> product p1
> id,day,brand
> P1,2024-02-01,Acme
> P1,2024-03-01,Bolt
>
> store t1
> id,day,city
> S1,2024-01-01,Bern
>
> sales s1
> ticket,line,day,store,product,customer,quantity,amount,cost
> T1,1,2024-03-05,S1,P1,C9,1,2.50,1.60
>
> sales s2
> ticket,line,day,store,product,customer,quantity,amount,cost
> T2,1,2024-03-05,S1,P1,,1,2.50,1.60
> T1,1,2024-03-06,S1,P1,,1,2.50,1.60
>
> migrate m1
> small-overwritten
>
> customer c1
> id,day,tier
> C9,2024-01-01,Gold
= accepted 2: 2 records, 0 placeholders
= accepted 3: 1 records, 0 placeholders
= accepted 4: 1 records, 1 placeholders
= refused: LineThere(2)
= accepted 5: 0 records, 0 placeholders
= accepted 6: 1 records, 0 placeholders
= after the crash
= format 1
= commands 6
= changes 4
= facts 1
= products 1
= stores 1
= customers 1
";

pub const STOPS: &str = "\
files
init small
= made
send product p1
> id,day,brand
> P1,2024-02-01,Acme
= accepted 2: 1 records, 0 placeholders
stops either deliver
> product p2
> id,day,brand
> P1,2024-01-20,Bolt
>
> sales s2
> ticket,line,day,store,product,customer,quantity,amount,cost
> T2,1,2024-06-10,S1,P9,,1,10.00,7.00
= as acknowledged, or with the next
";
