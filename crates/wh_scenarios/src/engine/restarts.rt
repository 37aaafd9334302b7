//! A batch acts once over a machine that stops.

pub const ALL: &str = "
scenario restarts
redeliver small product p1
> id,day,brand
> P1,2024-01-10,Acme
> P1,2024-02-01,Bolt
= already 2: 2 records, 0 placeholders
= format 1
= commands 2
= changes 2
= facts 0
= products 1
= stores 0
= customers 0

redeliver small sales s2
> ticket,line,day,store,product,customer,quantity,amount,cost
> T2,1,2024-06-10,S1,P9,C9,1,10.00,7.00
= already 2: 1 records, 3 placeholders
= format 1
= commands 2
= changes 0
= facts 1
= products 1
= stores 1
= customers 1
";
