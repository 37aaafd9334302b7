//! Files that stop at some call, those of opening and closing them included, and a crash after it: what is found is what was acknowledged,
//! or that and the next command, and the same again leads to what it leads to with no stop. A load is of a record of an earlier day of a product
//! and of a new product, or of a sale of a product and to a customer that nothing mentioned; a migration takes a row away, and moves a sale.

pub const MAKING: &str = "\
files
stops either init small
= as acknowledged, or with the next
";

/// Files that are opened and closed, with nothing between.
pub const OPENING: &str = "\
files
init small
= made
stops either open
= as acknowledged, or with the next
";

pub const PRODUCTS: &str = "\
files
init small
= made
send product p1
> id,day,brand
> P1,2024-02-01,Acme
= accepted 2: 1 records, 0 placeholders
stops either send product p2
> id,day,brand
> P1,2024-01-20,Bolt
> P2,2024-01-10,Cask
= as acknowledged, or with the next
";

/// After the worked batches before it: a sale of two members that are new, whose placeholders are both there, or none.
pub const SALES: &str = "\
files
init bands-of-rows
= made
load p0 p8
stops either batch s2
= as acknowledged, or with the next
batch s2
= accepted 12: 1 records, 2 placeholders
table member
= dim,durable,natural,opening
= 1,1,P1,1
= 1,2,P9,9
= 2,1,S1,1
= 3,1,C9,1
";

pub const MIGRATIONS: &str = "\
files
init small
= made
send product p1
> id,day,brand
> P1,2024-02-01,Acme
> P1,2024-03-01,Bolt
= accepted 2: 2 records, 0 placeholders
send sales s1
> ticket,line,day,store,product,customer,quantity,amount,cost
> T1,1,2024-03-05,S1,P1,,1,2.50,1.60
= accepted 3: 1 records, 1 placeholders
stops either send migrate m1
> small-overwritten
= as acknowledged, or with the next
";

pub const CHECK: &str = "\
files
init small
= made
send product p1
> id,day,brand
> P1,2024-02-01,Acme
= accepted 2: 1 records, 0 placeholders
send sales s1
> ticket,line,day,store,product,customer,quantity,amount,cost
> T1,1,2024-03-05,S1,P1,,1,2.50,1.60
= accepted 3: 1 records, 1 placeholders
check
= clean
stops either check
= as acknowledged, or with the next
";

/// A part of dated records, for which the first ones are read before.
pub const RECORDS: &str = "\
files
init small
= made
send product p1
> id,day,brand
> P1,2024-02-01,Acme
= accepted 2: 1 records, 0 placeholders
send product p2
> id,day,brand
> P1,2024-01-20,Bolt
= accepted 3: 1 records, 0 placeholders
records product 0
= id,day,brand
= P1,2024-01-20,Acme
records product 1
= id,day,brand
= P1,2024-01-20,Bolt
= P1,2024-02-01,Acme
stops either records product 1
= as acknowledged, or with the next
";

pub const QUERY: &str = "\
files
init small
= made
send product p1
> id,day,brand
> P1,2024-02-01,Acme
= accepted 2: 1 records, 0 placeholders
send sales s1
> ticket,line,day,store,product,customer,quantity,amount,cost
> T1,1,2024-03-05,S1,P1,,1,2.50,1.60
= accepted 3: 1 records, 1 placeholders
query product.brand:was store.city:was where product.brand:was=Acme 2024-01-01 2024-12-31
= product.brand:was,store.city:was,lines,quantity,amount,cost,margin
= Acme,(unknown),1,1,2.50,1.60,0.90
stops either query product.brand:was store.city:was where product.brand:was=Acme 2024-01-01 2024-12-31
= as acknowledged, or with the next
";

/// A night in one session: a making and eight commands, of which the last came already. After each stop all eight are delivered again. Then what
/// it leads to.
pub const NIGHT: &str = "\
files
stops either night bands-of-rows p1 p2 s1 p3 s2 c1 m1 p1
= as acknowledged, or with the next
init bands-of-rows
= made
deliver p1 p2 s1 p3 s2 c1 m1 p1
= accepted 2: 1 records, 0 placeholders
= accepted 3: 1 records, 0 placeholders
= accepted 4: 2 records, 1 placeholders
= accepted 5: 1 records, 0 placeholders
= accepted 6: 1 records, 2 placeholders
= accepted 7: 1 records, 0 placeholders
= accepted 8: 0 records, 0 placeholders
= already 2: 1 records, 0 placeholders
counts
= format 1
= commands 8
= changes 4
= facts 3
= products 2
= stores 1
= customers 1
table product
= surrogate,durable,natural,from_day,to_day,is_current,a1,a2,a3,a4,a5,a6,b1,b2,b3,b4,b5,b6,profile_now
= 1,1,P1,19000101,99991231,1,Cola 1l,Bolt,Drinks,Grocery,2019,North,,,Drinks,,,(none),0
= 5,2,P9,19000101,99991231,1,(unknown),(unknown),(unknown),(unknown),(unknown),(unknown),,,(unknown),,,(none),0
table fact
= ticket,line,day,store_key,product_key,customer_key,store_durable,product_durable,customer_durable,profile,quantity,amount,cost
= T0,1,20231231,1,1,0,1,1,0,0,1,250,160
= T1,1,20240205,1,1,0,1,1,0,0,2,500,320
= T2,1,20240610,1,5,1,1,2,1,2,1,1000,700
check
= clean
";

/// The same night with an upgrade before the migration, where the log's disk stops.
pub const UPGRADED_NIGHT: &str = "\
files
stops log night bands-of-rows p1 p2 s1 p3 s2 c1 u1 m1 p1
= as acknowledged, or with the next
init bands-of-rows
= made
deliver p1 p2 s1 p3 s2 c1 u1 m1 p1
= accepted 2: 1 records, 0 placeholders
= accepted 3: 1 records, 0 placeholders
= accepted 4: 2 records, 1 placeholders
= accepted 5: 1 records, 0 placeholders
= accepted 6: 1 records, 2 placeholders
= accepted 7: 1 records, 0 placeholders
= accepted 8: 0 records, 0 placeholders
= accepted 9: 0 records, 0 placeholders
= already 2: 1 records, 0 placeholders
counts
= format 2
= commands 9
= changes 4
= facts 3
= products 2
= stores 1
= customers 1
table fact
table fact2
= ticket,line,day,store_key,product_key,customer_key,store_durable,product_durable,customer_durable,profile,quantity,amount,cost,discount
= T0,1,20231231,1,1,0,1,1,0,0,1,250,160,0
= T1,1,20240205,1,1,0,1,1,0,0,2,500,320,0
= T2,1,20240610,1,5,1,1,2,1,2,1,1000,700,0
check
= clean
";

/// The same where the disk of the database file stops.
pub const UPGRADED_NIGHT_OF_THE_DATABASE: &str = "\
files
stops database night bands-of-rows p1 p2 s1 p3 s2 c1 u1 m1 p1
= as acknowledged, or with the next
";

/// Files that stop, and stop once more in what is done again after the crash: a making, and a delivery.
pub const MAKING_AGAIN: &str = "\
files
stops_again log 50 either init small
= as acknowledged, or with the next
stops_again database 30 either init small
= as acknowledged, or with the next
";

pub const DELIVERY_AGAIN: &str = "\
files
init small
= made
stops_again log 30 either deliver
> product p2
> id,day,brand
> P1,2024-01-20,Bolt
>
> sales s2
> ticket,line,day,store,product,customer,quantity,amount,cost
> T2,1,2024-06-10,S1,P9,,1,10.00,7.00
= as acknowledged, or with the next
";
