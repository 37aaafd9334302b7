//! The shop of the scenarios of the program: its policies and batches, and a night of them.

/// What each module begins with.
pub const SHOP: &str = r#"
# The policy; without bands of customers; with two attributes exchanged.
policy policy.toml name = "tier"|type = 2->name = "tier"|type = 2|[[customer]]|name = "age_band"|type = 5|[[customer]]|name = "spend_band"|type = 5
policy flat.toml
policy m3.toml name = "brand"|type = 2|[[product]]|name = "category"|type = 6->name = "category"|type = 6|[[product]]|name = "brand"|type = 2 and name = "tier"|type = 2->name = "tier"|type = 2|[[customer]]|name = "age_band"|type = 5|[[customer]]|name = "spend_band"|type = 5

# With a brand that is overwritten, written in another way.
file m1.toml
> first_year = 2023
> last_year = 2026
> product = [
>     { name = "description", type = 1 },
>     { name = "brand", type = 1 },
>     { name = "category", type = 6 },
>     { name = "department", type = 7 },
>     { name = "launched", type = 0 },
>     { name = "supplier", type = 3 },
> ]
> store = [{ name = "city", type = 2 }]
> customer = [{ name = "tier", type = 2 }, { name = "age_band", type = 5 }, { name = "spend_band", type = 5 }]
> [[holiday]]
> day = "2024-12-25"
> name = "Christmas Day"

# No policies: a text that is cut, and one that loses attributes.
bytes cut.toml first_year = 2023\nlast_year =\x20
file few.toml
> first_year = 2023
> last_year = 2026
> product = [{ name = "brand", type = 1 }]
> store = [{ name = "city", type = 2 }]
> customer = [{ name = "tier", type = 2 }]

# Batches of products: none, one that changes again and again, the first again with other bytes, another one; and no bytes at all.
file p0.csv
> id,day,description,brand,category,department,launched,supplier
file p1.csv
> id,day,description,brand,category,department,launched,supplier
> P1,2024-01-10,Cola 1l,Acme,Drinks,Grocery,2019,North
file p2.csv
> id,day,description,brand,category,department,launched,supplier
> P1,2024-02-01,Cola 1l,Bolt,Drinks,Grocery,2019,North
file p3.csv
> id,day,description,brand,category,department,launched,supplier
> P1,2024-01-20,Cola 1l,Bolt,Drinks,Grocery,2019,North
file p4.csv
> id,day,description,brand,category,department,launched,supplier
> P1,2024-02-01,Cola 1l,Cask,Drinks,Grocery,2019,North
file p5.csv
> id,day,description,brand,category,department,launched,supplier
> P1,2024-03-01,Cola 1 l,Cask,Drinks,Grocery,2019,North
file p6.csv
> id,day,description,brand,category,department,launched,supplier
> P1,2024-04-01,Cola 1 l,Cask,Soft drinks,Grocery,2019,North
file p7.csv
> id,day,description,brand,category,department,launched,supplier
> P1,2024-06-01,Cola 1 l,Cask,Soft drinks,Grocery,2021,South
file p8.csv
> id,day,description,brand,category,department,launched,supplier
> P1,2024-05-01,Cola 1 l,Cask,Soft drinks,Grocery,2019,East
file p9.csv
> id,day,description,brand,category,department,launched,supplier
> P9,2024-06-05,Tea 50,Leaf,Drinks,Grocery,2024,North
file p1x.csv
> id,day,description,brand,category,department,launched,supplier
> P1,2024-01-10,Cola 1l,Acme,Drinks,Grocery,2019,North
>
bytes empty.csv

# Of sales; the last three have a line that is sold before, no day, and a day that the calendar hasn't got.
file s1.csv
> ticket,line,day,store,product,customer,quantity,amount,cost
> T1,1,2024-02-05,S1,P1,,2,5.00,3.20
> T0,1,2023-12-31,S1,P1,,1,2.5,1.60
file s2.csv
> ticket,line,day,store,product,customer,quantity,amount,cost
> T2,1,2024-06-10,S1,P9,C9,1,10.00,7.00
file s4.csv
> ticket,line,day,store,product,customer,quantity,amount,cost
> T4,1,2024-02-29,S1,P1,,1,2.50,1.60
file s3.csv
> ticket,line,day,store,product,customer,quantity,amount,cost
> T3,1,2024-07-02,S1,P1,,1,2.50,1.60
> T2,1,2024-07-02,S1,P1,,1,2.50,1.60
file s5.csv
> ticket,line,day,store,product,customer,quantity,amount,cost
> T5,1,2023-02-29,S1,P1,,1,2.50,1.60
file s6.csv
> ticket,line,day,store,product,customer,quantity,amount,cost
> T5,1,2027-01-01,S1,P1,,1,2.50,1.60

# A sale with a discount, and a line that is withdrawn.
file d5.csv
> ticket,line,day,store,product,customer,quantity,amount,cost,discount
> T5,1,2024-07-05,S1,P1,C9,2,5.00,3.20,0.5
file v1.csv
> ticket,line
> T1,1

# Of customers and stores.
file c1.csv
> id,day,tier,age_band,spend_band
> C9,2024-06-08,Gold,30-39,high
file c2.csv
> id,day,tier,age_band,spend_band
> C9,2024-07-01,Gold,40-49,high
bytes c3.csv \xEF\xBB\xBFid,day,tier,age_band,spend_band\r\nC9,2024-07-01,Gold,40-49,high\r\n
file c4.csv
> id,day,tier,age_band,spend_band
> C8,2024-07-01,xxxxxxxxxxxxxxxxxxxxxxxxxxxxxxxxxxxxxxxxxxxxxxxxxxxxxxxxxxxx,,
file k1.csv
> id,day,city
> S1,2024-01-01,Bern
> S2,2024-01-01,Chur
"#;

/// After it: a warehouse that was sent all its commands.
pub const NIGHT: &str = r#"
file night.csv
> product,p0,p0.csv
> product,p1,p1.csv
> product,p2,p2.csv
> sales,s1,s1.csv
>* product,p{3-8},p{3-8}.csv
> sales,s2,s2.csv
> product,p9,p9.csv
> customer,c1,c1.csv
> customer,c2,c2.csv
> migrate,m1,m1.toml
> migrate,m2,policy.toml
> sales,s4,s4.csv
> customer,c3,c3.csv
> customer,c4,c4.csv
run init w policy.toml
= accepted 1 init: 0 records, 0 placeholders
run check w
= clean
run deliver w night.csv
= accepted 2 p0: 0 records, 0 placeholders
= accepted 3 p1: 1 records, 0 placeholders
= accepted 4 p2: 1 records, 0 placeholders
= accepted 5 s1: 2 records, 1 placeholders
=* accepted {6-11} p{3-8}: 1 records, 0 placeholders
= accepted 12 s2: 1 records, 2 placeholders
= accepted 13 p9: 1 records, 0 placeholders
= accepted 14 c1: 1 records, 0 placeholders
= accepted 15 c2: 1 records, 0 placeholders
= accepted 16 m1: 0 records, 0 placeholders
= accepted 17 m2: 0 records, 0 placeholders
= accepted 18 s4: 1 records, 0 placeholders
= accepted 19 c3: 1 records, 0 placeholders
= accepted 20 c4: 1 records, 0 placeholders
run check w
= clean
"#;
