//! Demographic bands of customers: profiles of their own, which facts name, and under one of two types customers too.

pub const ALL: &str = "
scenario named by rows
make bands-of-rows
load p0 p2
send sales s1
> ticket,line,day,store,product,customer,quantity,amount,cost
> T1,1,2024-02-05,S1,P1,,2,5.00,3.20
> T0,1,2023-12-31,S1,P1,,1,2.5,1.60
= accepted 5: 2 records, 1 placeholders
load p3 p8
send sales s2
> ticket,line,day,store,product,customer,quantity,amount,cost
> T2,1,2024-06-10,S1,P9,C9,1,10.00,7.00
= accepted 12: 1 records, 2 placeholders
send product p9
> id,day,description,brand,category,department,launched,supplier
> P9,2024-06-05,Tea 50,Leaf,Drinks,Grocery,2024,North
= accepted 13: 1 records, 0 placeholders

# A placeholder has the unknown profile.
table customer
= surrogate,durable,natural,from_day,to_day,is_current,a1,a2,a3,a4,a5,a6,b1,b2,b3,b4,b5,b6,profile_now
= 0,0,(no card),19000101,99991231,1,(no card),,,,,,,,,,,,0
= 1,1,C9,19000101,99991231,1,(unknown),,,,,,,,,,,,1
table fact
= ticket,line,day,store_key,product_key,customer_key,store_durable,product_durable,customer_durable,profile,quantity,amount,cost
= T0,1,20231231,1,1,0,1,1,0,0,1,250,160
= T1,1,20240205,1,3,0,1,1,0,0,2,500,320
= T2,1,20240610,1,9,1,1,2,1,1,1,1000,700
table profile
= number,v1,v2,v3,v4,v5,v6
= 0,,(no card),(no card),,,
= 1,,(unknown),(unknown),,,

# The first bands of a customer give its sale another profile.
send customer c1
> id,day,tier,age_band,spend_band
> C9,2024-06-08,Gold,30-39,high
= accepted 14: 1 records, 0 placeholders
table customer
= surrogate,durable,natural,from_day,to_day,is_current,a1,a2,a3,a4,a5,a6,b1,b2,b3,b4,b5,b6,profile_now
= 0,0,(no card),19000101,99991231,1,(no card),,,,,,,,,,,,0
= 1,1,C9,19000101,99991231,1,Gold,,,,,,,,,,,,2
table fact
= ticket,line,day,store_key,product_key,customer_key,store_durable,product_durable,customer_durable,profile,quantity,amount,cost
= T0,1,20231231,1,1,0,1,1,0,0,1,250,160
= T1,1,20240205,1,3,0,1,1,0,0,2,500,320
= T2,1,20240610,1,9,1,1,2,1,2,1,1000,700
table profile
= number,v1,v2,v3,v4,v5,v6
= 0,,(no card),(no card),,,
= 1,,(unknown),(unknown),,,
= 2,,30-39,high,,,

# Later bands make no row and move no sale: the row names the latest ones.
send customer c2
> id,day,tier,age_band,spend_band
> C9,2024-07-01,Gold,40-49,high
= accepted 15: 1 records, 0 placeholders
table customer
= surrogate,durable,natural,from_day,to_day,is_current,a1,a2,a3,a4,a5,a6,b1,b2,b3,b4,b5,b6,profile_now
= 0,0,(no card),19000101,99991231,1,(no card),,,,,,,,,,,,0
= 1,1,C9,19000101,99991231,1,Gold,,,,,,,,,,,,3
table fact
= ticket,line,day,store_key,product_key,customer_key,store_durable,product_durable,customer_durable,profile,quantity,amount,cost
= T0,1,20231231,1,1,0,1,1,0,0,1,250,160
= T1,1,20240205,1,3,0,1,1,0,0,2,500,320
= T2,1,20240610,1,9,1,1,2,1,2,1,1000,700
table profile
= number,v1,v2,v3,v4,v5,v6
= 0,,(no card),(no card),,,
= 1,,(unknown),(unknown),,,
= 2,,30-39,high,,,
= 3,,40-49,high,,,

# Bands that come late move the sales of their days, and a combination keeps its number.
send customer c3
> id,day,tier,age_band,spend_band
> C9,2024-06-10,Gold,40-49,high
> C9,2024-08-01,Gold,30-39,high
= accepted 16: 2 records, 0 placeholders
table customer
= surrogate,durable,natural,from_day,to_day,is_current,a1,a2,a3,a4,a5,a6,b1,b2,b3,b4,b5,b6,profile_now
= 0,0,(no card),19000101,99991231,1,(no card),,,,,,,,,,,,0
= 1,1,C9,19000101,99991231,1,Gold,,,,,,,,,,,,2
table fact
= ticket,line,day,store_key,product_key,customer_key,store_durable,product_durable,customer_durable,profile,quantity,amount,cost
= T0,1,20231231,1,1,0,1,1,0,0,1,250,160
= T1,1,20240205,1,3,0,1,1,0,0,2,500,320
= T2,1,20240610,1,9,1,1,2,1,3,1,1000,700
table profile
= number,v1,v2,v3,v4,v5,v6
= 0,,(no card),(no card),,,
= 1,,(unknown),(unknown),,,
= 2,,30-39,high,,,
= 3,,40-49,high,,,

# Where facts alone name profiles, a customer's row names none.
scenario named by facts alone
make bands-of-facts
load p0 p2
batch s1
= accepted 5: 2 records, 1 placeholders
load p3 p8
batch s2
= accepted 12: 1 records, 2 placeholders
batch p9
= accepted 13: 1 records, 0 placeholders
batch c1
= accepted 14: 1 records, 0 placeholders
batch c2
= accepted 15: 1 records, 0 placeholders
table customer
= surrogate,durable,natural,from_day,to_day,is_current,a1,a2,a3,a4,a5,a6,b1,b2,b3,b4,b5,b6,profile_now
= 0,0,(no card),19000101,99991231,1,(no card),,,,,,,,,,,,0
= 1,1,C9,19000101,99991231,1,Gold,,,,,,,,,,,,0
table fact
= ticket,line,day,store_key,product_key,customer_key,store_durable,product_durable,customer_durable,profile,quantity,amount,cost
= T0,1,20231231,1,1,0,1,1,0,0,1,250,160
= T1,1,20240205,1,3,0,1,1,0,0,2,500,320
= T2,1,20240610,1,9,1,1,2,1,2,1,1000,700
table profile
= number,v1,v2,v3,v4,v5,v6
= 0,,(no card),(no card),,,
= 1,,(unknown),(unknown),,,
= 2,,30-39,high,,,
= 3,,40-49,high,,,

# A sale to a customer with bands has the profile of its day.
scenario of the day of a sale
make bands-of-rows
load p0 c2
send sales s3
> ticket,line,day,store,product,customer,quantity,amount,cost
> T3,1,2024-06-30,S1,P9,C9,1,10.00,7.00
> T4,1,2024-07-01,S1,P9,C9,1,10.00,7.00
= accepted 16: 2 records, 0 placeholders
table customer
= surrogate,durable,natural,from_day,to_day,is_current,a1,a2,a3,a4,a5,a6,b1,b2,b3,b4,b5,b6,profile_now
= 0,0,(no card),19000101,99991231,1,(no card),,,,,,,,,,,,0
= 1,1,C9,19000101,99991231,1,Gold,,,,,,,,,,,,3
table fact
= ticket,line,day,store_key,product_key,customer_key,store_durable,product_durable,customer_durable,profile,quantity,amount,cost
= T0,1,20231231,1,1,0,1,1,0,0,1,250,160
= T1,1,20240205,1,3,0,1,1,0,0,2,500,320
= T2,1,20240610,1,9,1,1,2,1,2,1,1000,700
= T3,1,20240630,1,9,1,1,2,1,2,1,1000,700
= T4,1,20240701,1,9,1,1,2,1,3,1,1000,700
table profile
= number,v1,v2,v3,v4,v5,v6
= 0,,(no card),(no card),,,
= 1,,(unknown),(unknown),,,
= 2,,30-39,high,,,
= 3,,40-49,high,,,
";
