//! Policies that take the place of others, and policies that don't.

pub const ALL: &str = r#"
scenario migrations
make bands-of-rows
load p0 c2

# The brand no longer begins a row: two rows are gone, and a sale moves.
mark
plan migrate m1
> brand-overwritten
= put command 16
= put product 1
= remove product 3
= remove product 4
= rekey fact T1 1
same
= the same
send migrate m1
> brand-overwritten
= accepted 16: 0 records, 0 placeholders
writes
= written 5
table product
= surrogate,durable,natural,from_day,to_day,is_current,a1,a2,a3,a4,a5,a6,b1,b2,b3,b4,b5,b6,profile_now
= 1,1,P1,19000101,20240331,0,Cola 1 l,Cask,Drinks,Grocery,2019,South,,,Soft drinks,,,East,0
= 6,1,P1,20240401,99991231,1,Cola 1 l,Cask,Soft drinks,Grocery,2019,South,,,Soft drinks,,,East,0
= 9,2,P9,19000101,99991231,1,Tea 50,Leaf,Drinks,Grocery,2024,North,,,Drinks,,,(none),0
table fact
= ticket,line,day,store_key,product_key,customer_key,store_durable,product_durable,customer_durable,profile,quantity,amount,cost
= T0,1,20231231,1,1,0,1,1,0,0,1,250,160
= T1,1,20240205,1,1,0,1,1,0,0,2,500,320
= T2,1,20240610,1,9,1,1,2,1,2,1,1000,700

# It comes again, and another under its id.
plan migrate m1
> brand-overwritten
send migrate m1
> brand-overwritten
= already 16: 0 records, 0 placeholders
send migrate m1
> bands-of-rows
= refused: Reused

# The first policy again: rows and numbers are as they were.
send migrate m2
> bands-of-rows
= accepted 17: 0 records, 0 placeholders
table product
= surrogate,durable,natural,from_day,to_day,is_current,a1,a2,a3,a4,a5,a6,b1,b2,b3,b4,b5,b6,profile_now
= 1,1,P1,19000101,20240119,0,Cola 1 l,Acme,Drinks,Grocery,2019,South,,,Soft drinks,,,East,0
= 3,1,P1,20240201,20240331,0,Cola 1 l,Cask,Drinks,Grocery,2019,South,,,Soft drinks,,,East,0
= 4,1,P1,20240120,20240131,0,Cola 1 l,Bolt,Drinks,Grocery,2019,South,,,Soft drinks,,,East,0
= 6,1,P1,20240401,99991231,1,Cola 1 l,Cask,Soft drinks,Grocery,2019,South,,,Soft drinks,,,East,0
= 9,2,P9,19000101,99991231,1,Tea 50,Leaf,Drinks,Grocery,2024,North,,,Drinks,,,(none),0
table fact
= ticket,line,day,store_key,product_key,customer_key,store_durable,product_durable,customer_durable,profile,quantity,amount,cost
= T0,1,20231231,1,1,0,1,1,0,0,1,250,160
= T1,1,20240205,1,3,0,1,1,0,0,2,500,320
= T2,1,20240610,1,9,1,1,2,1,2,1,1000,700
close
open
= opened
send migrate m3
> brand-exchanged
= refused: Unfit
send migrate m3
> small
= refused: Unfit

# The age band leaves the profiles, which are numbered anew.
batch s4
= accepted 18: 1 records, 0 placeholders
batch c3
= accepted 19: 1 records, 0 placeholders
# It tells what is known: the command and its record alone are written.
writes
= written 2
batch c4
= accepted 20: 1 records, 0 placeholders
table customer
= surrogate,durable,natural,from_day,to_day,is_current,a1,a2,a3,a4,a5,a6,b1,b2,b3,b4,b5,b6,profile_now
= 0,0,(no card),19000101,99991231,1,(no card),,,,,,,,,,,,0
= 1,1,C9,19000101,99991231,1,Gold,,,,,,,,,,,,3
= 4,2,C8,19000101,99991231,1,V,,,,,,,,,,,,4
plan migrate m4
> age-overwritten
= put command 21
= put customer 0
= put customer 1
= put customer 4
= put profile 0
= put profile 1
= put profile 2
= put profile 3
= remove profile 4
send migrate m4
> age-overwritten
= accepted 21: 0 records, 0 placeholders
writes
= written 9
table customer
= surrogate,durable,natural,from_day,to_day,is_current,a1,a2,a3,a4,a5,a6,b1,b2,b3,b4,b5,b6,profile_now
= 0,0,(no card),19000101,99991231,1,(no card),(no card),,,,,,,,,,,0
= 1,1,C9,19000101,99991231,1,Gold,40-49,,,,,,,,,,,2
= 4,2,C8,19000101,99991231,1,V,(none),,,,,,,,,,,3
table profile
= number,v1,v2,v3,v4,v5,v6
= 0,,,(no card),,,
= 1,,,(unknown),,,
= 2,,,high,,,
= 3,,,(none),,,
send migrate m5
> bands-of-rows
= accepted 22: 0 records, 0 placeholders
table product
= surrogate,durable,natural,from_day,to_day,is_current,a1,a2,a3,a4,a5,a6,b1,b2,b3,b4,b5,b6,profile_now
= 1,1,P1,19000101,20240119,0,Cola 1 l,Acme,Drinks,Grocery,2019,South,,,Soft drinks,,,East,0
= 3,1,P1,20240201,20240331,0,Cola 1 l,Cask,Drinks,Grocery,2019,South,,,Soft drinks,,,East,0
= 4,1,P1,20240120,20240131,0,Cola 1 l,Bolt,Drinks,Grocery,2019,South,,,Soft drinks,,,East,0
= 6,1,P1,20240401,99991231,1,Cola 1 l,Cask,Soft drinks,Grocery,2019,South,,,Soft drinks,,,East,0
= 9,2,P9,19000101,99991231,1,Tea 50,Leaf,Drinks,Grocery,2024,North,,,Drinks,,,(none),0
table store
= surrogate,durable,natural,from_day,to_day,is_current,a1,a2,a3,a4,a5,a6,b1,b2,b3,b4,b5,b6,profile_now
= 1,1,S1,19000101,99991231,1,(unknown),,,,,,,,,,,,0
table member
= dim,durable,natural,opening
= 1,1,P1,1
= 1,2,P9,9
= 2,1,S1,1
= 3,1,C9,1
= 3,2,C8,4
table customer
= surrogate,durable,natural,from_day,to_day,is_current,a1,a2,a3,a4,a5,a6,b1,b2,b3,b4,b5,b6,profile_now
= 0,0,(no card),19000101,99991231,1,(no card),,,,,,,,,,,,0
= 1,1,C9,19000101,99991231,1,Gold,,,,,,,,,,,,3
= 4,2,C8,19000101,99991231,1,V,,,,,,,,,,,,4
table profile
= number,v1,v2,v3,v4,v5,v6
= 0,,(no card),(no card),,,
= 1,,(unknown),(unknown),,,
= 2,,30-39,high,,,
= 3,,40-49,high,,,
= 4,,(none),(none),,,
table fact
= ticket,line,day,store_key,product_key,customer_key,store_durable,product_durable,customer_durable,profile,quantity,amount,cost
= T0,1,20231231,1,1,0,1,1,0,0,1,250,160
= T1,1,20240205,1,3,0,1,1,0,0,2,500,320
= T2,1,20240610,1,9,1,1,2,1,2,1,1000,700
= T4,1,20240229,1,3,0,1,1,0,0,1,250,160

# A record between two policies: what it says comes out under the second.
make bands-of-rows
load p0 p2
batch s1
= accepted 5: 2 records, 1 placeholders
send migrate m1
> brand-overwritten
= accepted 6: 0 records, 0 placeholders
load p3 p3
table product
= surrogate,durable,natural,from_day,to_day,is_current,a1,a2,a3,a4,a5,a6,b1,b2,b3,b4,b5,b6,profile_now
= 1,1,P1,19000101,99991231,1,Cola 1l,Bolt,Drinks,Grocery,2019,North,,,Drinks,,,(none),0
send migrate m2
> bands-of-rows
= accepted 8: 0 records, 0 placeholders
table product
= surrogate,durable,natural,from_day,to_day,is_current,a1,a2,a3,a4,a5,a6,b1,b2,b3,b4,b5,b6,profile_now
= 1,1,P1,19000101,20240119,0,Cola 1l,Acme,Drinks,Grocery,2019,North,,,Drinks,,,(none),0
= 4,1,P1,20240120,99991231,1,Cola 1l,Bolt,Drinks,Grocery,2019,North,,,Drinks,,,(none),0
table fact
= ticket,line,day,store_key,product_key,customer_key,store_durable,product_durable,customer_durable,profile,quantity,amount,cost
= T0,1,20231231,1,1,0,1,1,0,0,1,250,160
= T1,1,20240205,1,4,0,1,1,0,0,2,500,320

# One more attribute and one more year.
make bands-of-rows
load p1 p1
batch s1
= accepted 3: 2 records, 1 placeholders
send migrate m1
> brand-overwritten
= accepted 4: 0 records, 0 placeholders
load p2 p2
send sales s2
> ticket,line,day,store,product,customer,quantity,amount,cost
> T2,1,2027-01-01,S1,P1,,1,2.50,1.60
= refused: OutsideCalendar at 1
send migrate m4
> region-and-2027
= accepted 6: 0 records, 0 placeholders
# The command, the store's row and the 365 days of 2027.
writes
= written 367
policy
= last year 2027
= attributes of a product 6
table store
= surrogate,durable,natural,from_day,to_day,is_current,a1,a2,a3,a4,a5,a6,b1,b2,b3,b4,b5,b6,profile_now
= 1,1,S1,19000101,99991231,1,(unknown),(unknown),,,,,,,,,,,0
send sales s2
> ticket,line,day,store,product,customer,quantity,amount,cost
> T2,1,2027-01-01,S1,P1,,1,2.50,1.60
= accepted 7: 1 records, 0 placeholders
send migrate m5
> brand-overwritten
= refused: Unfit

# A holiday on another day.
make bands-of-rows
plan migrate m1
> holiday-moved
= put command 2
= put calendar 20241225
= put calendar 20241226
send migrate m1
> holiday-moved
= accepted 2: 0 records, 0 placeholders
writes
= written 3

# One more attribute of each dimension, and other years.
make small
send product p1
> id,day,brand
> P1,2024-02-01,Acme
= accepted 2: 1 records, 0 placeholders
send customer c1
> id,day,tier
> C1,2024-02-01,Gold
= accepted 3: 1 records, 0 placeholders
send sales s1
> ticket,line,day,store,product,customer,quantity,amount,cost
> T1,1,2024-03-01,S1,P1,C1,1,2.50,1.60
= accepted 4: 1 records, 1 placeholders
send migrate m1
> later-years
= refused: Unfit

# Another name in the slot.
send migrate m1
> first_year = 2024
> last_year = 2024
> product = [{ name = "label", type = 2 }]
> store = [{ name = "city", type = 2 }]
> customer = [{ name = "tier", type = 2 }]
= refused: Unfit
plan migrate m1
> one-more-each
= put command 5
= put product 1
= put store 1
= put profile 0
= put profile 1
= put profile 2
send migrate m1
> one-more-each
= accepted 5: 0 records, 0 placeholders
table product
= surrogate,durable,natural,from_day,to_day,is_current,a1,a2,a3,a4,a5,a6,b1,b2,b3,b4,b5,b6,profile_now
= 1,1,P1,19000101,99991231,1,Acme,(none),,,,,,,,,,,0
table store
= surrogate,durable,natural,from_day,to_day,is_current,a1,a2,a3,a4,a5,a6,b1,b2,b3,b4,b5,b6,profile_now
= 1,1,S1,19000101,99991231,1,(unknown),(unknown),,,,,,(none),,,,,0
send product p2
> id,day,brand,supplier
> P1,2024-02-15,Acme,North
= accepted 6: 1 records, 0 placeholders
table product
= surrogate,durable,natural,from_day,to_day,is_current,a1,a2,a3,a4,a5,a6,b1,b2,b3,b4,b5,b6,profile_now
= 1,1,P1,19000101,20240214,0,Acme,(none),,,,,,,,,,,0
= 3,1,P1,20240215,99991231,1,Acme,North,,,,,,,,,,,0
table fact
= ticket,line,day,store_key,product_key,customer_key,store_durable,product_durable,customer_durable,profile,quantity,amount,cost
= T1,1,20240301,1,3,1,1,1,1,2,1,250,160

# A sale whose product and customer both move has one edit.
make small
send product p1
> id,day,brand
> P1,2024-02-01,Acme
> P1,2024-03-01,Bolt
= accepted 2: 2 records, 0 placeholders
send customer c1
> id,day,tier
> C1,2024-02-01,Gold
> C1,2024-03-01,Silver
= accepted 3: 2 records, 0 placeholders
send sales s1
> ticket,line,day,store,product,customer,quantity,amount,cost
> T1,1,2024-03-05,S1,P1,C1,1,2.50,1.60
= accepted 4: 1 records, 1 placeholders
table fact
= ticket,line,day,store_key,product_key,customer_key,store_durable,product_durable,customer_durable,profile,quantity,amount,cost
= T1,1,20240305,1,3,3,1,1,1,2,1,250,160
plan migrate m1
> first_year = 2024
> last_year = 2024
> product = [{ name = "brand", type = 1 }]
> store = [{ name = "city", type = 2 }]
> customer = [{ name = "tier", type = 1 }]
= put command 5
= put product 1
= remove product 3
= put customer 1
= remove customer 3
= rekey fact T1 1

make flat
load p0 p2
mark

# No policy, and one with a bad type.
send migrate m1
> first_year = 2023
= refused: Policy(Missing)
send migrate m1
= refused: Policy(Missing)

# An attribute less, other slots, and a year less.
send migrate m1
> first_year = 2023
> last_year = 2026
> [[product]]
> name = "description"
> type = 1
> [[store]]
> name = "city"
> type = 2
> [[customer]]
> name = "tier"
> type = 2
= refused: Unfit
plan migrate m1
> first_year = 2023
> last_year = 2026
> [[product]]
> name = "description"
> type = 1
> [[store]]
> name = "city"
> type = 2
> [[customer]]
> name = "tier"
> type = 2
= Refused(Unfit)

# A bad id, and that of the making and of a batch.
send migrate m/1
> first_year = 2023
= refused: BadId
send migrate init
> first_year = 2023
= refused: Reused
send migrate p1
> first_year = 2023
= refused: Reused
same
= the same
policy
= last year 2026
= attributes of a product 6
"#;
