//! Members that are carried to the next warehouse, and the parts that they stand in.

pub const ALL: &str = r#"
# Two products of which news came late or a correction, one that sales alone mentioned, and a customer with bands. The first records give the next warehouse the original values, and the dated ones the rows; no member that no record described is carried.
scenario worked
make bands-of-rows
send product p1
> id,day,description,brand,category,department,launched,supplier
> P1,2024-05-01,Cola,Acme,Drinks,Grocery,2019,South
> P2,2024-01-01,Tea,Leaf,Drinks,Grocery,2020,North
= accepted 2: 2 records, 0 placeholders
send sales s1
> ticket,line,day,store,product,customer,quantity,amount,cost
> T2,1,2024-06-10,S1,P9,C9,1,10.00,7.00
= accepted 3: 1 records, 3 placeholders
send product p2
> id,day,description,brand,category,department,launched,supplier
> P1,2024-01-01,"Cola, ""big""",Bolt,,Grocery,2018,East
> P2,2024-01-01,Tea 50,Leaf,Drinks,Grocery,2021,North
= accepted 4: 2 records, 0 placeholders
send customer c1
> id,day,tier,age_band,spend_band
> C1,2024-01-01,gold,20,low
> C1,2024-03-01,gold,30,high
= accepted 5: 2 records, 0 placeholders
table product
= surrogate,durable,natural,from_day,to_day,is_current,a1,a2,a3,a4,a5,a6,b1,b2,b3,b4,b5,b6,profile_now
= 1,1,P1,19000101,20240430,0,Cola,Bolt,(none),Grocery,2019,South,,,Drinks,,,East,0
= 2,1,P1,20240501,99991231,1,Cola,Acme,Drinks,Grocery,2019,South,,,Drinks,,,East,0
= 3,2,P2,19000101,99991231,1,Tea 50,Leaf,Drinks,Grocery,2020,North,,,Drinks,,,(none),0
= 5,3,P9,19000101,99991231,1,(unknown),(unknown),(unknown),(unknown),(unknown),(unknown),,,(unknown),,,(none),0

# From each record on; past the last one there is none.
mark
records product 1
= id,day,description,brand,category,department,launched,supplier
= P2,2024-01-01,Tea,Leaf,Drinks,Grocery,2020,North
records product 2
= id,day,description,brand,category,department,launched,supplier
= P1,2024-01-01,"Cola, ""big""",Bolt,,Grocery,2018,East
= P1,2024-05-01,Cola,Acme,Drinks,Grocery,2019,South
= P2,2024-01-01,Tea 50,Leaf,Drinks,Grocery,2021,North
records product 4
= id,day,description,brand,category,department,launched,supplier
= P2,2024-01-01,Tea 50,Leaf,Drinks,Grocery,2021,North
records product 5
= id,day,description,brand,category,department,launched,supplier
records product 99
= id,day,description,brand,category,department,launched,supplier
records store 0
= id,day,city
records customer 1
= id,day,tier,age_band,spend_band
= C1,2024-03-01,gold,30,high
same
= the same

carry bands-of-rows
= id,day,description,brand,category,department,launched,supplier
= P1,2024-01-01,Cola,Acme,Drinks,Grocery,2019,South
= P2,2024-01-01,Tea,Leaf,Drinks,Grocery,2020,North
= accepted 2: 2 records, 0 placeholders
= id,day,description,brand,category,department,launched,supplier
= P1,2024-01-01,"Cola, ""big""",Bolt,,Grocery,2018,East
= P1,2024-05-01,Cola,Acme,Drinks,Grocery,2019,South
= P2,2024-01-01,Tea 50,Leaf,Drinks,Grocery,2021,North
= accepted 3: 3 records, 0 placeholders
= id,day,tier,age_band,spend_band
= C1,2024-01-01,gold,20,low
= C1,2024-03-01,gold,30,high
= accepted 4: 2 records, 0 placeholders
table product
= surrogate,durable,natural,from_day,to_day,is_current,a1,a2,a3,a4,a5,a6,b1,b2,b3,b4,b5,b6,profile_now
= 1,1,P1,19000101,20240430,0,Cola,Bolt,(none),Grocery,2019,South,,,Drinks,,,East,0
= 3,2,P2,19000101,99991231,1,Tea 50,Leaf,Drinks,Grocery,2020,North,,,Drinks,,,(none),0
= 5,1,P1,20240501,99991231,1,Cola,Acme,Drinks,Grocery,2019,South,,,Drinks,,,East,0
check
= clean
"#;
