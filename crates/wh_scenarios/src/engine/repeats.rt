//! Commands that come again, and others under their ids.

pub const ALL: &str = r#"
scenario repeats
make flat
load p0 p2
send sales s1
> ticket,line,day,store,product,customer,quantity,amount,cost
> T1,1,2024-02-05,S1,P1,,2,5.00,3.20
> T0,1,2023-12-31,S1,P1,,1,2.5,1.60
= accepted 5: 2 records, 1 placeholders
mark

# A batch again, and the header again.
send product p1
> id,day,description,brand,category,department,launched,supplier
> P1,2024-01-10,Cola 1l,Acme,Drinks,Grocery,2019,North
= already 3: 1 records, 0 placeholders
same
= the same
send product p0
> id,day,description,brand,category,department,launched,supplier
>
= already 2: 0 records, 0 placeholders
same
= the same

# One byte more, another byte, and another kind.
send product p1
> id,day,description,brand,category,department,launched,supplier
> P1,2024-01-10,Cola 1l,Acme,Drinks,Grocery,2019,North
>
= refused: Reused
same
= the same
send product p1
> id,day,description,brand,category,department,launched,supplier
> P1,2024-01-11,Cola 1l,Acme,Drinks,Grocery,2019,North
= refused: Reused
same
= the same
send store p1
> id,day,description,brand,category,department,launched,supplier
> P1,2024-01-10,Cola 1l,Acme,Drinks,Grocery,2019,North
= refused: Reused
same
= the same

# Sales again, with another byte, and under the id of products.
send sales s1
> ticket,line,day,store,product,customer,quantity,amount,cost
> T1,1,2024-02-05,S1,P1,,2,5.00,3.20
> T0,1,2023-12-31,S1,P1,,1,2.5,1.60
= already 5: 2 records, 1 placeholders
same
= the same
send sales s1
> ticket,line,day,store,product,customer,quantity,amount,cost
> T1,1,2024-02-05,S1,P1,,2,5.00,3.20
> T0,1,2023-12-31,S1,P1,,1,2.5,1.61
= refused: Reused
same
= the same
send sales p1
> ticket,line,day,store,product,customer,quantity,amount,cost
> T1,1,2024-02-05,S1,P1,,2,5.00,3.20
> T0,1,2023-12-31,S1,P1,,1,2.5,1.60
= refused: Reused
same
= the same

# The making is a command too.
send product init
> first_year = 2023
> last_year = 2026
> [[product]]
> name = "description"
> type = 1
> [[product]]
> name = "brand"
> type = 2
> [[product]]
> name = "category"
> type = 6
> [[product]]
> name = "department"
> type = 7
> [[product]]
> name = "launched"
> type = 0
> [[product]]
> name = "supplier"
> type = 3
> [[store]]
> name = "city"
> type = 2
> [[customer]]
> name = "tier"
> type = 2
> [[holiday]]
> day = "2024-12-25"
> name = "Christmas Day"
= refused: Reused
same
= the same

# What came again is answered as at first, also where the warehouse was opened again.
make flat
load p0 p2
load p3 p8
close
open
= opened
batch p1
= already 3: 1 records, 0 placeholders
table product
= surrogate,durable,natural,from_day,to_day,is_current,a1,a2,a3,a4,a5,a6,b1,b2,b3,b4,b5,b6,profile_now
= 1,1,P1,19000101,20240119,0,Cola 1 l,Acme,Drinks,Grocery,2019,South,,,Soft drinks,,,East,0
= 3,1,P1,20240201,20240331,0,Cola 1 l,Cask,Drinks,Grocery,2019,South,,,Soft drinks,,,East,0
= 4,1,P1,20240120,20240131,0,Cola 1 l,Bolt,Drinks,Grocery,2019,South,,,Soft drinks,,,East,0
= 6,1,P1,20240401,99991231,1,Cola 1 l,Cask,Soft drinks,Grocery,2019,South,,,Soft drinks,,,East,0
"#;
