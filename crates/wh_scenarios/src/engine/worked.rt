//! Batches of one product, in order, and its rows after them.

pub const ALL: &str = "
scenario answers
make flat
batch p0
= accepted 2: 0 records, 0 placeholders
batch p1
= accepted 3: 1 records, 0 placeholders
batch p2
= accepted 4: 1 records, 0 placeholders
batch p3
= accepted 5: 1 records, 0 placeholders
batch p4
= accepted 6: 1 records, 0 placeholders
batch p5
= accepted 7: 1 records, 0 placeholders
batch p6
= accepted 8: 1 records, 0 placeholders
batch p7
= accepted 9: 1 records, 0 placeholders
batch p8
= accepted 10: 1 records, 0 placeholders
counts
= format 1
= commands 10
= changes 8
= facts 0
= products 1
= stores 0
= customers 0
table product
= surrogate,durable,natural,from_day,to_day,is_current,a1,a2,a3,a4,a5,a6,b1,b2,b3,b4,b5,b6,profile_now
= 1,1,P1,19000101,20240119,0,Cola 1 l,Acme,Drinks,Grocery,2019,South,,,Soft drinks,,,East,0
= 3,1,P1,20240201,20240331,0,Cola 1 l,Cask,Drinks,Grocery,2019,South,,,Soft drinks,,,East,0
= 4,1,P1,20240120,20240131,0,Cola 1 l,Bolt,Drinks,Grocery,2019,South,,,Soft drinks,,,East,0
= 6,1,P1,20240401,99991231,1,Cola 1 l,Cask,Soft drinks,Grocery,2019,South,,,Soft drinks,,,East,0

scenario rows
make flat
load p0 p0
table product

# The earliest day draws the number 2, which names no row.
load p1 p2
table product
= surrogate,durable,natural,from_day,to_day,is_current,a1,a2,a3,a4,a5,a6,b1,b2,b3,b4,b5,b6,profile_now
= 1,1,P1,19000101,20240131,0,Cola 1l,Acme,Drinks,Grocery,2019,North,,,Drinks,,,(none),0
= 3,1,P1,20240201,99991231,1,Cola 1l,Bolt,Drinks,Grocery,2019,North,,,Drinks,,,(none),0

# The brand came earlier.
load p3 p3
table product
= surrogate,durable,natural,from_day,to_day,is_current,a1,a2,a3,a4,a5,a6,b1,b2,b3,b4,b5,b6,profile_now
= 1,1,P1,19000101,20240119,0,Cola 1l,Acme,Drinks,Grocery,2019,North,,,Drinks,,,(none),0
= 4,1,P1,20240120,99991231,1,Cola 1l,Bolt,Drinks,Grocery,2019,North,,,Drinks,,,(none),0
table member
= dim,durable,natural,opening
= 1,1,P1,1

# A day is told again, and a row is there again under its number.
load p4 p4
table product
= surrogate,durable,natural,from_day,to_day,is_current,a1,a2,a3,a4,a5,a6,b1,b2,b3,b4,b5,b6,profile_now
= 1,1,P1,19000101,20240119,0,Cola 1l,Acme,Drinks,Grocery,2019,North,,,Drinks,,,(none),0
= 3,1,P1,20240201,99991231,1,Cola 1l,Cask,Drinks,Grocery,2019,North,,,Drinks,,,(none),0
= 4,1,P1,20240120,20240131,0,Cola 1l,Bolt,Drinks,Grocery,2019,North,,,Drinks,,,(none),0

# All accepted records are kept, two of them of one day.
table change
= command,record,dim,durable,day,anchor,v1,v2,v3,v4,v5,v6
= 3,1,1,1,20240110,2,Cola 1l,Acme,Drinks,Grocery,2019,North
= 4,1,1,1,20240201,3,Cola 1l,Bolt,Drinks,Grocery,2019,North
= 5,1,1,1,20240120,4,Cola 1l,Bolt,Drinks,Grocery,2019,North
= 6,1,1,1,20240201,3,Cola 1l,Cask,Drinks,Grocery,2019,North

# Every row shows the latest description.
load p5 p5
table product
= surrogate,durable,natural,from_day,to_day,is_current,a1,a2,a3,a4,a5,a6,b1,b2,b3,b4,b5,b6,profile_now
= 1,1,P1,19000101,20240119,0,Cola 1 l,Acme,Drinks,Grocery,2019,North,,,Drinks,,,(none),0
= 3,1,P1,20240201,99991231,1,Cola 1 l,Cask,Drinks,Grocery,2019,North,,,Drinks,,,(none),0
= 4,1,P1,20240120,20240131,0,Cola 1 l,Bolt,Drinks,Grocery,2019,North,,,Drinks,,,(none),0

# Every row shows the latest category beside its own.
load p6 p6
table product
= surrogate,durable,natural,from_day,to_day,is_current,a1,a2,a3,a4,a5,a6,b1,b2,b3,b4,b5,b6,profile_now
= 1,1,P1,19000101,20240119,0,Cola 1 l,Acme,Drinks,Grocery,2019,North,,,Soft drinks,,,(none),0
= 3,1,P1,20240201,20240331,0,Cola 1 l,Cask,Drinks,Grocery,2019,North,,,Soft drinks,,,(none),0
= 4,1,P1,20240120,20240131,0,Cola 1 l,Bolt,Drinks,Grocery,2019,North,,,Soft drinks,,,(none),0
= 6,1,P1,20240401,99991231,1,Cola 1 l,Cask,Soft drinks,Grocery,2019,North,,,Soft drinks,,,(none),0

# Every row shows the latest supplier and the prior one, and the first year of launch.
load p7 p7
table product
= surrogate,durable,natural,from_day,to_day,is_current,a1,a2,a3,a4,a5,a6,b1,b2,b3,b4,b5,b6,profile_now
= 1,1,P1,19000101,20240119,0,Cola 1 l,Acme,Drinks,Grocery,2019,South,,,Soft drinks,,,North,0
= 3,1,P1,20240201,20240331,0,Cola 1 l,Cask,Drinks,Grocery,2019,South,,,Soft drinks,,,North,0
= 4,1,P1,20240120,20240131,0,Cola 1 l,Bolt,Drinks,Grocery,2019,South,,,Soft drinks,,,North,0
= 6,1,P1,20240401,99991231,1,Cola 1 l,Cask,Soft drinks,Grocery,2019,South,,,Soft drinks,,,North,0

# A backdated record may change the prior supplier.
load p8 p8
table product
= surrogate,durable,natural,from_day,to_day,is_current,a1,a2,a3,a4,a5,a6,b1,b2,b3,b4,b5,b6,profile_now
= 1,1,P1,19000101,20240119,0,Cola 1 l,Acme,Drinks,Grocery,2019,South,,,Soft drinks,,,East,0
= 3,1,P1,20240201,20240331,0,Cola 1 l,Cask,Drinks,Grocery,2019,South,,,Soft drinks,,,East,0
= 4,1,P1,20240120,20240131,0,Cola 1 l,Bolt,Drinks,Grocery,2019,South,,,Soft drinks,,,East,0
= 6,1,P1,20240401,99991231,1,Cola 1 l,Cask,Soft drinks,Grocery,2019,South,,,Soft drinks,,,East,0
";
