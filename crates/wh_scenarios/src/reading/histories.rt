//! The histories of members: their rows, and what a record changes in them.

pub const ALL: &str = "
scenario histories
# A record comes late: the row of the second day ends, and one begins on the day between.
types 1 2 6 7 0 3
member P1 1 1
change 20240110 2 Cola 1l,Acme,Drinks,Grocery,2019,North
change 20240201 3 Cola 1l,Bolt,Drinks,Grocery,2019,North
rows
= surrogate,from_day,to_day,is_current,a1,a2,a3,a4,a5,a6,b1,b2,b3,b4,b5,b6,profile_now
= 1,19000101,20240131,0,Cola 1l,Acme,Drinks,Grocery,2019,North,,,Drinks,,,(none),0
= 3,20240201,99991231,1,Cola 1l,Bolt,Drinks,Grocery,2019,North,,,Drinks,,,(none),0
change 20240120 4 Cola 1l,Bolt,Drinks,Grocery,2019,North
rows
= surrogate,from_day,to_day,is_current,a1,a2,a3,a4,a5,a6,b1,b2,b3,b4,b5,b6,profile_now
= 1,19000101,20240119,0,Cola 1l,Acme,Drinks,Grocery,2019,North,,,Drinks,,,(none),0
= 4,20240120,99991231,1,Cola 1l,Bolt,Drinks,Grocery,2019,North,,,Drinks,,,(none),0

# Six types, and then the second attribute overwritten too.
change 20240201 3 Cola 1l,Cask,Drinks,Grocery,2019,North
change 20240301 5 Cola 1 l,Cask,Drinks,Grocery,2019,North
change 20240401 6 Cola 1 l,Cask,Soft drinks,Grocery,2019,North
change 20240601 7 Cola 1 l,Cask,Soft drinks,Grocery,2021,South
change 20240501 8 Cola 1 l,Cask,Soft drinks,Grocery,2019,East
rows
= surrogate,from_day,to_day,is_current,a1,a2,a3,a4,a5,a6,b1,b2,b3,b4,b5,b6,profile_now
= 1,19000101,20240119,0,Cola 1 l,Acme,Drinks,Grocery,2019,South,,,Soft drinks,,,East,0
= 4,20240120,20240131,0,Cola 1 l,Bolt,Drinks,Grocery,2019,South,,,Soft drinks,,,East,0
= 3,20240201,20240331,0,Cola 1 l,Cask,Drinks,Grocery,2019,South,,,Soft drinks,,,East,0
= 6,20240401,99991231,1,Cola 1 l,Cask,Soft drinks,Grocery,2019,South,,,Soft drinks,,,East,0
types 1 1 6 7 0 3
rows
= surrogate,from_day,to_day,is_current,a1,a2,a3,a4,a5,a6,b1,b2,b3,b4,b5,b6,profile_now
= 1,19000101,20240331,0,Cola 1 l,Cask,Drinks,Grocery,2019,South,,,Soft drinks,,,East,0
= 6,20240401,99991231,1,Cola 1 l,Cask,Soft drinks,Grocery,2019,South,,,Soft drinks,,,East,0
value 1 20240119
= Acme
value 1 20240120
= Bolt
latest 5
= South
prior 5
= East
original 4
= 2019

# A member that no record has described, and one that is described from the first day on.
begin
member P9 2 9
render product
= surrogate,from_day,to_day,is_current,a1,a2,a3,a4,a5,a6,b1,b2,b3,b4,b5,b6,profile_now
= 9,19000101,99991231,1,(unknown),(unknown),(unknown),(unknown),(unknown),(unknown),,,(unknown),,,(none),0
place product 20240110
= 0
types 1 2
member P1 1 1
change 19000101 2 Cola 1l,Acme
rows
= surrogate,from_day,to_day,is_current,a1,a2,a3,a4,a5,a6,b1,b2,b3,b4,b5,b6,profile_now
= 1,19000101,99991231,1,Cola 1l,Acme,,,,,,,,,,,0

# The profile of the newest record is the second combination, which has the number 3; without a record it is 1.
begin
types 2 5 5
member C9 1 1
change 20240608 2 Gold,30-39,high
change 20240701 3 Gold,40-49,high
profiles
render customer
= surrogate,from_day,to_day,is_current,a1,a2,a3,a4,a5,a6,b1,b2,b3,b4,b5,b6,profile_now
= 1,19000101,99991231,1,Gold,,,,,,,,,,,,3
member C8 2 4
render customer
= surrogate,from_day,to_day,is_current,a1,a2,a3,a4,a5,a6,b1,b2,b3,b4,b5,b6,profile_now
= 4,19000101,99991231,1,(unknown),,,,,,,,,,,,1

scenario tables and plans
record P1 20240110 Cola 1l,Acme
record P1 20240201 Cola 1.0l,Bolt
trial product
= surrogate,from_day,to_day,is_current,a1,a2,a3,a4,a5,a6,b1,b2,b3,b4,b5,b6,profile_now
= 1,19000101,20240131,0,Cola 1.0l,Acme,,,,,,,,,,,0
= 3,20240201,99991231,1,Cola 1.0l,Bolt,,,,,,,,,,,0

begin
record P1 19000101 Cola 1l,Acme
trial product
= surrogate,from_day,to_day,is_current,a1,a2,a3,a4,a5,a6,b1,b2,b3,b4,b5,b6,profile_now
= 1,19000101,99991231,1,Cola 1l,Acme,,,,,,,,,,,0

# Records out of the order of their days.
begin
record P1 20240110 Cola 1l,Acme,Drinks,Grocery,,North
record P1 20240401 Cola 1l,Acme,Soft drinks,Grocery,2019,North
record P1 20240201 Cola 1l,Acme,Drinks,Food,2020,South
table product
= surrogate,from_day,to_day,is_current,a1,a2,a3,a4,a5,a6,b1,b2,b3,b4,b5,b6,profile_now
= 1,19000101,20240131,0,Cola 1l,Acme,Drinks,Grocery,2019,North,,,Soft drinks,,,South,0
= 3,20240401,99991231,1,Cola 1l,Acme,Soft drinks,Grocery,2019,North,,,Soft drinks,,,South,0
= 4,20240201,20240331,0,Cola 1l,Acme,Drinks,Food,2019,North,,,Soft drinks,,,South,0

begin
record C9 20240608 Gold,30-39,high
record C8 20240701 Silver,40-49,low
table customer
= surrogate,from_day,to_day,is_current,a1,a2,a3,a4,a5,a6,b1,b2,b3,b4,b5,b6,profile_now
= 0,19000101,99991231,1,(no card),,,,,,,,,,,,0
= 1,19000101,99991231,1,Gold,,,,,,,,,,,,2
= 3,19000101,99991231,1,Silver,,,,,,,,,,,,3

# A late record moves the sale that was made after its day.
begin
types 1 2 6 7 0 3
member P1 1 1
change 20240110 2 Cola 1l,Acme,Drinks,Grocery,2019,North
change 20240201 3 Cola 1l,Bolt,Drinks,Grocery,2019,North
store
fact T0 20231231 1
fact T1 20240205 3
change 20240120 4 Cola 1l,Bolt,Drinks,Grocery,2019,North
plan
= put 1
= remove 3
= put 4
= moved T1 4
";
