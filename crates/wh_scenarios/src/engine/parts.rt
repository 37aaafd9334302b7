//! The reads and writes that a command is made of.

pub const ALL: &str = "
scenario parts
# A warehouse is made: the days of four years, the profiles of no card and of the unknown. Sales without a card have a row.
trial
count calendar
= 1461
count profile
= 2
count product
= 0
table customer
= surrogate,durable,natural,from_day,to_day,is_current,a1,a2,a3,a4,a5,a6,b1,b2,b3,b4,b5,b6,profile_now
= 0,0,(no card),19000101,99991231,1,(no card),,,,,,,,,,,,0
find init
= number,id,kind,bytes,records,placeholders
= 1,init,init,first_year = 2023,0,0

# A batch of a record of a new product is planned, and written.
plan 2 p1
> P1,2024-01-10,Cola 1l,Acme
= command number,id,kind,bytes,records,placeholders
= command 2,p1,product,a batch,1,0
= member dim,durable,natural,opening
= member 1,1,P1,1
= change command,record,dim,durable,day,anchor,v1,v2,v3,v4,v5,v6
= change 2,1,1,1,20240110,2,Cola 1l,Acme,,,,
= product surrogate,durable,natural,from_day,to_day,is_current,a1,a2,a3,a4,a5,a6,b1,b2,b3,b4,b5,b6,profile_now
= product 1,1,P1,19000101,99991231,1,Cola 1l,Acme,,,,,,,,,,,0
write 2 p1
> P1,2024-01-10,Cola 1l,Acme
member P1
= durable,opening,records
= 1,1,1
kept 1
= records,rows
= 1,1
given product
= durable,opening
= 1,1
given store
= durable,opening
= 0,0

# A new product whose second record has another brand.
trial
plan 2 p1
> P1,2024-01-10,Cola 1l,Acme
> P1,2024-02-01,Cola 1l,Bolt
= command number,id,kind,bytes,records,placeholders
= command 2,p1,product,a batch,2,0
= member dim,durable,natural,opening
= member 1,1,P1,1
= change command,record,dim,durable,day,anchor,v1,v2,v3,v4,v5,v6
= change 2,1,1,1,20240110,2,Cola 1l,Acme,,,,
= change 2,2,1,1,20240201,3,Cola 1l,Bolt,,,,
= product surrogate,durable,natural,from_day,to_day,is_current,a1,a2,a3,a4,a5,a6,b1,b2,b3,b4,b5,b6,profile_now
= product 1,1,P1,19000101,20240131,0,Cola 1l,Acme,,,,,,,,,,,0
= product 3,1,P1,20240201,99991231,1,Cola 1l,Bolt,,,,,,,,,,,0

# A record between the two, with the later brand.
write 2 p1
> P1,2024-01-10,Cola 1l,Acme
> P1,2024-02-01,Cola 1l,Bolt
plan 3 p3
> P1,2024-01-20,Cola 1l,Bolt
= command number,id,kind,bytes,records,placeholders
= command 3,p3,product,a batch,1,0
= change command,record,dim,durable,day,anchor,v1,v2,v3,v4,v5,v6
= change 3,1,1,1,20240120,4,Cola 1l,Bolt,,,,
= product surrogate,durable,natural,from_day,to_day,is_current,a1,a2,a3,a4,a5,a6,b1,b2,b3,b4,b5,b6,profile_now
= product 1,1,P1,19000101,20240119,0,Cola 1l,Acme,,,,,,,,,,,0
= product without 3
= product 4,1,P1,20240120,99991231,1,Cola 1l,Bolt,,,,,,,,,,,0

# A new member has a row, an old one none.
new-members 0
> 2024-01-10,2,Cola 1l,Acme,,,,
> 2024-02-01,3,Cola 1l,Bolt,,,,
= dim,durable,natural,opening
= 1,1,P1,1
new-members 1
> 2024-01-10,2,Cola 1l,Acme,,,,
> 2024-02-01,3,Cola 1l,Bolt,,,,

# A record has a row.
new-changes 3 P1,2024-02-01,Cola 1l,Bolt
> 2024-01-10,2,Cola 1l,Acme,,,,
> 2024-02-01,3,Cola 1l,Bolt,,,,
= command,record,dim,durable,day,anchor,v1,v2,v3,v4,v5,v6
= 3,1,1,1,20240201,3,Cola 1l,Bolt,,,,

# A member is rendered.
rendered
> 2024-01-10,2,Cola 1l,Acme,,,,
> 2024-02-01,3,Cola 1l,Bolt,,,,
= surrogate,durable,natural,from_day,to_day,is_current,a1,a2,a3,a4,a5,a6,b1,b2,b3,b4,b5,b6,profile_now
= 1,1,P1,19000101,20240131,0,Cola 1l,Acme,,,,,,,,,,,0
= 3,1,P1,20240201,99991231,1,Cola 1l,Bolt,,,,,,,,,,,0
";
