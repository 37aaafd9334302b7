//! Deliveries of the commands that a manifest lists.

pub const ALL: &str = r#"
file good.csv
> product,p1,p1.csv
> sales,s1,s1.csv
file three.csv
> product,p1,p1.csv
> sales,s1,s1.csv
> product,p2,p2.csv
file two.csv
> product,p1,p1.csv
> product,p2
> produce,p3,p3.csv
file gone.csv
> product,p1,p1.csv
> product,p2,gone1.csv
> product,p3,gone2.csv
ends 0 init w policy.toml

scenario a line a command, in order: one is refused, and those behind it are answered too
file night.csv
> product,p1,p1.csv
> sales,s1,s1.csv
> sales,s1,s1.csv
> store,bad id,p1.csv
> migrate,m1,m1.toml
> product,p2,p2.csv
run deliver w night.csv
= accepted 2 p1: 1 records, 0 placeholders
= accepted 3 s1: 2 records, 1 placeholders
= already 3 s1: 2 records, 1 placeholders
= refused: E1 bad id
= accepted 4 m1: 0 records, 0 placeholders
= accepted 5 p2: 1 records, 0 placeholders
run status w
= format 1
= commands 5
= changes 2
= facts 2
= members product 1 store 1 customer 0

# The same again writes nothing.
run deliver w night.csv
= already 2 p1: 1 records, 0 placeholders
= already 3 s1: 2 records, 1 placeholders
= already 3 s1: 2 records, 1 placeholders
= refused: E1 bad id
= already 4 m1: 0 records, 0 placeholders
= already 5 p2: 1 records, 0 placeholders
run plan w product p2 p2.csv
= edits 0

# One more attribute of stores and one more year: each day of it is an edit.
policy m4.toml last_year = 2026->last_year = 2027 and name = "city"|type = 2->name = "city"|type = 2|[[store]]|name = "region"|type = 1 and name = "tier"|type = 2->name = "tier"|type = 2|[[customer]]|name = "age_band"|type = 5|[[customer]]|name = "spend_band"|type = 5 and name = "brand"|type = 2->name = "brand"|type = 1
run plan w migrate m4 m4.toml
= put command 6
= put store 1
=* put calendar {20270101-20270131}
=* put calendar {20270201-20270228}
=* put calendar {20270301-20270331}
=* put calendar {20270401-20270430}
=* put calendar {20270501-20270531}
=* put calendar {20270601-20270630}
=* put calendar {20270701-20270731}
=* put calendar {20270801-20270831}
=* put calendar {20270901-20270930}
=* put calendar {20271001-20271031}
=* put calendar {20271101-20271130}
=* put calendar {20271201-20271231}
= edits 367
run migrate w m4 m4.toml
= accepted 6 m4: 0 records, 0 placeholders
run dump w store
= surrogate,durable,natural,from_day,to_day,is_current,a1,a2,a3,a4,a5,a6,b1,b2,b3,b4,b5,b6,profile_now
= 1,1,S1,19000101,99991231,1,(unknown),(unknown),,,,,,,,,,,0

scenario the commands of a delivery are those of single loads
run load w product p1 p1.csv
= accepted 2 p1: 1 records, 0 placeholders
run deliver w good.csv
= already 2 p1: 1 records, 0 placeholders
= accepted 3 s1: 2 records, 1 placeholders
run load w sales s1 s1.csv
= already 3 s1: 2 records, 1 placeholders

scenario what stops a delivery is told after the answers before it, and the commands behind it are not sent
ends 0 load w product p1 p1.csv
sql w UPDATE product SET from_day = 20240632
file stopped.csv
> store,bad id,p1.csv
> product,p1,p1.csv
> product,p2,p2.csv
> sales,s1,s1.csv
run deliver w stopped.csv
= refused: E1 bad id
= already 2 p1: 1 records, 0 placeholders
= failed: E7 damaged, product
run status w
= format 1
= commands 2
= changes 1
= facts 0
= members product 1 store 0 customer 0

scenario all are accepted, and then all are there
run deliver w good.csv
= accepted 2 p1: 1 records, 0 placeholders
= accepted 3 s1: 2 records, 1 placeholders
run deliver w good.csv
= already 2 p1: 1 records, 0 placeholders
= already 3 s1: 2 records, 1 placeholders

scenario the writer fails within the second line: two commands are kept, and the third isn't begun
fails 10 7 8 deliver w three.csv
= accepted 2 p1: 1 records, 0 placeholders
= accepted 3 s1: 2 recfailed: G4 write
= status 3
run status w
= format 1
= commands 3
= changes 1
= facts 2
= members product 1 store 1 customer 0

scenario it fails from the last byte of the second line on: no byte of the line of the failure can be written
fails 10 9 2048 deliver w three.csv
= accepted 2 p1: 1 records, 0 placeholders
= accepted 3 s1: 2 records, 1 placeholders
= and no end of the line
= status 3
run status w
= format 1
= commands 3
= changes 1
= facts 2
= members product 1 store 1 customer 0

scenario it fails at once: the first command alone is kept, and the delivery sent again takes up the others
fails 10 0 1 deliver w three.csv
= failed: G4 write
run deliver w three.csv
= already 2 p1: 1 records, 0 placeholders
= accepted 3 s1: 2 records, 1 placeholders
= accepted 4 p2: 1 records, 0 placeholders
# Three lines of 40 bytes.
breaks 10 deliver w three.csv
= 12 calls
= a beginning, and then failed: G4 write where it can be written, status 3

scenario it fails within the line of a refusal, and within that of what stops the delivery: nothing behind is begun
file refused.csv
> store,bad id,p1.csv
> product,p1,p1.csv
fails 10 1 2 deliver w refused.csv
= refused: Efailed: G4 write
= status 3
ends 0 load w product p1 p1.csv
sql w UPDATE product SET from_day = 20240632
file stopped.csv
> product,p1,p1.csv
> product,p2,p2.csv
> sales,s1,s1.csv
fails 10 5 6 deliver w stopped.csv
= already 2 p1: 1 records, 0 placeholders
= failed: E7failed: G4 write
run status w
= format 1
= commands 2
= changes 1
= facts 0
= members product 1 store 0 customer 0

scenario no command, bad manifests, and no warehouse
file none.csv
run deliver w none.csv

# A bad manifest is refused whole, before an input is looked for.
run deliver w two.csv
= refused: M1 bad manifest, record 2
file four.csv
> product,p1,p1.csv,
run deliver w four.csv
= refused: M1 bad manifest, record 1
bytes nothing.csv product,p1,p1.csv\nproduct,p1,p1.csv\n""\n
run deliver w nothing.csv
= refused: M1 bad manifest, record 3
file word.csv
> init,p1,p1.csv
run deliver w word.csv
= refused: M1 bad manifest, record 1
bytes text.csv product,p1,p1.csv\n\nproduct,\xFF,p1.csv\n
run deliver w text.csv
= refused: M1 bad manifest, record 2

# The manifest isn't there, or an input: the first that isn't is told.
run deliver w nowhere.csv
= failed: F1 file, nowhere.csv
run deliver w gone.csv
= failed: F1 file, gone1.csv

# Nothing was sent.
run status w
= format 1
= commands 1
= changes 0
= facts 0
= members product 0 store 0 customer 0

# Where nothing is, nothing is made. The manifest and its inputs are read before.
run deliver x good.csv
= failed: N1 not a warehouse
run deliver x two.csv
= refused: M1 bad manifest, record 2
run deliver x gone.csv
= failed: F1 file, gone1.csv
stands x
= no
run deliver p1.csv gone.csv
= failed: F1 file, gone1.csv
run deliver p1.csv good.csv
= failed: F1 file, p1.csv

# Words that are too few or too many.
ends 4 deliver w
ends 4 deliver w good.csv p1.csv
"#;
