//! Sessions.

pub const ALL: &str = r#"
scenario a warehouse is made and asked, each line over what the one before left
# A session of no line, and one whose lines say nothing.
session w
session w
> 
> # a remark
>   

# Before there is a warehouse; then one is made, and asked.
session w
> status
> init policy.toml
> check
= failed: N1 not a warehouse
= status 3
= accepted 1 init: 0 records, 0 placeholders
= status 0
= clean
= status 0

# Each line over what the one before left.
session w
> load product p1 p1.csv
> load product "p1" "p1.csv"
>   load  product p2   p2.csv
> load product "p ""2""" p2.csv
> plan product p3 p3.csv
> load product p3 p3.csv
> report product.brand was 2024-01-01 2024-12-31
> dump profile
> check
= accepted 2 p1: 1 records, 0 placeholders
= status 0
= already 2 p1: 1 records, 0 placeholders
= status 0
= accepted 3 p2: 1 records, 0 placeholders
= status 0
= refused: E1 bad id
= status 2
= put command 4
= put change 4 1
= put product 1
= remove product 3
= put product 4
= edits 5
= status 0
= accepted 4 p3: 1 records, 0 placeholders
= status 0
= report product.brand was 2024-01-01 2024-12-31
=    lines   quantity         amount           cost         margin  label
=        0          0           0.00           0.00           0.00  total
= status 0
= number,v1,v2,v3,v4,v5,v6
= 0,,(no card),(no card),,,
= 1,,(unknown),(unknown),,,
= status 0
= clean
= status 0

# It holds what the same commands leave one by one.
run load w product p3 p3.csv
= already 4 p3: 1 records, 0 placeholders

# What is no command, and what no session answers.
session w
> "status
> sta"tus"
> "status"x
> nothing
> status other
> session
> load product p9 none.csv
> load shelf s1 s1.csv
> status
= error: a line is at most 65536 bytes of UTF-8, and a word with blanks or double quotes in it stands in double quotes, each of its own doubled
=
= Usage: <COMMAND>, as in `wh help`, without FILE
= status 4
= error: a line is at most 65536 bytes of UTF-8, and a word with blanks or double quotes in it stands in double quotes, each of its own doubled
=
= Usage: <COMMAND>, as in `wh help`, without FILE
= status 4
= error: a line is at most 65536 bytes of UTF-8, and a word with blanks or double quotes in it stands in double quotes, each of its own doubled
=
= Usage: <COMMAND>, as in `wh help`, without FILE
= status 4
= error: unrecognized subcommand 'nothing'
=
= Usage: wh <COMMAND>
=
= For more information, try '--help'.
= status 4
= error: unexpected argument 'other' found
=
= Usage: wh status <FILE>
=
= For more information, try '--help'.
= status 4
= refused: G5 session
= status 2
= failed: F1 file, none.csv
= status 3
= error: KIND is 'shelf', and none of product, store, customer, sales and void
= status 4
= format 1
= commands 4
= changes 3
= facts 0
= members product 1 store 0 customer 0
= status 0

scenario a trial and the version are for no warehouse
session w
> --version
> trial product products.csv
= wh 1.0.0, reads warehouse formats 1 and 2
= status 0
= failed: F1 file, products.csv
= status 3

scenario a file's name is no warehouse's
session p1.csv
> status
> init policy.toml
= failed: F1 file, p1.csv
= status 3
= failed: F1 file, p1.csv
= status 3

scenario without a session its lines are not read
run session w
= refused: G5 session
"#;
