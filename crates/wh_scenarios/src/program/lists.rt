//! Lists of reports, over a warehouse of three commands of the shop.

pub const ALL: &str = r#"
scenario reports, what is refused, and what stops the list
file two.csv
> product.brand,was,2023-01-01,2026-12-31
> date.month,is,2024-01-01,2024-12-31
file none.csv
run init w policy.toml
= accepted 1 init: 0 records, 0 placeholders
run load w product p1 p1.csv
= accepted 2 p1: 1 records, 0 placeholders
run load w product p2 p2.csv
= accepted 3 p2: 1 records, 0 placeholders
run load w sales s1 s1.csv
= accepted 4 s1: 2 records, 1 placeholders

# With an empty line between two; each is what the words of a report print.
run reports w two.csv
= report product.brand was 2023-01-01 2026-12-31
=    lines   quantity         amount           cost         margin  label
=        1          1           2.50           1.60           0.90  Acme
=        1          2           5.00           3.20           1.80  Bolt
=        2          3           7.50           4.80           2.70  total
=
= report date.month is 2024-01-01 2024-12-31
=    lines   quantity         amount           cost         margin  label
=        1          2           5.00           3.20           1.80  2024-02
=        1          2           5.00           3.20           1.80  total
report w product.brand was 2023-01-01 2026-12-31
=    lines   quantity         amount           cost         margin  label
=        1          1           2.50           1.60           0.90  Acme
=        1          2           5.00           3.20           1.80  Bolt
=        2          3           7.50           4.80           2.70  total
report w date.month is 2024-01-01 2024-12-31
=    lines   quantity         amount           cost         margin  label
=        1          2           5.00           3.20           1.80  2024-02
=        1          2           5.00           3.20           1.80  total

# The line of a report that is refused stands in its place, and those behind it are answered too.
file refused.csv
> product.supplier,prior,2023-01-01,2023-12-31
> product.colour,was,2023-01-01,2026-12-31
> product.brand,once,2023-01-01,2026-12-31
> product.brand,is,2023-01-01,2026-12-31
> product.brand,was,2026-12-31,2023-01-01
> ,,,
> store.city,was,2024-02-05,2024-02-05
run reports w refused.csv
= report product.supplier prior 2023-01-01 2023-12-31
=    lines   quantity         amount           cost         margin  label
=        1          1           2.50           1.60           0.90  (none)
=        1          1           2.50           1.60           0.90  total
=
= refused: G1 no attribute
=
= error: MODE is 'once', and none of was, is and prior
=
= refused: G2 no reading, type 2 is
=
= refused: G3 bad range
=
= error: MODE is '', and none of was, is and prior
=
= report store.city was 2024-02-05 2024-02-05
=    lines   quantity         amount           cost         margin  label
=        1          2           5.00           3.20           1.80  (unknown)
=        1          2           5.00           3.20           1.80  total
= status 2

# One alone has no empty line, and no report prints nothing.
file one.csv
> product.brand,Was,2023-01-01,2026-12-31
run reports w one.csv
= error: MODE is 'Was', and none of was, is and prior
= status 2
run reports w none.csv

# A bad list is refused whole, before the warehouse is opened.
file bad.csv
> product.brand,was,2023-01-01,2026-12-31
> product.brand,was,2023-01-01
> product.brand
run reports w bad.csv
= refused: M1 bad manifest, record 2
bytes five.csv product.brand,was,2023-01-01,2026-12-31,\n
run reports w five.csv
= refused: M1 bad manifest, record 1
bytes text.csv product.brand,was,2023-01-01,2026-12-31\n\nproduct.brand,was,2023-01-01,\xFF\n
run reports x text.csv
= refused: M1 bad manifest, record 2
run reports x gone.csv
= failed: F1 file, gone.csv
run reports p1.csv bad.csv
= refused: M1 bad manifest, record 2

# No warehouse, with reports and without; none is made.
run reports x two.csv
= failed: N1 not a warehouse
run reports x none.csv
= failed: N1 not a warehouse
stands x
= no
run reports p1.csv two.csv
= failed: F1 file, p1.csv

# What stops the list is told in the place of the report that met it, and nothing behind it.
sql w UPDATE product SET from_day = 20240332
file stopped.csv
> product.colour,was,2023-01-01,2026-12-31
> date.month,is,2024-01-01,2024-12-31
> product.brand,was,2023-01-01,2026-12-31
> date.month,is,2024-01-01,2024-12-31
run reports w stopped.csv
= refused: G1 no attribute
=
= report date.month is 2024-01-01 2024-12-31
=    lines   quantity         amount           cost         margin  label
=        1          2           5.00           3.20           1.80  2024-02
=        1          2           5.00           3.20           1.80  total
=
= failed: E7 damaged, product

scenario words that are too few or too many
ends 4 reports w
ends 4 reports w two.csv one.csv
"#;
