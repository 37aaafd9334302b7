//! Reports and dumps that are refused, and the words' help.

pub const ALL: &str = r#"
# Bands of customers of the other type.
policy four.toml name = "tier"|type = 2->name = "tier"|type = 2|[[customer]]|name = "age_band"|type = 4|[[customer]]|name = "spend_band"|type = 4

scenario what can't be asked for
ends 0 init w policy.toml
ends 0 init v four.toml

# No such attribute: another name, one of another dimension, none, and words that name no dimension.
each report w
> product.colour was 2023-01-01 2026-12-31
> product.city was 2023-01-01 2026-12-31
> store.brand was 2023-01-01 2026-12-31
> customer.brand was 2023-01-01 2026-12-31
> date.year was 2023-01-01 2026-12-31
> date.day was 2023-01-01 2026-12-31
> date was 2023-01-01 2026-12-31
> product was 2023-01-01 2026-12-31
> product. was 2023-01-01 2026-12-31
> .brand was 2023-01-01 2026-12-31
> brand was 2023-01-01 2026-12-31
> Product.brand was 2023-01-01 2026-12-31
> product.Brand was 2023-01-01 2026-12-31
> product.brand.x was 2023-01-01 2026-12-31
> product..brand was 2023-01-01 2026-12-31
> product,brand was 2023-01-01 2026-12-31
> calendar.month was 2023-01-01 2026-12-31
> date.months was 2023-01-01 2026-12-31
= refused: G1 no attribute
run report w
>
> was
> 2023-01-01
> 2026-12-31
= refused: G1 no attribute
run report w
>  product.brand
> was
> 2023-01-01
> 2026-12-31
= refused: G1 no attribute
run report w
> product. brand
> was
> 2023-01-01
> 2026-12-31
= refused: G1 no attribute

# No reading, by the type of the attribute and the mode.
run report w product.launched prior 2023-01-01 2026-12-31
= refused: G2 no reading, type 0 prior
run report w product.description prior 2023-01-01 2026-12-31
= refused: G2 no reading, type 1 prior
run report w product.brand is 2023-01-01 2026-12-31
= refused: G2 no reading, type 2 is
run report w product.brand prior 2023-01-01 2026-12-31
= refused: G2 no reading, type 2 prior
run report w product.supplier was 2023-01-01 2026-12-31
= refused: G2 no reading, type 3 was
run report w customer.age_band prior 2023-01-01 2026-12-31
= refused: G2 no reading, type 5 prior
run report w product.category prior 2023-01-01 2026-12-31
= refused: G2 no reading, type 6 prior
run report w product.department prior 2023-01-01 2026-12-31
= refused: G2 no reading, type 7 prior
run report w store.city is 2023-01-01 2026-12-31
= refused: G2 no reading, type 2 is
run report w customer.tier prior 2023-01-01 2026-12-31
= refused: G2 no reading, type 2 prior
run report v customer.spend_band is 2023-01-01 2026-12-31
= refused: G2 no reading, type 4 is
run report v customer.spend_band prior 2023-01-01 2026-12-31
= refused: G2 no reading, type 4 prior
run report w date.month prior 2023-01-01 2026-12-31
= refused: G2 no reading, date prior
run report w date.holiday prior 2023-01-01 2026-12-31
= refused: G2 no reading, date prior

# No range: what is no day, a day before the first, and a range that ends before it begins.
each report w product.brand was
> 2024-02-30 2024-12-31
> 2024-01-01 2023-02-29
> 2024-1-1 2024-12-31
> 20240101 2024-12-31
> 2024-01-01 2024-13-01
> 1899-12-31 2024-12-31
> 2024-01-02 2024-01-01
> 9999-12-31 1900-01-01
> today 2024-12-31
= refused: G3 bad range
run report w
> product.brand
> was
>
> 2024-12-31
= refused: G3 bad range
run report w
> product.brand
> was
> 2024-01-01
>
= refused: G3 bad range
run report w
> product.brand
> was
>  2024-01-01
> 2024-12-31
= refused: G3 bad range

# The first fault is told: the attribute, then its reading, then the range.
run report w product.colour prior 2024-02-30 2023-01-01
= refused: G1 no attribute
run report w product.brand is 2024-02-30 2023-01-01
= refused: G2 no reading, type 2 is
run report w date.month prior 2024-01-02 2024-01-01
= refused: G2 no reading, date prior
run report w date.week prior 2024-01-02 2024-01-01
= refused: G1 no attribute

# The policy in force tells it: a newer one has another type of the brand.
run report w product.brand is 2023-01-01 2026-12-31
= refused: G2 no reading, type 2 is
run migrate w m1 m1.toml
= accepted 2 m1: 0 records, 0 placeholders
report w product.brand is 2023-01-01 2026-12-31
=    lines   quantity         amount           cost         margin  label
=        0          0           0.00           0.00           0.00  total
run report w product.brand prior 2023-01-01 2026-12-31
= refused: G2 no reading, type 1 prior

# Where nothing is, nothing is made, whatever is asked for; a file is not connected.
run report x product.brand was 2023-01-01 2026-12-31
= failed: N1 not a warehouse
run report x product.colour prior 2024-02-30 2023-01-01
= failed: N1 not a warehouse
run dump x product
= failed: N1 not a warehouse
run dump x meta
= failed: N1 not a warehouse
stands x
= no
run report p1.csv product.brand was 2023-01-01 2026-12-31
= failed: F1 file, p1.csv
run dump p1.csv product
= failed: F1 file, p1.csv

# Nine tables are no warehouse, and other formats are refused.
sql v DROP TABLE profile
run report v product.brand was 2023-01-01 2026-12-31
= failed: N1 not a warehouse
run dump v product
= failed: N1 not a warehouse
sql w UPDATE meta SET value = 0 WHERE name = 'format'
run report w product.brand was 2023-01-01 2026-12-31
= failed: N2 old format
run dump w product
= failed: N2 old format
sql w UPDATE meta SET value = 3 WHERE name = 'format'
run report w product.brand was 2023-01-01 2026-12-31
= failed: N3 new format
run dump w product
= failed: N3 new format
sql w UPDATE meta SET value = 'one' WHERE name = 'format'
run report w product.brand was 2023-01-01 2026-12-31
= failed: E7 damaged, meta
run dump w product
= failed: E7 damaged, meta

scenario words that are none: of a mode, of a table, too few and too many
run report w product.brand now 2023-01-01 2026-12-31
= error: MODE is 'now', and none of was, is and prior
run report w product.brand Was 2023-01-01 2026-12-31
= error: MODE is 'Was', and none of was, is and prior
ends 4 report w product.brand was
ends 4 report w product.brand was 2023-01-01
ends 4 report w product.brand was 2023-01-01 2026-12-31 more
ends 4 report w
ends 4 report
ends 4 dump w
ends 4 dump
run dump w products
= error: TABLE is 'products', and none of meta, command, member, change, product, store, customer, profile, calendar, fact, fact2 and void
ends 4 dump w Product
ends 4 dump w sales
ends 4 dump w date
ends 4 dump w facts
ends 4 dump w product more
ends 4 dump x none
ends 4 report x product.brand then 2023-01-01 2026-12-31
ends 4 report
> w
> product.brand
>
> 2023-01-01
> 2026-12-31
run dump w
>
= error: TABLE is '', and none of meta, command, member, change, product, store, customer, profile, calendar, fact, fact2 and void
stands x
= no
ends 0 report --help
ends 0 help report
ends 0 dump --help
ends 0 help dump
"#;
