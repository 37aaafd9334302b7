//! Which databases are taken for a warehouse.

pub const ALL: &str = "
scenario which databases are warehouses
# The format.
opens UPDATE meta SET value = 1 WHERE name = 'format'
= opened
opens UPDATE meta SET value = 0 WHERE name = 'format'
= old format
opens UPDATE meta SET value = -1 WHERE name = 'format'
= old format
opens UPDATE meta SET value = -9223372036854775808 WHERE name = 'format'
= old format
opens UPDATE meta SET value = 2 WHERE name = 'format'
= no warehouse
opens UPDATE meta SET value = 3 WHERE name = 'format'
= new format
opens UPDATE meta SET value = 9223372036854775807 WHERE name = 'format'
= new format
opens UPDATE meta SET value = 'one' WHERE name = 'format'
= damaged meta
opens UPDATE meta SET value = 1.5 WHERE name = 'format'
= damaged meta
opens UPDATE meta SET value = x'01' WHERE name = 'format'
= damaged meta
opens DELETE FROM meta WHERE name = 'format'
= no warehouse
opens UPDATE meta SET name = 'Format' WHERE name = 'format'
= no warehouse

# The second format, and names of it that somebody else took.
opens
= opened
format
= first, free
second
format
= second, taken
opens CREATE TABLE fact2 (x)
= opened
format
= first, taken
opens CREATE VIEW void AS SELECT * FROM fact
= opened
format
= first, taken
opens CREATE TABLE fact2 (ticket, line, day, store_key, product_key, customer_key, store_durable, product_durable, customer_durable, profile, quantity, amount, cost, discount); CREATE TABLE void (ticket, line, command); UPDATE meta SET value = 2 WHERE name = 'format'
= opened
format
= second, taken
opens CREATE TABLE fact2 (ticket, line); CREATE TABLE void (ticket, line, command); UPDATE meta SET value = 2 WHERE name = 'format'
= no warehouse

# Inside a transaction.
opens BEGIN
= refused disk

# An empty database.
empty
open
= no warehouse

# Other tables beside the ten.
opens CREATE TABLE notes (x); CREATE INDEX a ON fact (day)
= opened

# The connection that is handed back is as it was.
opens DROP TABLE fact
= no warehouse
# 200 and 10 and 3000, the limits, and 1, the format.
number SELECT sum(value) FROM meta
= 3211

# Each table is missed.
opens DROP TABLE meta
= no warehouse
opens DROP TABLE command
= no warehouse
opens DROP TABLE member
= no warehouse
opens DROP TABLE change
= no warehouse
opens DROP TABLE product
= no warehouse
opens DROP TABLE store
= no warehouse
opens DROP TABLE customer
= no warehouse
opens DROP TABLE profile
= no warehouse
opens DROP TABLE calendar
= no warehouse
opens DROP TABLE fact
= no warehouse

# A view is no table.
opens DROP TABLE profile; CREATE TABLE other (number, v1, v2, v3, v4, v5, v6); CREATE VIEW profile AS SELECT * FROM other
= no warehouse
";
