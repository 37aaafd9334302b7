//! Warehouses are made where the ten names are free.

pub const ALL: &str = "
scenario warehouses are made
# A warehouse with small limits, and opened again.
makes
= free
write
> make 10 200 3000
> commit
= 4 written
all meta
= meta name, value
= meta 'changes_max', 200
= meta 'commands_max', 10
= meta 'facts_max', 3000
= meta 'format', 1
limits
= limits 10, 200, 3000
close
open
= opened
all meta
= meta name, value
= meta 'changes_max', 200
= meta 'commands_max', 10
= meta 'facts_max', 3000
= meta 'format', 1
limits
= limits 10, 200, 3000
count fact
= 0

# One with the greatest.
makes
= free
write
> make 100000 1000000 1000000
> commit
= 4 written
limits
= limits 100000, 1000000, 1000000
all meta
= meta name, value
= meta 'changes_max', 1000000
= meta 'commands_max', 100000
= meta 'facts_max', 1000000
= meta 'format', 1

# The connection that is handed back is as it was.
makes CREATE TABLE fact (x); INSERT INTO fact VALUES (5), (6)
= not empty
number SELECT sum(x) FROM fact
= 11

# Other names may be there.
makes CREATE TABLE facts (meta, fact); CREATE INDEX fact_ ON facts (fact); CREATE VIEW products AS SELECT meta FROM facts
= free
makes
= free

# Inside a transaction.
makes BEGIN
= refused disk

scenario names that are taken
# No table may have one of the ten names.
makes CREATE TABLE meta (x)
= not empty
makes CREATE TABLE command (x)
= not empty
makes CREATE TABLE member (x)
= not empty
makes CREATE TABLE change (x)
= not empty
makes CREATE TABLE product (x)
= not empty
makes CREATE TABLE store (x)
= not empty
makes CREATE TABLE customer (x)
= not empty
makes CREATE TABLE profile (x)
= not empty
makes CREATE TABLE calendar (x)
= not empty
makes CREATE TABLE fact (x)
= not empty
makes CREATE TABLE META (x)
= not empty
makes CREATE TABLE Fact (x)
= not empty

# Nor may an index.
makes CREATE TABLE other (x); CREATE INDEX meta ON other (x)
= not empty
makes CREATE TABLE other (x); CREATE INDEX command ON other (x)
= not empty
makes CREATE TABLE other (x); CREATE INDEX member ON other (x)
= not empty
makes CREATE TABLE other (x); CREATE INDEX change ON other (x)
= not empty
makes CREATE TABLE other (x); CREATE INDEX product ON other (x)
= not empty
makes CREATE TABLE other (x); CREATE INDEX store ON other (x)
= not empty
makes CREATE TABLE other (x); CREATE INDEX customer ON other (x)
= not empty
makes CREATE TABLE other (x); CREATE INDEX profile ON other (x)
= not empty
makes CREATE TABLE other (x); CREATE INDEX calendar ON other (x)
= not empty
makes CREATE TABLE other (x); CREATE INDEX fact ON other (x)
= not empty
makes CREATE TABLE other (x); CREATE INDEX CALENDAR ON other (x)
= not empty

# Nor may a view.
makes CREATE TABLE other (x); CREATE VIEW meta AS SELECT x FROM other
= not empty
makes CREATE TABLE other (x); CREATE VIEW command AS SELECT x FROM other
= not empty
makes CREATE TABLE other (x); CREATE VIEW member AS SELECT x FROM other
= not empty
makes CREATE TABLE other (x); CREATE VIEW change AS SELECT x FROM other
= not empty
makes CREATE TABLE other (x); CREATE VIEW product AS SELECT x FROM other
= not empty
makes CREATE TABLE other (x); CREATE VIEW store AS SELECT x FROM other
= not empty
makes CREATE TABLE other (x); CREATE VIEW customer AS SELECT x FROM other
= not empty
makes CREATE TABLE other (x); CREATE VIEW profile AS SELECT x FROM other
= not empty
makes CREATE TABLE other (x); CREATE VIEW calendar AS SELECT x FROM other
= not empty
makes CREATE TABLE other (x); CREATE VIEW fact AS SELECT x FROM other
= not empty
makes CREATE TABLE other (x); CREATE VIEW Product AS SELECT x FROM other
= not empty
";
