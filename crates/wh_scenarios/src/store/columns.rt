//! Values out of their types, values at their edges, and columns that are missing.

pub const ALL: &str = "
# The answer is how many values were tried: each is read if it is good, and else answered as damaged.
scenario columns of the small tables
# Values: 10 of number_key, 14 of id, 17 of kind, 10 of bytes, 2 times 14 of number.
columns command (7, 'c-7', 'sales', x'00ff', 3, 1)
> number number_key
> id id
> kind kind
> bytes bytes
> records number
> placeholders number
= 79

# Values: 13 of dim, 2 times 14 of number, 19 of natural.
columns member (2, 5, 'S5', 8)
> dim dim
> durable number
> natural natural
> opening number
= 60

# Values: 4 times 14 of number, 13 of dim, 26 of day, 6 times 27 of slot.
columns change (7, 3, 2, 5, 20240229, 8, 'Bern', '(none)', '', '', '', '')
> command number
> record number
> dim dim
> durable number
> day day
> anchor number
>* v{1-6} slot
= 257

# Values: 10 of number_key, 6 times 27 of slot.
columns profile (2, '', '30-39', 'high', '', '', '')
> number number_key
>* v{1-6} slot
= 172

# The answer is how many values were tried: each is read if it is good, and else answered as damaged.
scenario columns of the dimensions
# Values: 10 of number_key, 2 times 14 of number, 19 of natural, 2 times 26 of day, 11 of flag, 12 times 27 of slot.
columns product (3, 1, 'P1', 20240201, 99991231, 1, 'Cola', '(none)', '', '', '', '', '', '', '', '', '', '', 0)
> surrogate number_key
> durable number
> natural natural
> from_day day
> to_day day
> is_current flag
>* a{1-6} slot
>* b{1-6} slot
> profile_now number
= 444

# Values: 10 of number_key, 2 times 14 of number, 19 of natural, 2 times 26 of day, 11 of flag, 12 times 27 of slot.
columns store (3, 1, 'P1', 20240201, 99991231, 1, 'Cola', '(none)', '', '', '', '', '', '', '', '', '', '', 0)
> surrogate number_key
> durable number
> natural natural
> from_day day
> to_day day
> is_current flag
>* a{1-6} slot
>* b{1-6} slot
> profile_now number
= 444

# Values: 10 of number_key, 2 times 14 of number, 19 of natural, 2 times 26 of day, 11 of flag, 12 times 27 of slot.
columns customer (3, 1, 'P1', 20240201, 99991231, 1, 'Cola', '(none)', '', '', '', '', '', '', '', '', '', '', 0)
> surrogate number_key
> durable number
> natural natural
> from_day day
> to_day day
> is_current flag
>* a{1-6} slot
>* b{1-6} slot
> profile_now number
= 444

# Only the customer's row of no card, whose surrogate key is 0, is called `(no card)`.
columns customer (0, 0, 'C1', 19000101, 99991231, 1, '(no card)', '', '', '', '', '', '', '', '', '', '', '', 0)
> natural no_card
= 1
columns product (0, 0, 'C1', 19000101, 99991231, 1, '(no card)', '', '', '', '', '', '', '', '', '', '', '', 0)
> natural not_no_card
= 1
columns store (0, 0, 'C1', 19000101, 99991231, 1, '(no card)', '', '', '', '', '', '', '', '', '', '', '', 0)
> natural not_no_card
= 1

# The answer is how many values were tried: each is read if it is good, and else answered as damaged.
scenario columns of calendar and fact
# Values: 15 of day_key, 3 times 10 of any_text, 6 times 11 of any_number, 11 of flag.
columns calendar (20240229, '2024-02-29', 2024, 1, 2, 29, 60, 4, 'Thursday', 0, '(none)')
> date_key day_key
> iso any_text
> year any_number
> quarter any_number
> month any_number
> day any_number
> day_of_year any_number
> weekday any_number
> weekday_name any_text
> weekend flag
> holiday any_text
= 122

# Values: 14 of ticket, 12 of line, 26 of day, 7 times 14 of number, 12 of quantity, 2 times 14 of amount.
columns fact ('T1', 1, 20240610, 1, 9, 1, 1, 2, 1, 1, -1, 1000, 700)
> ticket ticket
> line line
> day day
> store_key number
> product_key number
> customer_key number
> store_durable number
> product_durable number
> customer_durable number
> profile number
> quantity quantity
> amount amount
> cost amount
= 190

# Without each of its columns no warehouse is found, so often as a table has columns, and with all of them one is.
scenario each column is missed
# How many columns a table has: without each in turn there is no warehouse.
missed meta name value
= 2
= whole
missed command number id kind bytes records placeholders
= 6
= whole
missed member dim durable natural opening
= 4
= whole
missed profile number v1 v2 v3 v4 v5 v6
= 7
= whole
missed change command record dim durable day anchor v1 v2 v3 v4 v5 v6
= 12
= whole
missed product surrogate durable natural from_day to_day is_current a1 a2 a3 a4 a5 a6 b1 b2 b3 b4 b5 b6 profile_now
= 19
= whole
missed store surrogate durable natural from_day to_day is_current a1 a2 a3 a4 a5 a6 b1 b2 b3 b4 b5 b6 profile_now
= 19
= whole
missed customer surrogate durable natural from_day to_day is_current a1 a2 a3 a4 a5 a6 b1 b2 b3 b4 b5 b6 profile_now
= 19
= whole
missed calendar date_key iso year quarter month day day_of_year weekday weekday_name weekend holiday
= 11
= whole
missed fact ticket line day store_key product_key customer_key store_durable product_durable customer_durable profile quantity amount cost
= 13
= whole

scenario rows of meta
# Meta with bad values.
opens INSERT INTO meta VALUES (x'6e', 1)
= opened
length meta
= damaged meta
opens INSERT INTO meta VALUES (CAST(x'ff' AS TEXT), 1)
= opened
length meta
= damaged meta
opens INSERT INTO meta VALUES ('other', 'one')
= opened
length meta
= damaged meta
opens INSERT INTO meta VALUES ('other', '')
= opened
length meta
= damaged meta
opens INSERT INTO meta VALUES ('other', 1.5)
= opened
length meta
= damaged meta
opens INSERT INTO meta VALUES ('other', x'31')
= opened
length meta
= damaged meta

# Meta with values of another kind.
opens DROP TABLE meta; CREATE TABLE meta (name, value); INSERT INTO meta VALUES ('format', 1), (5, 1)
= opened
length meta
= damaged meta
opens DROP TABLE meta; CREATE TABLE meta (name, value); INSERT INTO meta VALUES ('format', 1), (NULL, 1)
= opened
length meta
= damaged meta
opens DROP TABLE meta; CREATE TABLE meta (name, value); INSERT INTO meta VALUES ('format', 1), ('other', '1')
= opened
length meta
= damaged meta
opens DROP TABLE meta; CREATE TABLE meta (name, value); INSERT INTO meta VALUES ('format', 1), ('other', NULL)
= opened
length meta
= damaged meta

# Meta with good values.
# Two beside the format and the three limits.
opens INSERT INTO meta VALUES ('', -9223372036854775808), ('Any, (é)', 9223372036854775807)
= opened
length meta
= 6

scenario limits in meta
# Neither a missing number is a limit, nor one of these.
opens DELETE FROM meta WHERE name = 'commands_max'
= opened
limits
= damaged meta
opens UPDATE meta SET value = 0 WHERE name = 'commands_max'
= opened
limits
= damaged meta
opens UPDATE meta SET value = -1 WHERE name = 'commands_max'
= opened
limits
= damaged meta
opens UPDATE meta SET value = 9223372036854775807 WHERE name = 'commands_max'
= opened
limits
= damaged meta
opens UPDATE meta SET value = 'ten' WHERE name = 'commands_max'
= opened
limits
= damaged meta
opens UPDATE meta SET value = 1.5 WHERE name = 'commands_max'
= opened
limits
= damaged meta
opens UPDATE meta SET value = x'31' WHERE name = 'commands_max'
= opened
limits
= damaged meta
opens UPDATE meta SET value = 100001 WHERE name = 'commands_max'
= opened
limits
= damaged meta
opens DELETE FROM meta WHERE name = 'changes_max'
= opened
limits
= damaged meta
opens UPDATE meta SET value = 0 WHERE name = 'changes_max'
= opened
limits
= damaged meta
opens UPDATE meta SET value = -1 WHERE name = 'changes_max'
= opened
limits
= damaged meta
opens UPDATE meta SET value = 9223372036854775807 WHERE name = 'changes_max'
= opened
limits
= damaged meta
opens UPDATE meta SET value = 'ten' WHERE name = 'changes_max'
= opened
limits
= damaged meta
opens UPDATE meta SET value = 1.5 WHERE name = 'changes_max'
= opened
limits
= damaged meta
opens UPDATE meta SET value = x'31' WHERE name = 'changes_max'
= opened
limits
= damaged meta
opens UPDATE meta SET value = 1000001 WHERE name = 'changes_max'
= opened
limits
= damaged meta
opens DELETE FROM meta WHERE name = 'facts_max'
= opened
limits
= damaged meta
opens UPDATE meta SET value = 0 WHERE name = 'facts_max'
= opened
limits
= damaged meta
opens UPDATE meta SET value = -1 WHERE name = 'facts_max'
= opened
limits
= damaged meta
opens UPDATE meta SET value = 9223372036854775807 WHERE name = 'facts_max'
= opened
limits
= damaged meta
opens UPDATE meta SET value = 'ten' WHERE name = 'facts_max'
= opened
limits
= damaged meta
opens UPDATE meta SET value = 1.5 WHERE name = 'facts_max'
= opened
limits
= damaged meta
opens UPDATE meta SET value = x'31' WHERE name = 'facts_max'
= opened
limits
= damaged meta
opens UPDATE meta SET value = 1000001 WHERE name = 'facts_max'
= opened
limits
= damaged meta

# Limits at their edges are read.
opens UPDATE meta SET value = 1
= opened
limits
= limits 1, 1, 1
opens UPDATE meta SET value = 100000 WHERE name = 'commands_max'; UPDATE meta SET value = 1000000 WHERE name = 'changes_max' OR name = 'facts_max'
= opened
limits
= limits 100000, 1000000, 1000000
";
