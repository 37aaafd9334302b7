//! Checks of a warehouse's file, whose rows somebody changed, after the shop and its night. `checked_commands` has those of commands.

pub const ALL: &str = r#"
scenario rows of the night's warehouse
# A row of each table, and two of them.

# Meta has a fifth row, one whose name is no text, and one whose value is no number.
changed w INSERT INTO meta VALUES ('colour', 1)
> DELETE FROM meta WHERE name = 'colour'
= wrong: meta
changed w INSERT INTO meta VALUES (X'41', 1)
> DELETE FROM meta WHERE name = X'41'
= failed: E7 damaged, meta
changed w INSERT INTO meta VALUES ('colour', 'red')
> DELETE FROM meta WHERE name = 'colour'
= failed: E7 damaged, meta

# A limit that the commands keep is a limit; others are passed.
sql w UPDATE meta SET value = 99999 WHERE name = 'commands_max'
run check w
= clean
changed w UPDATE meta SET value = 19 WHERE name = 'commands_max'
> UPDATE meta SET value = 100000 WHERE name = 'commands_max'
= wrong: command
changed w UPDATE meta SET value = 12 WHERE name = 'changes_max'
> UPDATE meta SET value = 1000000 WHERE name = 'changes_max'
= wrong: command
changed w UPDATE meta SET value = 3 WHERE name = 'facts_max'
> UPDATE meta SET value = 1000000 WHERE name = 'facts_max'
= wrong: command

# What keeps a file from being opened is said by the opening: a limit that is gone, and another format.
changed w UPDATE meta SET name = 'bhanges_max' WHERE name = 'changes_max'
> UPDATE meta SET name = 'changes_max' WHERE name = 'bhanges_max'
= failed: E7 damaged, meta
changed w UPDATE meta SET value = 3 WHERE name = 'format'
> UPDATE meta SET value = 1 WHERE name = 'format'
= failed: N3 new format
run check w
= clean

# Members: another opening, a key that is none, one that is gone, and one more.
changed w UPDATE member SET opening = 2 WHERE dim = 2
> UPDATE member SET opening = 1 WHERE dim = 2
= wrong: member
changed w UPDATE member SET natural = 'S 1' WHERE dim = 2
> UPDATE member SET natural = 'S1' WHERE dim = 2
= failed: E7 damaged, member
changed w DELETE FROM member WHERE dim = 3 AND durable = 2
> INSERT INTO member VALUES (3, 2, 'C8', 4)
= wrong: member
changed w INSERT INTO member VALUES (2, 2, 'S2', 2)
> DELETE FROM member WHERE dim = 2 AND durable = 2
= wrong: member

# Records of dimensions: a value, a day, and one that is gone.
changed w UPDATE change SET v2 = 'Bolu' WHERE command = 6
> UPDATE change SET v2 = 'Bolt' WHERE command = 6
= wrong: change
changed w UPDATE change SET day = 20240632 WHERE command = 14
> UPDATE change SET day = 20240608 WHERE command = 14
= failed: E7 damaged, change
changed w DELETE FROM change WHERE command = 6
> INSERT INTO change VALUES (6, 1, 1, 1, 20240120, 4, 'Cola 1l', 'Bolt', 'Drinks', 'Grocery', '2019', 'North')
= wrong: change

# Rows of dimensions: a day too early, a day that is none, a row too many, and the row of sales without a card gone.
changed w UPDATE product SET to_day = 20240330 WHERE surrogate = 3
> UPDATE product SET to_day = 20240331 WHERE surrogate = 3
= wrong: product
changed w UPDATE product SET to_day = 20240332 WHERE surrogate = 3
> UPDATE product SET to_day = 20240331 WHERE surrogate = 3
= failed: E7 damaged, product
changed w INSERT INTO store VALUES (7, 1, 'S1', 19000101, 99991231, 1, '(unknown)', '', '', '', '', '', '', '', '', '', '', '', 0)
> DELETE FROM store WHERE surrogate = 7
= wrong: store
changed w UPDATE store SET durable = 'one'
> UPDATE store SET durable = 1
= failed: E7 damaged, store
changed w UPDATE customer SET profile_now = 2 WHERE surrogate = 1
> UPDATE customer SET profile_now = 3 WHERE surrogate = 1
= wrong: customer
changed w DELETE FROM customer WHERE surrogate = 0
> INSERT INTO customer VALUES (0, 0, '(no card)', 19000101, 99991231, 1, '(no card)', '', '', '', '', '', '', '', '', '', '', '', 0)
= wrong: customer
run check w
= clean

# Profiles, the calendar and facts.
changed w UPDATE profile SET v2 = '30-38' WHERE number = 2
> UPDATE profile SET v2 = '30-39' WHERE number = 2
= wrong: profile
changed w UPDATE profile SET v2 = '(other)' WHERE number = 2
> UPDATE profile SET v2 = '30-39' WHERE number = 2
= failed: E7 damaged, profile
changed w UPDATE calendar SET holiday = '(none)' WHERE date_key = 20241225
> UPDATE calendar SET holiday = 'Christmas Day' WHERE date_key = 20241225
= wrong: calendar
changed w UPDATE calendar SET weekend = 2 WHERE date_key = 20241225
> UPDATE calendar SET weekend = 0 WHERE date_key = 20241225
= failed: E7 damaged, calendar
changed w UPDATE fact SET product_key = 4 WHERE ticket = 'T1'
> UPDATE fact SET product_key = 3 WHERE ticket = 'T1'
= wrong: fact
changed w UPDATE fact SET cost = 161 WHERE ticket = 'T0'
> UPDATE fact SET cost = 160 WHERE ticket = 'T0'
= wrong: fact
changed w UPDATE fact SET quantity = 10000 WHERE ticket = 'T0'
> UPDATE fact SET quantity = 1 WHERE ticket = 'T0'
= failed: E7 damaged, fact
changed w DELETE FROM fact WHERE ticket = 'T2'
> INSERT INTO fact VALUES ('T2', 1, 20240610, 1, 9, 1, 1, 2, 1, 2, 1, 1000, 700)
= wrong: fact
run check w
= clean

# Of two tables the first is named, also where a later one is damaged. In one table a damaged row is named, wherever it stands.
sql w DELETE FROM profile WHERE number = 3; UPDATE fact SET product_key = 4 WHERE ticket = 'T1'
run check w
= wrong: profile
sql w UPDATE fact SET day = 'today' WHERE ticket = 'T4'
run check w
= wrong: profile
sql w INSERT INTO profile VALUES (3, '', '40-49', 'high', '', '', '')
run check w
= failed: E7 damaged, fact
sql w UPDATE fact SET day = 20240229 WHERE ticket = 'T4'; UPDATE fact SET product_key = 3 WHERE ticket = 'T1'
changed w UPDATE fact SET day = 'today' WHERE ticket = 'T0'; UPDATE fact SET product_key = 4 WHERE ticket = 'T1'
> UPDATE fact SET day = 20231231 WHERE ticket = 'T0'; UPDATE fact SET product_key = 3 WHERE ticket = 'T1'
= failed: E7 damaged, fact
changed w UPDATE member SET opening = 2 WHERE dim = 2; DELETE FROM calendar WHERE date_key = 20240229
> UPDATE member SET opening = 1 WHERE dim = 2; INSERT INTO calendar VALUES (20240229, '2024-02-29', 2024, 1, 2, 29, 60, 4, 'Thursday', 0, '(none)')
= wrong: member

run check w
= clean

# All is as it was, and other words answer.
run status w
= format 1
= commands 20
= changes 13
= facts 4
= members product 2 store 1 customer 2

# What is no warehouse, and words that are none.
anew
run check x
= failed: N1 not a warehouse
stands x
= no
run check p1.csv
= failed: F1 file, p1.csv
ends 4 check
ends 4 check w x
ends 0 init w policy.toml
# The six bytes of a line `clean`.
breaks 5 check w
= 2 calls
= a beginning, and then failed: G4 write where it can be written, status 3
sql w DROP TABLE profile
run check w
= failed: N1 not a warehouse
"#;
