//! Checks of a warehouse's file whose rows of the command table somebody changed, after the shop and its night.

pub const ALL: &str = r#"
scenario rows of the command table
# A receipt that says more.
changed w UPDATE command SET records = 2 WHERE number = 3
> UPDATE command SET records = 1 WHERE number = 3
= wrong: command
changed w UPDATE command SET placeholders = 2 WHERE number = 5
> UPDATE command SET placeholders = 1 WHERE number = 5
= wrong: command

# Another letter in a batch that is kept: the commands are others, and good ones.
changed w UPDATE command SET bytes = X'69642C6461792C6465736372697074696F6E2C6272616E642C63617465676F72792C6465706172746D656E742C6C61756E636865642C737570706C6965720A50312C323032342D30322D30312C436F6C6120316C2C426F6C752C4472696E6B732C47726F636572792C323031392C4E6F7274680A' WHERE number = 4
> UPDATE command SET bytes = X'69642C6461792C6465736372697074696F6E2C6272616E642C63617465676F72792C6465706172746D656E742C6C61756E636865642C737570706C6965720A50312C323032342D30322D30312C436F6C6120316C2C426F6C742C4472696E6B732C47726F636572792C323031392C4E6F7274680A' WHERE number = 4
= wrong: change

# Bytes that are none of a batch, that are the bytes of another kind, and that are a text.
changed w UPDATE command SET bytes = X'' WHERE number = 4
> UPDATE command SET bytes = X'69642C6461792C6465736372697074696F6E2C6272616E642C63617465676F72792C6465706172746D656E742C6C61756E636865642C737570706C6965720A50312C323032342D30322D30312C436F6C6120316C2C426F6C742C4472696E6B732C47726F636572792C323031392C4E6F7274680A' WHERE number = 4
= wrong: command
changed w UPDATE command SET kind = 'store' WHERE number = 4
> UPDATE command SET kind = 'product' WHERE number = 4
= wrong: command
changed w UPDATE command SET bytes = 'text' WHERE number = 4
> UPDATE command SET bytes = X'69642C6461792C6465736372697074696F6E2C6272616E642C63617465676F72792C6465706172746D656E742C6C61756E636865642C737570706C6965720A50312C323032342D30322D30312C436F6C6120316C2C426F6C742C4472696E6B732C47726F636572792C323031392C4E6F7274680A' WHERE number = 4
= failed: E7 damaged, command

# The ids of two commands exchanged: these are good commands too, with the same tables.
changed w UPDATE command SET id = 'x' WHERE number = 3; UPDATE command SET id = 'p1' WHERE number = 4; UPDATE command SET id = 'p2' WHERE number = 3
> UPDATE command SET id = 'x' WHERE number = 3; UPDATE command SET id = 'p2' WHERE number = 4; UPDATE command SET id = 'p1' WHERE number = 3
= clean

# An id that is none.
changed w UPDATE command SET id = 'p 1' WHERE number = 3
> UPDATE command SET id = 'p1' WHERE number = 3
= failed: E7 damaged, command

# A gap, and a damaged row after it.
sql w DELETE FROM command WHERE number = 2
run check w
= wrong: command
changed w UPDATE command SET kind = 'batch' WHERE number = 7
> UPDATE command SET kind = 'product' WHERE number = 7
= failed: E7 damaged, command
sql w INSERT INTO command VALUES (2, 'p0', 'product', X'69642C6461792C6465736372697074696F6E2C6272616E642C63617465676F72792C6465706172746D656E742C6C61756E636865642C737570706C6965720A', 0, 0)
run check w
= clean

# A making that is none, and one more.
changed w UPDATE command SET kind = 'migrate' WHERE number = 1
> UPDATE command SET kind = 'init' WHERE number = 1
= wrong: command
changed w UPDATE command SET kind = 'init' WHERE number = 16
> UPDATE command SET kind = 'migrate' WHERE number = 16
= wrong: command
changed w UPDATE command SET records = 1 WHERE number = 1
> UPDATE command SET records = 0 WHERE number = 1
= wrong: command
run check w
= clean

# Without the last command the list is a good one, of another member.
sql w DELETE FROM command WHERE number = 20
run check w
= wrong: member

# A policy that can't be read is met by the check, and the one in force by the opening.
sql w UPDATE command SET bytes = X'' WHERE number = 1
run check w
= wrong: command
sql w UPDATE command SET bytes = X'' WHERE number = 16
run check w
= wrong: command
sql w UPDATE command SET bytes = X'' WHERE number = 17
run check w
= failed: E7 damaged, command

# Without any command no policy is in force.
sql w DELETE FROM command
run check w
= failed: E7 damaged, command
"#;
