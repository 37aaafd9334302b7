//! The lines and the status of each answer about a warehouse.

pub const ALL: &str = "
scenario answers
# Receipts.
load s2 accepted 12 1 2
= accepted 12 s2: 1 records, 2 placeholders
load s2 already 12 1 2
= already 12 s2: 1 records, 2 placeholders
made
= accepted 1 init: 0 records, 0 placeholders

# Refusals.
load p1 BadId
= refused: E1 bad id
load p1 Reused
= refused: E2 id reused
load p1 BadDay 1
= refused: E3 batch, B5 bad day, record 1
load p1 LineThere 2
= refused: E6 line there, record 2
load v1 NoLine 3
= refused: E6 no line, record 3
load v1 NotInFormat 0
= refused: E3 batch, B10 not in format, record 0

# Full warehouses.
load p1 Full Commands
= refused: E6 full, commands
load p1 Full Changes
= refused: E6 full, changes
load p1 Full Facts
= refused: E6 full, facts

# Causes.
load p1 Store Memory
= failed: E9 store, memory
status Store Memory
= failed: E9 store, memory
load p1 Store Disk
= failed: E9 store, disk
status Store Disk
= failed: E9 store, disk
load p1 Store Size
= failed: E9 store, size
status Store Size
= failed: E9 store, size
load p1 Store Interrupted
= failed: E9 store, interrupted
status Store Interrupted
= failed: E9 store, interrupted

# A policy.
load m1 BadYears
= refused: E4 policy, P10 bad years
load m1 Unfit
= refused: E5 policy does not fit

# An upgrade.
load u1 Upgraded
= refused: E6 format, 2
load u1 NameTaken
= refused: E11 not empty

# Failures.
load p1 Damaged command
= failed: E7 damaged, command
status Damaged command
= failed: E7 damaged, command
load p1 Reopen
= failed: E10 reopen
status Reopen
= failed: E10 reopen
load p1 Memory
= failed: E8 memory

# No making.
making BadYears
= refused: E4 policy, P10 bad years
making NotEmpty
= refused: E11 not empty
making Store Disk
= failed: E9 store, disk
making Memory
= failed: E8 memory

# No opening.
opening NotAWarehouse
= failed: N1 not a warehouse
opening OldFormat
= failed: N2 old format
opening NewFormat
= failed: N3 new format
opening Damaged meta
= failed: E7 damaged, meta
opening Store Size
= failed: E9 store, size
opening Memory
= no answer

# Counts.
counts 1 20 13 4 2 1 3
= format 1
= commands 20
= changes 13
= facts 4
= members product 2 store 1 customer 3
";
