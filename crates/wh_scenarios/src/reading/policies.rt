//! Policies: what is wrong with a file, and what a good one says.

pub const ALL: &str = r#"
# What good files say.
scenario contents of policies
slots flat product
= 6 Overwrite NewRow NewRowAndOverwrite DualKeys RetainOriginal NewAttribute
slots flat store
= 1 NewRow
slots flat customer
= 1 NewRow
slot flat product description
= 1 1
slot flat product brand
= 2 2
slot flat product category
= 3 6
slot flat product department
= 4 7
slot flat product launched
= 5 0
slot flat product supplier
= 6 3
slot flat store city
= 1 2
slot flat customer tier
= 1 2
slot flat product id
= none
slot flat store day
= none
slot flat store tier
= none
slot flat customer city
= none
slot flat product brands
= none
slot flat product
= none

calendar
= 2023 2026
= 20241225 Christmas Day
calendar [[holiday]]| -> [[holiday]]|day = "2024-01-01"|name = "New Year"|[[holiday]]|
= 2023 2026
= 20240101 New Year
= 20241225 Christmas Day
with [[holiday]]|day = "2024-12-25"|name = "Christmas Day"| ->
= good

slot trial product description
= 1 1
slot trial product brand
= 2 2
slot trial store city
= 1 2
slot trial customer tier
= 1 2
slots trial product
= 2 Overwrite NewRow

type 0
= RetainOriginal 0
type 1
= Overwrite 1
type 2
= NewRow 2
type 3
= NewAttribute 3
type 4
= MiniDimension 4
type 5
= MiniDimensionOutrigger 5
type 6
= NewRowAndOverwrite 6
type 7
= DualKeys 7
type 8
= none
type -1
= none

# Types and holidays may change, attributes and years may come; names stay in their slots.
fits
= fits, fits
fits type = 6 -> type = 1
= fits, fits
fits Christmas Day -> Christmas
= fits, fits
fits [[customer]]| -> [[store]]|name = "size"|type = 2|[[customer]]|
= fits, doesn't
fits first_year = 2023 -> first_year = 2022
= fits, doesn't
fits last_year = 2026 -> last_year = 2027
= fits, doesn't
fits "tier" -> "level"
= doesn't, doesn't
fits "city" -> "town"
= doesn't, doesn't
fits "supplier" -> "maker"
= doesn't, doesn't
fits "brand" -> "-" and "category" -> "brand" and "-" -> "category"
= doesn't, doesn't

# What is wrong with a file, one thing at a time.
scenario faults of policies
# A change of one line.
with type = 1 -> type = 8
= BadType
with type = 1 -> type = 4
= ProfileOutside
with last_year = 2026 -> last_year = 2053
= BadYears
with last_year = 2026 -> last_year = 2052
= good
with 2024-12-25 -> 2023-02-29
= BadHoliday

# A dimension's tables, and their attributes.
at
= product Missing
= store Missing
= customer Missing
at DIM = 1
= product Missing
= store Missing
= customer Missing
at DIM = []
= product Missing
= store Missing
= customer Missing
at DIM = [1]
= product Missing
= store Missing
= customer Missing
at [DIM]|name = 'size'|type = 2
= product Missing
= store Missing
= customer Missing
at [[DIM]]|name = 'size'
= product Missing
= store Missing
= customer Missing
at [[DIM]]|type = 2
= product Missing
= store Missing
= customer Missing
at [[DIM]]
= product Missing
= store Missing
= customer Missing
at [[DIM]]|name = 'size'|type = 2|note = 1
= product UnknownKey
= store UnknownKey
= customer UnknownKey
at [[DIM]]|name = 'size'|type = 2|day = '2024-12-25'
= product UnknownKey
= store UnknownKey
= customer UnknownKey
at [[DIM]]|name = 'Size'|type = 2
= product BadName
= store BadName
= customer BadName
at [[DIM]]|name = '2nd'|type = 2
= product BadName
= store BadName
= customer BadName
at [[DIM]]|name = '_size'|type = 2
= product BadName
= store BadName
= customer BadName
at [[DIM]]|name = 'the size'|type = 2
= product BadName
= store BadName
= customer BadName
at [[DIM]]|name = ''|type = 2
= product BadName
= store BadName
= customer BadName
at [[DIM]]|name = 'abcdefghijklmnopqrstuvwxy'|type = 2
= product BadName
= store BadName
= customer BadName
at [[DIM]]|name = 'id'|type = 2
= product BadName
= store BadName
= customer BadName
at [[DIM]]|name = 'day'|type = 2
= product BadName
= store BadName
= customer BadName
at [[DIM]]|name = 1|type = 2
= product BadName
= store BadName
= customer BadName
at [[DIM]]|name = 'size'|type = 8
= product BadType
= store BadType
= customer BadType
at [[DIM]]|name = 'size'|type = -1
= product BadType
= store BadType
= customer BadType
at [[DIM]]|name = 'size'|type = '2'
= product BadType
= store BadType
= customer BadType
at [[DIM]]|name = 'size'|type = 2.0
= product BadType
= store BadType
= customer BadType
at [[DIM]]|name = 'size'|type = 2|[[DIM]]|name = 'size'|type = 1
= product NamedTwice
= store NamedTwice
= customer NamedTwice
at DIM = [{}, {}, {}, {}, {}, {}, {}]
= product TooMany
= store TooMany
= customer TooMany

# Only customers have a profile, of types 4 or of types 5.
at [[DIM]]|name = 'size'|type = 4
= product ProfileOutside
= store ProfileOutside
= customer good
at [[DIM]]|name = 'size'|type = 5|[[DIM]]|name = 'tier'|type = 5
= product ProfileOutside
= store ProfileOutside
= customer good
at [[DIM]]|name = 'size'|type = 4|[[DIM]]|name = 'tier'|type = 5
= product ProfileOutside
= store ProfileOutside
= customer ProfileMixed

at [[DIM]]|name = 'abcdefghijklmnopqrstuvwx'|type = 0
= product good
= store good
= customer good
at [[DIM]]|name = 'a'|type = 7|[[DIM]]|name = 'b_2'|type = 6
= product good
= store good
= customer good
at DIM = [{ name = 'ids', type = 3 }]
= product good
= store good
= customer good

# The keys of the file.
with first_year = 2023| ->
= Missing
with last_year = 2026| ->
= Missing
with first_year -> note = 1|first_year
= UnknownKey
with first_year -> id = 1|first_year
= UnknownKey
with [[holiday]] -> [[holidays]]
= UnknownKey

# Up to thirty years, from 1900 to 2199.
with first_year = 2023|last_year = 2026 -> first_year = 1899|last_year = 1900
= BadYears
with first_year = 2023|last_year = 2026 -> first_year = 2199|last_year = 2200
= BadYears
with first_year = 2023|last_year = 2026 -> first_year = 2024|last_year = 2023
= BadYears
with first_year = 2023|last_year = 2026 -> first_year = 1997|last_year = 2027
= BadYears
with first_year = 2023|last_year = 2026 -> first_year = -1|last_year = 2026
= BadYears
with first_year = 2023|last_year = 2026 -> first_year = "2023"|last_year = 2026
= BadYears
with first_year = 2023|last_year = 2026 -> first_year = 2023|last_year = "2026"
= BadYears
with first_year = 2023|last_year = 2026 -> first_year = 2023.0|last_year = 2026
= BadYears
with first_year = 2023|last_year = 2026 -> first_year = 2023|last_year = 2026-12-31
= BadYears

# Holidays.
with day = "2024-12-25"| ->
= Missing
with name = "Christmas Day"| ->
= Missing
with name = "Christmas Day"| -> name = "Xmas"|type = 2|
= UnknownKey
with "2024-12-25" -> 2024-12-25
= BadHoliday
with 2024-12-25 -> 2024-2-1
= BadHoliday
with 2024-12-25 -> 2024-12-32
= BadHoliday
with 2024-12-25 -> 2022-12-31
= BadHoliday
with 2024-12-25 -> 2027-01-01
= BadHoliday
with 2024-12-25 ->
= BadHoliday
with name = "Christmas Day"| -> name = ""|
= BadHoliday
with name = "Christmas Day"| -> name = "(none)"|
= BadHoliday
with name = "Christmas Day"| -> name = "a\tb"|
= BadHoliday
with name = "Christmas Day"| -> name = 1|
= BadHoliday
with [[holiday]] -> [holiday]
= BadHoliday
with [[holiday]]| -> [[holiday]]|day = "2024-12-25"|name = "Xmas"|[[holiday]]|
= BadHoliday

holidays 1
= BadHoliday
holidays "2024-12-25"
= BadHoliday
holidays [1]
= BadHoliday
holidays [[]]
= BadHoliday

# Which of two faults is the answer.
scenario order of faults
# Of two things that are wrong with a file the first in this order is told.
with Day"| -> and first_year -> note
= NotToml
with first_year -> note and [[store]]|name = "city"|type = 2| ->
= UnknownKey
with [[store]]|name = "city"|type = 2| -> and "brand" -> "Brand"
= Missing
with last_year = 2026| -> and type = 1 -> type = 8
= Missing
with type = 1 -> type = 8 and "city" -> "City"
= BadType
with "city" -> "City" and "tier" -> 1|note = 1
= BadName
with "city"|type = 2 -> "city"|type = 5 and [[customer]] -> [customer]
= ProfileOutside
with "tier"|type = 2 -> "tier"|type = 8 and 2026 -> 2053
= BadType
with 2026 -> 2053 and 2024-12-25 -> 2024-2-1
= BadYears
with 2023 -> 2025 and 2024-12-25" -> 2024-12-25"|note = 1
= UnknownKey

# Of a dimension: its form and number first, then attribute by attribute; in each its keys, its name and its type.
stores [1, {}, {}, {}, {}, {}, {}]
= Missing
stores [{}, {}, {}, {}, {}, {}, { note = 1 }]
= TooMany
stores [{ note = 1, name = 'Size' }]
= UnknownKey
stores [{ name = 'Size' }]
= Missing
stores [{ type = 8 }]
= Missing
stores [{ name = 'Size', type = 8 }]
= BadName
stores [{ name = 'Size', type = 4 }]
= BadName
stores [{ name = 'size', type = 2 }, { name = 'size', type = 8 }]
= BadType
stores [{ name = 'size', type = 2 }, { name = 'size', type = 4 }]
= ProfileOutside
stores [{ name = 'size', type = 2 }, { name = 'size', type = 2 }, { note = 1 }]
= NamedTwice
stores [{ name = 'size', type = 8 }, { note = 1 }]
= BadType

# Of the holidays: one by one, in each its keys first.
holidays [{ day = 1, note = 1 }]
= UnknownKey
holidays [{ day = 1 }]
= Missing
holidays [{ name = '' }]
= Missing
holidays [{ day = 1, name = 'x' }, { note = 1 }]
= BadHoliday
holidays [{ day = '2024-01-01', name = '' }, { day = 1 }]
= BadHoliday
holidays [{ note = 1 }, 1]
= BadHoliday

# Files of any bytes.
scenario bytes of files
# FLAT is a policy from its customer's type on (339 bytes), with the end of that line, and again with its holiday's name
# (393 bytes), with the end of that line. In between a line or the holiday isn't whole.
beginnings
= 339, 340, 393, 394, of 394

# 65,536 bytes are the most.
blanks 65536
= good
blanks 65537
= NotToml
letters 65537
= NotToml

# A text is UTF-8, and may have a byte order mark in front.
after # caf\xC3\xA9\n
= good
after # caf\xC3\xA9\n# caf\xE9\n
= NotToml
before \xEF\xBB\xBF
= good

text first_year
= NotToml
text first_year =\x20
= NotToml
text first_year = 2023\nfirst_year = 2023\n
= NotToml
text [[product]]\nname = "descr
= NotToml
text [product]\n[[product]]\n
= NotToml
"#;
