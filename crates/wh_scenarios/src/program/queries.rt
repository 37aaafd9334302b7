//! Queries of a warehouse's file, lists of them, and the records that carry its members to another. The expected lines are worked by hand.

pub const ALL: &str = r#"
scenario queries, lists of them, and records
file qp.csv
> id,day,description,brand,category,department,launched,supplier
> P1,2024-01-01,Cola,Acme,Drinks,Grocery,2019,North
> P1,2024-02-01,Cola,Bolt,Drinks,Grocery,2019,North
> P2,2024-01-01,"Tea, green",Leaf,Drinks,Grocery,2020,South
file qs.csv
> id,day,city
> S1,2024-01-01,Bern
> S2,2024-01-01,Basel
> S2,2024-02-15,Bern
file qc.csv
> id,day,tier,age_band,spend_band
> C1,2024-01-01,gold,20-29,low
file qt.csv
> ticket,line,day,store,product,customer,quantity,amount,cost
> T1,1,2024-01-15,S1,P1,C1,2,5.00,3.20
> T1,2,2024-01-15,S1,P2,C1,1,4.50,2.75
> T2,1,2024-02-10,S2,P1,,3,7.50,4.80
> T3,1,2024-02-20,S2,P1,C1,1,2.50,1.60
> T4,1,2024-02-20,S2,P2,C1,-1,-4.50,-2.75
file qv.csv
> ticket,line
> T2,1
ends 0 init q policy.toml
run query q 2024-01-01 2024-12-31 product.brand date.month
= product.brand:was,date.month,lines,quantity,amount,cost,margin
run load q product p qp.csv
= accepted 2 p: 3 records, 0 placeholders
run load q store s qs.csv
= accepted 3 s: 3 records, 0 placeholders
run load q customer c qc.csv
= accepted 4 c: 1 records, 0 placeholders
run load q sales t qt.csv
= accepted 5 t: 5 records, 0 placeholders

# By two columns, the first one first.
run query q 2024-01-01 2024-12-31 product.brand date.month
= product.brand:was,date.month,lines,quantity,amount,cost,margin
= Acme,2024-01,1,2,5.00,3.20,1.80
= Bolt,2024-02,2,4,10.00,6.40,3.60
= Leaf,2024-01,1,1,4.50,2.75,1.75
= Leaf,2024-02,1,-1,-4.50,-2.75,-1.75
run query q 2024-01-01 2024-12-31 date.month product.brand:was
= date.month,product.brand:was,lines,quantity,amount,cost,margin
= 2024-01,Acme,1,2,5.00,3.20,1.80
= 2024-01,Leaf,1,1,4.50,2.75,1.75
= 2024-02,Bolt,2,4,10.00,6.40,3.60
= 2024-02,Leaf,1,-1,-4.50,-2.75,-1.75

# Conditions of two columns hold both, of two of one column any does.
run query q 2024-01-01 2024-12-31 product.brand --where store.city:was=Bern --where customer.tier=gold
= product.brand:was,lines,quantity,amount,cost,margin
= Acme,1,2,5.00,3.20,1.80
= Bolt,1,1,2.50,1.60,0.90
= Leaf,2,0,0.00,0.00,0.00
run query q 2024-01-01 2024-12-31 product.description store.city --where store.city=Basel --where store.city=Bern --where product.brand=Bolt
= product.description:was,store.city:was,lines,quantity,amount,cost,margin
= Cola,Basel,1,3,7.50,4.80,2.70
= Cola,Bern,1,1,2.50,1.60,0.90
run query q 2024-01-01 2024-12-31 product.brand --where product.brand=Nobody
= product.brand:was,lines,quantity,amount,cost,margin

# A label with a comma, printed and asked for; a type without `was`; a column twice.
run query q 2024-01-15 2024-01-15 product.description
= product.description:was,lines,quantity,amount,cost,margin
= Cola,1,2,5.00,3.20,1.80
= "Tea, green",1,1,4.50,2.75,1.75
run query q 2024-01-01 2024-12-31 product.brand
> --where
> product.description=Tea, green
= product.brand:was,lines,quantity,amount,cost,margin
= Leaf,2,0,0.00,0.00,0.00
run query q 2024-01-15 2024-01-15 product.supplier product.supplier:is
= product.supplier:is,product.supplier:is,lines,quantity,amount,cost,margin
= North,North,1,2,5.00,3.20,1.80
= South,South,1,1,4.50,2.75,1.75

# What can't be asked for: the first column's fault, and then the first condition's.
run query q 2024-01-01 2024-12-31 product.color
= refused: G1 no attribute
run query q 2024-01-01 2024-12-31 product.brand:is product.color
= refused: G2 no reading, type 2 is
run query q 2024-12-31 2024-01-01 product.brand
= refused: G3 bad range
run query q 2024-01-01 2024-12-31 product.brand --where product.color=red
= refused: G1 no attribute
run query nowhere 2024-01-01 2024-12-31 product.brand
= failed: N1 not a warehouse

# Words that are no query.
run query q 2024-01-01 2024-12-31 product.brand:then
= error: BY is 'product.brand:then', and none of ATTRIBUTE and ATTRIBUTE:MODE, with was, is or prior as MODE
run query q 2024-01-01 2024-12-31 product.brand --where store.city
= error: --where is 'store.city', and none of ATTRIBUTE=LABEL and ATTRIBUTE:MODE=LABEL, with was, is or prior as MODE
run query q 2024-01-01 2024-12-31 a b c d e f g
= error: BY is given more than 6 times
run query q 2024-01-01 2024-12-31 a --where a=1 --where a=2 --where a=3 --where a=4 --where a=5 --where a=6 --where a=7 --where a=8 --where a=9 --where a=10 --where a=11 --where a=12 --where a=13
= error: --where is given more than 12 times

# In the second format, with a line that is withdrawn.
run upgrade q u
= accepted 6 u: 0 records, 0 placeholders
run load q void v qv.csv
= accepted 7 v: 1 records, 0 placeholders
run query q 2024-01-01 2024-12-31 store.city
= store.city:was,lines,quantity,amount,cost,margin
= Bern,4,3,7.50,4.80,2.70

# Lists of queries, with an empty line between two.
# Each is what the words of a query print. The line of one that is refused stands in its place, and those behind it are answered too. Empty lines and remarks are passed over.
file listed.txt
> # brands by month
> 2024-01-01 2024-12-31 product.brand date.month
>
> 2024-01-01 2024-12-31 product.color
> 2024-01-15 2024-01-15 product.description --where "product.description=Tea, green"
run queries q listed.txt
= product.brand:was,date.month,lines,quantity,amount,cost,margin
= Acme,2024-01,1,2,5.00,3.20,1.80
= Bolt,2024-02,1,1,2.50,1.60,0.90
= Leaf,2024-01,1,1,4.50,2.75,1.75
= Leaf,2024-02,1,-1,-4.50,-2.75,-1.75
=
= refused: G1 no attribute
=
= product.description:was,lines,quantity,amount,cost,margin
= "Tea, green",1,1,4.50,2.75,1.75
run query q 2024-01-01 2024-12-31 product.brand date.month
= product.brand:was,date.month,lines,quantity,amount,cost,margin
= Acme,2024-01,1,2,5.00,3.20,1.80
= Bolt,2024-02,1,1,2.50,1.60,0.90
= Leaf,2024-01,1,1,4.50,2.75,1.75
= Leaf,2024-02,1,-1,-4.50,-2.75,-1.75

# Other refusals, options in front, more blanks, lines that end as on other systems, a last one without an end, and double quotes within a word.
bytes blanks.txt 2024-01-01 2024-12-31 product.brand:is\r\n\r\n \x092024-12-31  2024-01-01 product.brand\r\n--where store.city=Bern 2024-01-01 2024-12-31 product.brand\r\n2024-01-01 2024-12-31 product.brand "--where" "product.description=say ""tea"""
run queries q blanks.txt
= refused: G2 no reading, type 2 is
=
= refused: G3 bad range
=
= product.brand:was,lines,quantity,amount,cost,margin
= Acme,1,2,5.00,3.20,1.80
= Bolt,1,1,2.50,1.60,0.90
= Leaf,2,0,0.00,0.00,0.00
=
= product.brand:was,lines,quantity,amount,cost,margin

# One alone has no empty line, and no query prints nothing.
file one.txt
> 2024-01-01 2024-12-31 date.month
run queries q one.txt
= date.month,lines,quantity,amount,cost,margin
= 2024-01,2,3,9.50,5.95,3.55
= 2024-02,2,0,-2.00,-1.15,-0.85
file none.txt
run queries q none.txt
file remarks.txt
> # 2024-01-01 2024-12-31 date.month
>
run queries q remarks.txt

# A bad list is refused whole, before the warehouse is opened. All its lines are counted.
file bad.txt
> # the second line is empty
>
> 2024-01-01 2024-12-31 product.brand
> 2024-01-01 2024-12-31 product.brand:then
> 2024-01-01
run queries q bad.txt
= refused: M1 bad manifest, record 4
run queries nowhere bad.txt
= refused: M1 bad manifest, record 4
run queries p1.csv bad.txt
= refused: M1 bad manifest, record 4
file few.txt
> 2024-01-01 2024-12-31
run queries q few.txt
= refused: M1 bad manifest, record 1
file where.txt
> 2024-01-01 2024-12-31 product.brand --where store.city
run queries q where.txt
= refused: M1 bad manifest, record 1
file help.txt
> 2024-01-01 2024-12-31 product.brand --help
run queries q help.txt
= refused: M1 bad manifest, record 1
file seven.txt
> 2024-01-01 2024-12-31 a b c d e f
> 2024-01-01 2024-12-31 a b c d e f g
run queries q seven.txt
= refused: M1 bad manifest, record 2
file open.txt
> 2024-01-01 2024-12-31 product.brand --where "store.city=Bern
run queries q open.txt
= refused: M1 bad manifest, record 1
file within.txt
> 2024-01-01 2024-12-31 product.brand --where store.city="Bern"
run queries q within.txt
= refused: M1 bad manifest, record 1
bytes text.txt 2024-01-01 2024-12-31 date.month\n2024-01-01 2024-12-31 \xFF\n
run queries q text.txt
= refused: M1 bad manifest, record 2
bytes remark.txt # \xFF\n
run queries q remark.txt
= refused: M1 bad manifest, record 1
long line.txt 65537
run queries q line.txt
= refused: M1 bad manifest, record 1
run queries q gone.txt
= failed: F1 file, gone.txt

# No warehouse, with queries and without; none is made.
run queries nowhere one.txt
= failed: N1 not a warehouse
run queries nowhere none.txt
= failed: N1 not a warehouse
stands nowhere
= no

# Within a session.
session q
> queries one.txt
> queries bad.txt
= date.month,lines,quantity,amount,cost,margin
= 2024-01,2,3,9.50,5.95,3.55
= 2024-02,2,0,-2.00,-1.15,-0.85
= status 0
= refused: M1 bad manifest, record 4
= status 2

# Words that are too few or too many.
ends 4 queries q
ends 4 queries q one.txt none.txt

# Records for another file.
run records q store
= id,day,city
= S1,2024-01-01,Bern
= S2,2024-01-01,Basel
= S2,2024-02-15,Bern
run records q store 2
= id,day,city
= S2,2024-02-15,Bern
run records q store 3
= id,day,city
run records q store 999999999
= id,day,city

# A record of an earlier day says another year than the first that was accepted: that goes before the dated ones, in a batch of its own.
file ql.csv
> id,day,description,brand,category,department,launched,supplier
> P2,2023-06-01,Tea,Leaf,Drinks,Grocery,2018,South
run load q product l ql.csv
= accepted 8 l: 1 records, 0 placeholders
run records q product
= id,day,description,brand,category,department,launched,supplier
= P2,2023-06-01,"Tea, green",Leaf,Drinks,Grocery,2020,South
run records q product 1
= id,day,description,brand,category,department,launched,supplier
= P1,2024-01-01,Cola,Acme,Drinks,Grocery,2019,North
= P1,2024-02-01,Cola,Bolt,Drinks,Grocery,2019,North
= P2,2023-06-01,Tea,Leaf,Drinks,Grocery,2018,South
= P2,2024-01-01,"Tea, green",Leaf,Drinks,Grocery,2020,South

run records q stores
= error: DIMENSION is 'stores', and none of product, store and customer
run records q store x
= error: FROM is 'x', and none of the numbers 0 to 999999999
run records q store 1000000000
= error: FROM is '1000000000', and none of the numbers 0 to 999999999
run records nowhere store
= failed: N1 not a warehouse

# What stops the list is told in the place of the query that met it, and nothing behind it.
sql q UPDATE product SET from_day = 20240332
file stopped.txt
> 2024-01-01 2024-12-31 product.color
> 2024-01-01 2024-12-31 date.month
> 2024-01-01 2024-12-31 product.brand
> 2024-01-01 2024-12-31 date.month
run queries q stopped.txt
= refused: G1 no attribute
=
= date.month,lines,quantity,amount,cost,margin
= 2024-01,2,3,9.50,5.95,3.55
= 2024-02,2,0,-2.00,-1.15,-0.85
=
= failed: E7 damaged, product

# A cola becomes another brand's in February, and one of two cities has to be quoted. Then two lines are withdrawn in format 2.
scenario a slice, and two formats
file k-st.csv
> id,day,city
> S1,2023-01-01,"Bern, Gare"
> S2,2023-01-01,Genf
file k-p1.csv
> id,day,description,brand,category,department,launched,supplier
> P1,2024-01-10,Drink,Bolt,Drinks,Grocery,2019,North
> P9,2024-01-10,Drink,Leaf,Drinks,Grocery,2019,North
file k-p2.csv
> id,day,description,brand,category,department,launched,supplier
> P1,2024-02-01,Drink,Acme,Drinks,Grocery,2019,North
file k-s1.csv
> ticket,line,day,store,product,customer,quantity,amount,cost
> T1,1,2024-02-05,S1,P1,,2,5.00,3.20
> T2,1,2024-01-15,S1,P1,,1,2.50,1.60
> T3,1,2024-02-10,S2,P1,,3,7.50,4.80
> T4,1,2024-02-20,S1,P9,,1,10.00,7.00
> T5,1,2024-02-29,S1,P1,,4,10.00,6.40
ends 0 init k flat.toml
run load k store st k-st.csv
= accepted 2 st: 2 records, 0 placeholders
run load k product p1 k-p1.csv
= accepted 3 p1: 2 records, 0 placeholders
run load k product p2 k-p2.csv
= accepted 4 p2: 1 records, 0 placeholders
run load k sales s1 k-s1.csv
= accepted 5 s1: 5 records, 0 placeholders

# brand by month of one shop alone
run query k 2024-01-01 2024-12-31 product.brand:was date.month
> --where
> store.city:was=Bern, Gare
= product.brand:was,date.month,lines,quantity,amount,cost,margin
= Acme,2024-02,2,6,15.00,9.60,5.40
= Bolt,2024-01,1,1,2.50,1.60,0.90
= Leaf,2024-02,1,1,10.00,7.00,3.00
# two labels of one column, and one of another
run query k 2024-01-01 2024-12-31 store.city:was --where store.city:was=Genf --where product.brand:was=Acme
> --where
> store.city:was=Bern, Gare
= store.city:was,lines,quantity,amount,cost,margin
= "Bern, Gare",2,6,15.00,9.60,5.40
= Genf,1,3,7.50,4.80,2.70
# no sale is in the slice
run query k 2024-01-01 2024-12-31 product.brand:was --where store.city:was=Genf --where product.brand:was=Leaf
= product.brand:was,lines,quantity,amount,cost,margin
run check k
= clean

# In format 2 the lines that stand count, and no discount is taken off.
file k-s2.csv
> ticket,line,day,store,product,customer,quantity,amount,cost,discount
> T6,1,2024-02-10,S2,P9,,2,18.00,14.00,2.00
> T6,2,2024-03-01,S1,P1,,1,2.50,1.60,0.50
file k-v1.csv
> ticket,line
> T1,1
> T6,2
run upgrade k u1
= accepted 6 u1: 0 records, 0 placeholders
run load k sales s2 k-s2.csv
= accepted 7 s2: 2 records, 0 placeholders
run load k void v1 k-v1.csv
= accepted 8 v1: 2 records, 0 placeholders
run query k 2024-01-01 2024-12-31 product.brand:was date.month
> --where
> store.city:was=Bern, Gare
= product.brand:was,date.month,lines,quantity,amount,cost,margin
= Acme,2024-02,1,4,10.00,6.40,3.60
= Bolt,2024-01,1,1,2.50,1.60,0.90
= Leaf,2024-02,1,1,10.00,7.00,3.00
run query k 2024-02-01 2024-03-31 store.city:was product.brand:was
= store.city:was,product.brand:was,lines,quantity,amount,cost,margin
= "Bern, Gare",Acme,1,4,10.00,6.40,3.60
= "Bern, Gare",Leaf,1,1,10.00,7.00,3.00
= Genf,Acme,1,3,7.50,4.80,2.70
= Genf,Leaf,1,2,18.00,14.00,4.00
run check k
= clean

scenario columns of each type, two and three at once
# 2 and 6; 6 and 7 as they are; 1, 0 and 3; 5 as it was and is, beside the holiday. No record has P9 or the store, and the cola's supplier has an equals sign.
file y-p.csv
> id,day,description,brand,category,department,launched,supplier
> P1,2024-01-01,Cola,Acme,Drinks,Grocery,2019,North
> P1,2024-02-01,Cola 1 l,Bolt,Soft drinks,Bottles,2020,South=East
file y-c.csv
> id,day,tier,age_band,spend_band
> C1,2024-01-01,gold,20-29,low
> C1,2024-03-01,gold,30-39,low
file y-t.csv
> ticket,line,day,store,product,customer,quantity,amount,cost
> T1,1,2024-01-15,S1,P1,C1,2,5.00,3.20
> T2,1,2024-02-15,S1,P1,,1,2.50,1.60
> T3,1,2024-12-25,S1,P9,C1,4,10.00,6.40
ends 0 init y policy.toml
run load y product p y-p.csv
= accepted 2 p: 2 records, 0 placeholders
run load y customer c y-c.csv
= accepted 3 c: 2 records, 0 placeholders
run load y sales t y-t.csv
= accepted 4 t: 3 records, 2 placeholders
run query y 2024-01-01 2024-12-31 product.brand product.category:was
= product.brand:was,product.category:was,lines,quantity,amount,cost,margin
= (unknown),(unknown),1,4,10.00,6.40,3.60
= Acme,Drinks,1,2,5.00,3.20,1.80
= Bolt,Soft drinks,1,1,2.50,1.60,0.90
run query y 2024-01-01 2024-12-31 product.category:is product.department:was product.department:is
= product.category:is,product.department:was,product.department:is,lines,quantity,amount,cost,margin
= (unknown),(unknown),(unknown),1,4,10.00,6.40,3.60
= Soft drinks,Bottles,Bottles,1,1,2.50,1.60,0.90
= Soft drinks,Grocery,Bottles,1,2,5.00,3.20,1.80
run query y 2024-01-01 2024-12-31 product.description product.launched product.supplier:prior
= product.description:was,product.launched:was,product.supplier:prior,lines,quantity,amount,cost,margin
= (unknown),(unknown),(none),1,4,10.00,6.40,3.60
= Cola 1 l,2019,North,2,3,7.50,4.80,2.70
run query y 2024-01-01 2024-12-31 customer.age_band:was customer.age_band:is date.holiday
= customer.age_band:was,customer.age_band:is,date.holiday,lines,quantity,amount,cost,margin
= (no card),(no card),(none),1,1,2.50,1.60,0.90
= 20-29,30-39,(none),1,2,5.00,3.20,1.80
= 30-39,30-39,Christmas Day,1,4,10.00,6.40,3.60
run query y 2024-01-01 2024-12-31 store.city date.month --where product.supplier:is=South=East
= store.city:was,date.month,lines,quantity,amount,cost,margin
= (unknown),2024-01,1,2,5.00,3.20,1.80
= (unknown),2024-02,1,1,2.50,1.60,0.90

# A description of more than 24 characters with quotes and a comma, a city with an umlaut, and a brand that is called as the last line is.
scenario tables
file a-st.csv
> id,day,city
> S1,2023-01-01,"Bern, Gare"
> S2,2023-01-01,Zürich
file a-p.csv
> id,day,description,brand,category,department,launched,supplier
> P1,2023-01-01,"Coffee ""Genf"", whole beans",Acme,Drinks,Grocery,2019,North
> P2,2023-01-01,Tea,total,Drinks,Grocery,2019,North
file a-s.csv
> ticket,line,day,store,product,customer,quantity,amount,cost
> T1,1,2024-01-15,S1,P1,,2,19.00,12.40
> T1,2,2024-01-15,S1,P2,,1,3.50,1.15
> T2,1,2024-02-10,S2,P1,,-1,-9.50,-6.20
> T3,1,2024-02-20,S2,P2,,4,14.00,4.60
ends 0 init a flat.toml
run query a 2024-01-01 2024-12-31 date.month --table
=    lines   quantity         amount           cost         margin  date.month
=        0          0           0.00           0.00           0.00  total
run load a store st a-st.csv
= accepted 2 st: 2 records, 0 placeholders
run load a product p a-p.csv
= accepted 3 p: 2 records, 0 placeholders
run load a sales s a-s.csv
= accepted 4 s: 4 records, 0 placeholders

# Labels side by side, each but the last at the left of 24 characters.
run query a 2024-01-01 2024-12-31 product.description store.city --table
=    lines   quantity         amount           cost         margin  product.description:was  store.city:was
=        1          2          19.00          12.40           6.60  Coffee "Genf", whole beans Bern, Gare
=        1         -1          -9.50          -6.20          -3.30  Coffee "Genf", whole beans Zürich
=        1          1           3.50           1.15           2.35  Tea                      Bern, Gare
=        1          4          14.00           4.60           9.40  Tea                      Zürich
=        4          6          27.00          11.95          15.05  total
run query --table a 2024-01-01 2024-12-31 store.city product.brand
=    lines   quantity         amount           cost         margin  store.city:was           product.brand:was
=        1          2          19.00          12.40           6.60  Bern, Gare               Acme
=        1          1           3.50           1.15           2.35  Bern, Gare               total
=        1         -1          -9.50          -6.20          -3.30  Zürich                   Acme
=        1          4          14.00           4.60           9.40  Zürich                   total
=        4          6          27.00          11.95          15.05  total

# By one column its lines are those of the report.
run query a 2024-01-01 2024-12-31 product.brand --table
=    lines   quantity         amount           cost         margin  product.brand:was
=        2          1           9.50           6.20           3.30  Acme
=        2          5          17.50           5.75          11.75  total
=        4          6          27.00          11.95          15.05  total
report a product.brand was 2024-01-01 2024-12-31
=    lines   quantity         amount           cost         margin  label
=        2          1           9.50           6.20           3.30  Acme
=        2          5          17.50           5.75          11.75  total
=        4          6          27.00          11.95          15.05  total

# Of a slice, of one without a sale, and of none that can be asked for.
run query a 2024-01-01 2024-12-31 date.month --table --where product.brand=Acme
=    lines   quantity         amount           cost         margin  date.month
=        1          2          19.00          12.40           6.60  2024-01
=        1         -1          -9.50          -6.20          -3.30  2024-02
=        2          1           9.50           6.20           3.30  total
run query a 2024-01-01 2024-12-31 product.brand store.city --where product.brand=Nobody --table
=    lines   quantity         amount           cost         margin  product.brand:was        store.city:was
=        0          0           0.00           0.00           0.00  total
run query a 2024-01-01 2024-12-31 product.color --table
= refused: G1 no attribute
run query a 2024-01-01 2024-12-31 product.brand --where store.city --table
= error: --where is 'store.city', and none of ATTRIBUTE=LABEL and ATTRIBUTE:MODE=LABEL, with was, is or prior as MODE

# In format 2, with a line that is withdrawn.
file a-v.csv
> ticket,line
> T1,1
run upgrade a u
= accepted 5 u: 0 records, 0 placeholders
run load a void v a-v.csv
= accepted 6 v: 1 records, 0 placeholders
run query a 2024-01-01 2024-12-31 date.month --table
=    lines   quantity         amount           cost         margin  date.month
=        1          1           3.50           1.15           2.35  2024-01
=        2          3           4.50          -1.60           6.10  2024-02
=        3          4           8.00          -0.45           8.45  total
"#;
