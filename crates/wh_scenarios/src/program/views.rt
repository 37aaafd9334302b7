//! What `views` prints, under policies with attributes of each type. The expected lines are worked by hand.

pub const ALL: &str = r#"
scenario attributes of each type, in both formats
# The products have types 1, 2, 6, 7, 0 and 3; the customers 2 and 5.
policy five.toml name = "tier"|type = 2 -> name = "tier"|type = 2|[[customer]]|name = "band"|type = 5
run init w five.toml
= accepted 1 init: 0 records, 0 placeholders
run views w
= CREATE TEMP VIEW sales_as_was AS
= SELECT
=     fact.ticket AS ticket,
=     fact.line AS line,
=     fact.day AS day,
=     calendar.iso AS sale_date,
=     substr(calendar.iso, 1, 7) AS month,
=     calendar.weekday_name AS weekday,
=     calendar.weekend AS is_weekend,
=     calendar.holiday AS holiday,
=     product.natural AS product,
=     product.a1 AS product_description,
=     product.a2 AS product_brand,
=     product.a3 AS product_category,
=     product.a4 AS product_department,
=     product.a5 AS product_launched,
=     store.natural AS store,
=     store.a1 AS store_city,
=     customer.natural AS customer,
=     customer.a1 AS customer_tier,
=     profile.v2 AS customer_band,
=     fact.quantity AS quantity,
=     fact.amount AS amount,
=     fact.cost AS cost,
=     fact.amount - fact.cost AS margin
= FROM fact
= JOIN calendar ON calendar.date_key = fact.day
= JOIN product ON product.surrogate = fact.product_key
= JOIN store ON store.surrogate = fact.store_key
= JOIN customer ON customer.surrogate = fact.customer_key
= JOIN profile ON profile.number = fact.profile;
= CREATE TEMP VIEW sales_as_is AS
= SELECT
=     fact.ticket AS ticket,
=     fact.line AS line,
=     fact.day AS day,
=     calendar.iso AS sale_date,
=     substr(calendar.iso, 1, 7) AS month,
=     calendar.weekday_name AS weekday,
=     calendar.weekend AS is_weekend,
=     calendar.holiday AS holiday,
=     product.natural AS product,
=     product.a1 AS product_description,
=     product.b3 AS product_category,
=     product.a4 AS product_department,
=     product.a5 AS product_launched,
=     product.a6 AS product_supplier,
=     product.b6 AS prior_product_supplier,
=     store.natural AS store,
=     customer.natural AS customer,
=     profile.v2 AS customer_band,
=     fact.quantity AS quantity,
=     fact.amount AS amount,
=     fact.cost AS cost,
=     fact.amount - fact.cost AS margin
= FROM fact
= JOIN calendar ON calendar.date_key = fact.day
= JOIN product ON product.durable = fact.product_durable AND product.is_current = 1
= JOIN store ON store.durable = fact.store_durable AND store.is_current = 1
= JOIN customer ON customer.durable = fact.customer_durable AND customer.is_current = 1
= JOIN profile ON profile.number = customer.profile_now;
= CREATE TEMP VIEW sales_by_month AS
= SELECT
=     substr(calendar.iso, 1, 7) AS month,
=     count(*) AS lines,
=     sum(fact.quantity) AS quantity,
=     sum(fact.amount) AS amount,
=     sum(fact.cost) AS cost,
=     sum(fact.amount - fact.cost) AS margin
= FROM fact
= JOIN calendar ON calendar.date_key = fact.day
= GROUP BY substr(calendar.iso, 1, 7);

# A newer policy has another type in each place but the first: 1, 0, 3, 2, 6 and 7, and for the customers 4 and 1. Then comes the second format.
policy four.toml name = "tier"|type = 2 -> name = "tier"|type = 4|[[customer]]|name = "band"|type = 1 and name = "brand"|type = 2 -> name = "brand"|type = 0 and name = "category"|type = 6 -> name = "category"|type = 3 and name = "department"|type = 7 -> name = "department"|type = 2 and name = "launched"|type = 0 -> name = "launched"|type = 6 and name = "supplier"|type = 3 -> name = "supplier"|type = 7
run migrate w m1 four.toml
= accepted 2 m1: 0 records, 0 placeholders
run upgrade w u1
= accepted 3 u1: 0 records, 0 placeholders
run views w
= CREATE TEMP VIEW sales_as_was AS
= SELECT
=     fact.ticket AS ticket,
=     fact.line AS line,
=     fact.day AS day,
=     calendar.iso AS sale_date,
=     substr(calendar.iso, 1, 7) AS month,
=     calendar.weekday_name AS weekday,
=     calendar.weekend AS is_weekend,
=     calendar.holiday AS holiday,
=     product.natural AS product,
=     product.a1 AS product_description,
=     product.a2 AS product_brand,
=     product.a4 AS product_department,
=     product.a5 AS product_launched,
=     product.a6 AS product_supplier,
=     store.natural AS store,
=     store.a1 AS store_city,
=     customer.natural AS customer,
=     profile.v1 AS customer_tier,
=     customer.a2 AS customer_band,
=     fact.quantity AS quantity,
=     fact.amount AS amount,
=     fact.cost AS cost,
=     fact.amount - fact.cost AS margin,
=     fact.discount AS discount
= FROM fact2 AS fact
= JOIN calendar ON calendar.date_key = fact.day
= JOIN product ON product.surrogate = fact.product_key
= JOIN store ON store.surrogate = fact.store_key
= JOIN customer ON customer.surrogate = fact.customer_key
= JOIN profile ON profile.number = fact.profile;
= CREATE TEMP VIEW sales_as_is AS
= SELECT
=     fact.ticket AS ticket,
=     fact.line AS line,
=     fact.day AS day,
=     calendar.iso AS sale_date,
=     substr(calendar.iso, 1, 7) AS month,
=     calendar.weekday_name AS weekday,
=     calendar.weekend AS is_weekend,
=     calendar.holiday AS holiday,
=     product.natural AS product,
=     product.a1 AS product_description,
=     product.a2 AS product_brand,
=     product.a3 AS product_category,
=     product.b3 AS prior_product_category,
=     product.b5 AS product_launched,
=     product.a6 AS product_supplier,
=     store.natural AS store,
=     customer.natural AS customer,
=     customer.a2 AS customer_band,
=     fact.quantity AS quantity,
=     fact.amount AS amount,
=     fact.cost AS cost,
=     fact.amount - fact.cost AS margin,
=     fact.discount AS discount
= FROM fact2 AS fact
= JOIN calendar ON calendar.date_key = fact.day
= JOIN product ON product.durable = fact.product_durable AND product.is_current = 1
= JOIN store ON store.durable = fact.store_durable AND store.is_current = 1
= JOIN customer ON customer.durable = fact.customer_durable AND customer.is_current = 1
= JOIN profile ON profile.number = customer.profile_now;
= CREATE TEMP VIEW sales_by_month AS
= SELECT
=     substr(calendar.iso, 1, 7) AS month,
=     count(*) AS lines,
=     sum(fact.quantity) AS quantity,
=     sum(fact.amount) AS amount,
=     sum(fact.cost) AS cost,
=     sum(fact.amount - fact.cost) AS margin
= FROM fact2 AS fact
= JOIN calendar ON calendar.date_key = fact.day
= GROUP BY substr(calendar.iso, 1, 7);

scenario where nothing is opened
run views v
= failed: N1 not a warehouse
run views flat.toml
= failed: F1 file, flat.toml
session v
> views
= failed: N1 not a warehouse
= status 3
"#;
