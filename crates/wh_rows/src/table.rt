//! The tables of the warehouse.

ghost use Rattle.std.specs.Prelude.{◌≡◌, Some, IfSome, map};
ghost use Rattle.wh_rows.specs.ColumnNames.{table_columns};
ghost use Rattle.wh_rows.specs.Names.{table_name, table_of_name};

const CHANGE: [&str; 12] = [
    "command", "record", "dim", "durable", "day", "anchor", "v1", "v2", "v3", "v4", "v5", "v6",
];

/// The columns of each dimension that has members.
const DIMENSION: [&str; 19] = [
    "surrogate",
    "durable",
    "natural",
    "from_day",
    "to_day",
    "is_current",
    "a1",
    "a2",
    "a3",
    "a4",
    "a5",
    "a6",
    "b1",
    "b2",
    "b3",
    "b4",
    "b5",
    "b6",
    "profile_now",
];

const CALENDAR: [&str; 11] = [
    "date_key",
    "iso",
    "year",
    "quarter",
    "month",
    "day",
    "day_of_year",
    "weekday",
    "weekday_name",
    "weekend",
    "holiday",
];

const FACT: [&str; 13] = [
    "ticket",
    "line",
    "day",
    "store_key",
    "product_key",
    "customer_key",
    "store_durable",
    "product_durable",
    "customer_durable",
    "profile",
    "quantity",
    "amount",
    "cost",
];

const FACT2: [&str; 14] = [
    "ticket",
    "line",
    "day",
    "store_key",
    "product_key",
    "customer_key",
    "store_durable",
    "product_durable",
    "customer_durable",
    "profile",
    "quantity",
    "amount",
    "cost",
    "discount",
];

/// A table, in the order in which plans and checks go through them.
#[derive(Clone, Copy, Debug, PartialEq, Eq)]
pub enum Table {
    /// The format and the limits.
    Meta,
    /// The accepted commands.
    Command,
    /// The durable and the natural keys of members.
    Member,
    /// The accepted records of members.
    Change,
    /// The rows of products.
    Product,
    /// The rows of stores.
    Store,
    /// The rows of customers, and row 0 of sales without a card.
    Customer,
    /// The mini-dimension of customers.
    Profile,
    /// The days of the policy's years.
    Calendar,
    /// The sales that stand, in format 1; in format 2 it is empty.
    Fact,
    /// The sales that stand, in format 2.
    Fact2,
    /// The lines that were withdrawn, in format 2.
    Void,
}

impl Table {
    ghost use Rattle.wh_rows.specs.declared.table.Table.{Table};

    /// All tables, in their order. The last two are in the second format alone.
    pub const ALL: [Table; 12] = [
        Table::Meta,
        Table::Command,
        Table::Member,
        Table::Change,
        Table::Product,
        Table::Store,
        Table::Customer,
        Table::Profile,
        Table::Calendar,
        Table::Fact,
        Table::Fact2,
        Table::Void,
    ];

    /// Its name, in statements and in print.
    #[tactic(auto, unfolding(crate::specs::Names::table_name))]
    pub fn name(self) -> &'static str
        ensures { result.now ≡ table_name self }
    {
        match self {
            Table::Meta => "meta",
            Table::Command => "command",
            Table::Member => "member",
            Table::Change => "change",
            Table::Product => "product",
            Table::Store => "store",
            Table::Customer => "customer",
            Table::Profile => "profile",
            Table::Calendar => "calendar",
            Table::Fact => "fact",
            Table::Fact2 => "fact2",
            Table::Void => "void",
        }
    }

    /// The names of its columns, in their order.
    pub fn columns(self) -> &'static [&'static str]
        ensures { map (λ name. name.now) result.now ≡ table_columns self }
    {
        match self {
            Table::Meta => &["name", "value"],
            Table::Command => &["number", "id", "kind", "bytes", "records", "placeholders"],
            Table::Member => &["dim", "durable", "natural", "opening"],
            Table::Change => &CHANGE,
            Table::Product | Table::Store | Table::Customer => &DIMENSION,
            Table::Profile => &["number", "v1", "v2", "v3", "v4", "v5", "v6"],
            Table::Calendar => &CALENDAR,
            Table::Fact => &FACT,
            Table::Fact2 => &FACT2,
            Table::Void => &["ticket", "line", "command"],
        }
    }

    /// The table of that name, if one has it.
    pub fn from_name(name: &str) -> Option<Table>
        // What is found has the name.
        ensures found { IfSome result (λ table. table_name table ≡ name.now) }
        // The table that has the name is found.
        ensures only { (table : Table) → table_name table ≡ name.now → result ≡ Some table }
    {
        table_of_name(name)
    }
}

fn table_of_name(name: &str) -> Option<Table>
    ensures { result ≡ table_of_name name.now }
{
    match name {
        "meta" => Some(Table::Meta),
        "command" => Some(Table::Command),
        "member" => Some(Table::Member),
        "change" => Some(Table::Change),
        "product" => Some(Table::Product),
        "store" => Some(Table::Store),
        "customer" => Some(Table::Customer),
        "profile" => Some(Table::Profile),
        "calendar" => Some(Table::Calendar),
        "fact" => Some(Table::Fact),
        "fact2" => Some(Table::Fact2),
        "void" => Some(Table::Void),
        _ => None,
    }
}
