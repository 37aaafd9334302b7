//! What product, store and customer have in common.

ghost use Rattle.wh_policy.specs.declared.format.Format.{Format};
ghost use Rattle.wh_rows.specs.Schema.{schema_in};
ghost use Rattle.sqlite.specs.Listing.{understood};
ghost use Rattle.wh_rows.specs.Names.{is_there};
ghost use Rattle.std.specs.Prelude.{◌≡◌, ℕ, List, [], ◌∷◌, pos};
ghost use Rattle.std.specs.Ordering.{eq_by_cmp, nat_cmp};
ghost use Rattle.sqlite_value.specs.declared.value.Value.TheVariants.{Int};
ghost use Rattle.wh_policy.specs.declared.attribute.Dim.{Dim};
ghost use Rattle.wh_rows.specs.Meaning.{Means, ReadsSome};
ghost use Rattle.wh_rows.specs.Raw.{ReadsStored};
ghost use Rattle.wh_rows.specs.Questions.{has_durable};

use crate::keyed_table::KeyedTable;
use wh_history::DimRow;
use wh_policy::Dim;
use wh_rows::tables;

/// The table of a dimension. Its key is the surrogate key.
pub trait Dimension: KeyedTable<Row = DimRow, Key = u64> {
    ghost dimension: { Dim };

    ghost rows_of_means: { List ℕ };

    /// Which dimension it is.
    fn dim() -> Dim
        ensures { result ≡ dimension };

    /// The text that shows the rows of one member, in the order of their surrogate keys.
    fn rows_of_text() -> &'static str
        ensures { result.now ≡ rows_of_means };

    // What the text means.
    ghost finds_rows: { (format : Format) (durable : ℕ) → Means (is_there Self.KeyedTable.name format) (ReadsSome (schema_in format) Self.StoredTable.layout (Int (pos durable) ∷ []) (λ row. eq_by_cmp nat_cmp durable row.durable) rows_of_means) (understood (schema_in format) rows_of_means) };

    // The same of any stored rows.
    ghost finds_rows_stored: { (format : Format) (durable : ℕ) → Means (is_there Self.KeyedTable.name format) (ReadsStored (schema_in format) Self.StoredTable.layout (Int (pos durable) ∷ []) (has_durable durable) (λ row. eq_by_cmp nat_cmp durable row.durable) rows_of_means) (understood (schema_in format) rows_of_means) };
}

impl Dimension for tables::Product {
    ghost use Rattle.wh_policy.specs.declared.attribute.Dim.TheVariants.{Product};
    ghost use Rattle.wh_rows.proofs.EachTable.Products.{of_durable, of_durable_stored};
    ghost use Rattle.wh_rows.specs.Texts.{rows_of_member};

    ghost dimension = { Product };

    ghost rows_of_means = { rows_of_member Product };

    fn dim() -> Dim {
        Dim::Product
    }

    fn rows_of_text() -> &'static str {
        "SELECT * FROM product WHERE durable = ?1 ORDER BY surrogate"
    }

    ghost finds_rows = { of_durable };

    ghost finds_rows_stored = { of_durable_stored };
}

impl Dimension for tables::Store {
    ghost use Rattle.wh_policy.specs.declared.attribute.Dim.TheVariants.{Store};
    ghost use Rattle.wh_rows.proofs.EachTable.Stores.{of_durable, of_durable_stored};
    ghost use Rattle.wh_rows.specs.Texts.{rows_of_member};

    ghost dimension = { Store };

    ghost rows_of_means = { rows_of_member Store };

    fn dim() -> Dim {
        Dim::Store
    }

    fn rows_of_text() -> &'static str {
        "SELECT * FROM store WHERE durable = ?1 ORDER BY surrogate"
    }

    ghost finds_rows = { of_durable };

    ghost finds_rows_stored = { of_durable_stored };
}

impl Dimension for tables::Customer {
    ghost use Rattle.wh_policy.specs.declared.attribute.Dim.TheVariants.{Customer};
    ghost use Rattle.wh_rows.proofs.EachTable.Customers.{of_durable, of_durable_stored};
    ghost use Rattle.wh_rows.specs.Texts.{rows_of_member};

    ghost dimension = { Customer };

    ghost rows_of_means = { rows_of_member Customer };

    fn dim() -> Dim {
        Dim::Customer
    }

    fn rows_of_text() -> &'static str {
        "SELECT * FROM customer WHERE durable = ?1 ORDER BY surrogate"
    }

    ghost finds_rows = { of_durable };

    ghost finds_rows_stored = { of_durable_stored };
}
