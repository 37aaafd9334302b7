//! What the facts of either format have in common.

ghost use Rattle.std.specs.Prelude.{◌≡◌, ℕ, Bool, List, [], ◌∷◌, pos};
ghost use Rattle.std.specs.Ordering.{is_ge, nat_cmp};
ghost use Rattle.sqlite.specs.Listing.{understood};
ghost use Rattle.sqlite_value.specs.declared.value.Value.TheVariants.{Int};
ghost use Rattle.wh_history.specs.declared.facts.Fact.{Fact};
ghost use Rattle.wh_policy.specs.declared.attribute.Dim.{Dim};
ghost use Rattle.wh_policy.specs.declared.format.Format.{Format};
ghost use Rattle.wh_rows.specs.Meaning.{Means};
ghost use Rattle.wh_rows.specs.Names.{is_there};
ghost use Rattle.wh_rows.specs.Questions.{durable_of};
ghost use Rattle.wh_rows.specs.Raw.{ReadsStored};
ghost use Rattle.wh_rows.specs.Schema.{schema_in};
ghost use Rattle.wh_rows.specs.Since.{is_of_members, is_since, unordered};

use crate::keyed_table::KeyedTable;
use wh_rows::tables;

/// The table of the facts of a format.
pub trait Facts: KeyedTable {
    // The fact of a row, without what a format keeps beside it.
    ghost fact: { Self.Row → Fact };

    ghost since_means: { List ℕ };

    /// The text that shows all facts from a day on, in no order.
    fn since_text() -> &'static str
        ensures { result.now ≡ since_means };

    // What the text means, of any stored rows.
    ghost shows_since: { (format : Format) (from : ℕ) → Means (is_there Self.KeyedTable.name format) (ReadsStored (schema_in format) (unordered Self.StoredTable.layout) (Int (pos from) ∷ []) (is_since from) (λ row. is_ge (nat_cmp (fact row).day from)) since_means) (understood (schema_in format) since_means) };

    // Of which member and which day a row is, as it stands in the columns.
    ghost of_members: { (has : ℕ → ℕ → Bool) (dim : Dim) (row : Self.Row) → is_of_members has dim (Self.StoredTable.layout.encode row) ≡ has (durable_of dim (fact row)) (fact row).day };
}

impl Facts for tables::Fact {
    ghost use Rattle.wh_rows.specs.Since.{sales_since};
    ghost use Rattle.wh_rows.proofs.Since.{sales_since_shown, of_members};

    ghost fact = { λ row. row };

    ghost since_means = { sales_since };

    fn since_text() -> &'static str {
        "SELECT * FROM fact WHERE day >= ?1"
    }

    ghost shows_since = { sales_since_shown };

    ghost of_members = { of_members };
}

impl Facts for tables::Fact2 {
    ghost use Rattle.wh_rows.specs.Since.{sales_since2};
    ghost use Rattle.wh_rows.proofs.Since.{sales_since_shown2, of_members2};

    ghost fact = { λ row. row };

    ghost since_means = { sales_since2 };

    fn since_text() -> &'static str {
        "SELECT * FROM fact2 WHERE day >= ?1"
    }

    ghost shows_since = { sales_since_shown2 };

    ghost of_members = { of_members2 };
}
