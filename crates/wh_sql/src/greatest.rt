//! Questions after the greatest key, and after the greatest anchor.

ghost use Rattle.std.specs.Prelude.{◌≡◌, [], ◌∷◌, pos, map, filter, slice_get, Some, unwrap_or, option_map};
ghost use Rattle.std.specs.Ordering.{eq_by_cmp, nat_cmp};
ghost use Rattle.std.specs.FinMap.{values};
ghost use Rattle.sqlite_value.specs.declared.value.Value.TheVariants.{Int as Number};
ghost use Rattle.sqlite.specs.Held.{state};
ghost use Rattle.wh_rows.specs.declared.table.Table.TheVariants.{Change as OfChange};
ghost use Rattle.wh_rows.specs.Types.{dim_number};
ghost use Rattle.wh_rows.specs.Rows.{change};
ghost use Rattle.wh_rows.specs.Texts as texts;
ghost use Rattle.wh_rows.specs.Firsts.{greatest as greatest_of};
ghost use Rattle.wh_rows.specs.Questions.{is_record_of};
ghost use Rattle.wh_rows.specs.Raw.{IsGreatestAnchor};
ghost use Rattle.wh_sql.specs.Answers.{Answers};
ghost use Rattle.wh_sql.specs.Reads.{IsOfGreatestDamage, FailsToShow};

use crate::at_rest::Tables;
use crate::fault::ReadFault;
use crate::keys::dim_key;
use crate::question::Question;
use crate::read::rows_shown;
use sqlite::Alter;
use sqlite::types::ValueRef;
use std::alloc::Global;
use wh_policy::Dim;
use wh_rows::{Cause, ChangeRow, bound, tables};

/// The profile of the greatest number.
#[derive(Clone, Copy, Debug, PartialEq, Eq)]
pub struct Greatest;

impl Question<tables::Profile> for Greatest {
    ghost use Rattle.std.specs.Prelude.{true, [], Some};
    ghost use Rattle.wh_rows.proofs.EachTable.Profiles.{greatest, greatest_stored};
    ghost use Rattle.wh_rows.specs.Firsts.{last_one};
    ghost use Rattle.wh_rows.specs.Texts.{last_profile};

    ghost keep = { λ q r. true };

    ghost front = { Some last_one };

    ghost bind = { λ q. [] };

    ghost can_be_asked = { λ q. Unit {0} };

    ghost means = { λ q. last_profile };

    fn text(&self) -> &'static str {
        "SELECT * FROM profile ORDER BY number DESC LIMIT 1"
    }

    fn values<'a>(&'a self, alloc: Global) -> Result<Vec<ValueRef<'a>>, Cause> {
        Ok(Vec::new(alloc))
    }

    ghost stands = { λ q r. true };

    ghost reads = { λ format q. greatest format };

    ghost reads_stored = { λ format q. greatest_stored format };
}

/// The member of a dimension that has the greatest durable key.
#[derive(Clone, Copy, Debug, PartialEq, Eq)]
pub struct GreatestOf {
    /// The dimension.
    pub dim: Dim,
}

impl Question<tables::Member> for GreatestOf {
    ghost use Rattle.std.specs.Prelude.{true, [], ◌∷◌, pos, Some};
    ghost use Rattle.std.specs.Ordering.{eq_by_cmp, nat_cmp};
    ghost use Rattle.sqlite_value.specs.declared.value.Value.TheVariants.{Int};
    ghost use Rattle.wh_rows.specs.Types.{dim_number};
    ghost use Rattle.wh_rows.proofs.EachTable.Members.{greatest, greatest_stored};
    ghost use Rattle.wh_rows.specs.Questions.{is_of_dim};
    ghost use Rattle.wh_rows.specs.Firsts.{last_one};
    ghost use Rattle.wh_rows.specs.Texts.{last_member};

    ghost keep = { λ q r. eq_by_cmp nat_cmp (dim_number q.dim) (dim_number r.dim) };

    ghost front = { Some last_one };

    ghost bind = { λ q. Int (pos (dim_number q.dim)) ∷ [] };

    ghost can_be_asked = { λ q. Unit {0} };

    ghost means = { λ q. last_member };

    fn text(&self) -> &'static str {
        "SELECT * FROM member WHERE dim = ?1 ORDER BY dim DESC, durable DESC LIMIT 1"
    }

    fn values<'a>(&'a self, alloc: Global) -> Result<Vec<ValueRef<'a>>, Cause> {
        dim_key(alloc, self.dim)
    }

    ghost stands = { λ q. is_of_dim q.dim };

    ghost reads = { λ format q. greatest format q.dim };

    ghost reads_stored = { λ format q. greatest_stored format q.dim };
}

impl<S: Alter> Tables<S> {
    /// The greatest anchor among the accepted records of a dimension, 0 where there is none. It is no `Question`, whose rows are one list: records of a
    /// member and day share their anchor, and any of them may be shown. `Damaged`: the record that was shown is out of its type.
    pub fn greatest_anchor(&mut self, alloc: Global, dim: Dim) -> Result<u64, ReadFault>
        ensures { Answers S.Store self.old.conn self.new.conn result (λ t anchor. anchor ≡ greatest_of (map (λ r. r.anchor) (filter (λ r. eq_by_cmp nat_cmp (dim_number dim) (dim_number r.dim)) (values t.change))))
            (λ stored. IsGreatestAnchor (filter (is_record_of dim) (stored.rows OfChange))) (λ stored. IsOfGreatestDamage (filter (is_record_of dim) (stored.rows OfChange)))
            (FailsToShow change OfChange texts.greatest_anchor (Number (pos (dim_number dim)) ∷ []) (state S.Store self.old.conn) (state S.Store self.new.conn)) }
    {
        let text = "SELECT * FROM change WHERE dim = ?1 ORDER BY anchor DESC LIMIT 1";
        let rows = rows_shown::<tables::Change, S>(
            alloc,
            &mut self.conn,
            text,
            &[bound::dim(dim)],
        )?;
        Ok(first_anchor(&rows))
    }
}

/// The anchor of the first of these rows; 0 where there is none.
fn first_anchor(rows: &[ChangeRow]) -> u64
    ensures { result ≡ unwrap_or (option_map (λ r. r.anchor) (slice_get rows.now 0)) 0 }
{
    rows.first().map_or(0, |row| row.anchor)
}
