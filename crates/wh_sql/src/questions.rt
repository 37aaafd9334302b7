//! The questions that are asked of the tables.

use crate::dimension::Dimension;
use crate::keys::{dim_and_number, dim_and_text, number_key, text_key};
use crate::question::Question;
use sqlite::types::ValueRef;
use std::alloc::Global;
use wh_day::{Value, Values};
use wh_policy::Dim;
use wh_rows::{Cause, bound, tables};

/// The accepted records of one member, in order of acceptance.
#[derive(Clone, Copy, Debug, PartialEq, Eq)]
pub struct RecordsOf {
    /// The dimension of the member.
    pub dim: Dim,
    /// The durable key of the member.
    pub durable: u64,
}

impl Question<tables::Change> for RecordsOf {
    ghost use Rattle.std.specs.Prelude.{◌≡◌, true, [], ◌∷◌, pos, None, ◌&&◌};
    ghost use Rattle.std.specs.Ordering.{eq_by_cmp, nat_cmp};
    ghost use Rattle.sqlite_value.specs.declared.value.Value.TheVariants.{Int};
    ghost use Rattle.wh_rows.specs.Types.{is_number, dim_number};
    ghost use Rattle.wh_rows.proofs.EachTable.Changes.{of_member, of_member_stored};
    ghost use Rattle.wh_rows.specs.Texts.{changes_of_member};
    ghost use Rattle.wh_rows.specs.Questions.{is_of_member};

    ghost keep = { λ q r. eq_by_cmp nat_cmp (dim_number q.dim) (dim_number r.dim) && eq_by_cmp nat_cmp q.durable r.durable };

    ghost front = { None };

    ghost bind = { λ q. Int (pos (dim_number q.dim)) ∷ Int (pos q.durable) ∷ [] };

    ghost can_be_asked = { λ q. is_number q.durable ≡ true };

    ghost means = { λ q. changes_of_member };

    fn text(&self) -> &'static str {
        "SELECT * FROM change WHERE dim = ?1 AND durable = ?2 ORDER BY command, record"
    }

    fn values<'a>(&'a self, alloc: Global) -> Result<Vec<ValueRef<'a>>, Cause> {
        dim_and_number(alloc, self.dim, self.durable)
    }

    ghost stands = { λ q. is_of_member q.dim q.durable };

    ghost reads = { λ format q. of_member format q.dim q.durable };

    ghost reads_stored = { λ format q. of_member_stored format q.dim q.durable };
}

/// The rows of one member, in the order of their keys.
#[derive(Clone, Copy, Debug, PartialEq, Eq)]
pub struct RowsOf {
    /// The durable key of the member.
    pub durable: u64,
}

impl<D: Dimension> Question<D> for RowsOf {
    ghost use Rattle.std.specs.Prelude.{◌≡◌, true, [], ◌∷◌, pos, None};
    ghost use Rattle.std.specs.Ordering.{eq_by_cmp, nat_cmp};
    ghost use Rattle.sqlite_value.specs.declared.value.Value.TheVariants.{Int};
    ghost use Rattle.wh_rows.specs.Types.{is_number};
    ghost use Rattle.wh_rows.specs.Questions.{has_durable};

    ghost keep = { λ q r. eq_by_cmp nat_cmp q.durable r.durable };

    ghost front = { None };

    ghost bind = { λ q. Int (pos q.durable) ∷ [] };

    ghost can_be_asked = { λ q. is_number q.durable ≡ true };

    ghost means = { λ q. D.rows_of_means };

    fn text(&self) -> &'static str {
        D::rows_of_text()
    }

    fn values<'a>(&'a self, alloc: Global) -> Result<Vec<ValueRef<'a>>, Cause> {
        number_key(alloc, &self.durable)
    }

    ghost stands = { λ q. has_durable q.durable };

    ghost reads = { λ format q. D.finds_rows format q.durable };

    ghost reads_stored = { λ format q. D.finds_rows_stored format q.durable };
}

/// The command of an id.
#[derive(Clone, Copy, Debug)]
pub struct CommandOf<'q> {
    /// The id.
    pub id: &'q Value,
}

impl<'q> Question<tables::Command> for CommandOf<'q> {
    ghost use Rattle.std.specs.Prelude.{[], ◌∷◌, None};
    ghost use Rattle.sqlite_value.specs.declared.value.Value.TheVariants.{Text};
    ghost use Rattle.wh_rows.proofs.EachTable.Commands.{of_id, of_id_stored};
    ghost use Rattle.wh_rows.specs.Texts.{command_of_id};
    ghost use Rattle.wh_rows.specs.Questions.{has_id};
    ghost use Rattle.wh_sql.specs.Asked.{same_text};

    ghost keep = { λ q r. same_text q.id.now r.id };

    ghost front = { None };

    ghost bind = { λ q. Text q.id.now ∷ [] };

    ghost can_be_asked = { λ q. Unit {0} };

    ghost means = { λ q. command_of_id };

    fn text(&self) -> &'static str {
        "SELECT * FROM command WHERE id = ?1 ORDER BY number"
    }

    fn values<'a>(&'a self, alloc: Global) -> Result<Vec<ValueRef<'a>>, Cause> {
        text_key(alloc, self.id)
    }

    ghost stands = { λ q. has_id q.id.now };

    ghost reads = { λ format q. of_id format q.id.now };

    ghost reads_stored = { λ format q. of_id_stored format q.id.now };
}

/// The last command that gives a policy: the making, or the last migration.
#[derive(Clone, Copy, Debug, PartialEq, Eq)]
pub struct LastPolicy;

impl Question<tables::Command> for LastPolicy {
    ghost use Rattle.std.specs.Prelude.{true, [], Some};
    ghost use Rattle.wh_rows.proofs.EachTable.Commands.{last_policy as reads_last, last_policy_stored};
    ghost use Rattle.wh_rows.specs.Firsts.{last_one};
    ghost use Rattle.wh_rows.specs.Texts.{last_policy};
    ghost use Rattle.wh_rows.specs.Questions.{gives_policy, has_policy};

    ghost keep = { λ q r. gives_policy r.kind };

    ghost front = { Some last_one };

    ghost bind = { λ q. [] };

    ghost can_be_asked = { λ q. Unit {0} };

    ghost means = { λ q. last_policy };

    fn text(&self) -> &'static str {
        "SELECT * FROM command WHERE kind = 'init' OR kind = 'migrate' ORDER BY number DESC LIMIT 1"
    }

    fn values<'a>(&'a self, alloc: Global) -> Result<Vec<ValueRef<'a>>, Cause> {
        Ok(Vec::new(alloc))
    }

    ghost stands = { λ q. has_policy };

    ghost reads = { λ format q. reads_last format };

    ghost reads_stored = { λ format q. last_policy_stored format };
}

/// The member that its source calls so.
#[derive(Clone, Copy, Debug)]
pub struct MemberOf<'q> {
    /// The dimension of the member.
    pub dim: Dim,
    /// The natural key of the member.
    pub natural: &'q Value,
}

impl<'q> Question<tables::Member> for MemberOf<'q> {
    ghost use Rattle.std.specs.Prelude.{[], ◌∷◌, pos, None, ◌&&◌};
    ghost use Rattle.std.specs.Ordering.{eq_by_cmp, nat_cmp};
    ghost use Rattle.sqlite_value.specs.declared.value.Value.TheVariants.{Int, Text};
    ghost use Rattle.wh_rows.specs.Types.{dim_number};
    ghost use Rattle.wh_rows.proofs.EachTable.Members.{of_natural, of_natural_stored};
    ghost use Rattle.wh_rows.specs.Texts.{member_of_natural};
    ghost use Rattle.wh_rows.specs.Questions.{has_natural};
    ghost use Rattle.wh_sql.specs.Asked.{same_text};

    ghost keep = { λ q r. eq_by_cmp nat_cmp (dim_number q.dim) (dim_number r.dim) && same_text q.natural.now r.natural };

    ghost front = { None };

    ghost bind = { λ q. Int (pos (dim_number q.dim)) ∷ Text q.natural.now ∷ [] };

    ghost can_be_asked = { λ q. Unit {0} };

    ghost means = { λ q. member_of_natural };

    fn text(&self) -> &'static str {
        "SELECT * FROM member WHERE dim = ?1 AND natural = ?2 ORDER BY dim, durable"
    }

    fn values<'a>(&'a self, alloc: Global) -> Result<Vec<ValueRef<'a>>, Cause> {
        dim_and_text(alloc, self.dim, self.natural)
    }

    ghost stands = { λ q. has_natural q.dim q.natural.now };

    ghost reads = { λ format q. of_natural format q.dim q.natural.now };

    ghost reads_stored = { λ format q. of_natural_stored format q.dim q.natural.now };
}

/// The profile of a combination of values.
#[derive(Clone, Copy, Debug)]
pub struct ProfileOf<'q> {
    /// The texts of the six slots.
    pub values: &'q Values,
}

impl<'q> Question<tables::Profile> for ProfileOf<'q> {
    ghost use Rattle.std.specs.Prelude.{None};
    ghost use Rattle.wh_rows.specs.Rows.{slot_columns};
    ghost use Rattle.wh_rows.proofs.EachTable.Profiles.{of_values, of_values_stored};
    ghost use Rattle.wh_rows.specs.Texts.{profile_of_values};
    ghost use Rattle.wh_rows.specs.Questions.{has_values};
    ghost use Rattle.wh_sql.specs.Asked.{same_slots};

    ghost keep = { λ q r. same_slots q.values.now r.values };

    ghost front = { None };

    ghost bind = { λ q. slot_columns q.values.now };

    ghost can_be_asked = { λ q. Unit {0} };

    ghost means = { λ q. profile_of_values };

    fn text(&self) -> &'static str {
        "SELECT * FROM profile WHERE v1 = ?1 AND v2 = ?2 AND v3 = ?3 AND v4 = ?4 AND v5 = ?5 AND v6 = ?6 ORDER BY number"
    }

    fn values<'a>(&'a self, alloc: Global) -> Result<Vec<ValueRef<'a>>, Cause> {
        bound::slot_columns(alloc, self.values)
    }

    ghost stands = { λ q. has_values q.values.now };

    ghost reads = { λ format q. of_values format q.values.now };

    ghost reads_stored = { λ format q. of_values_stored format q.values.now };
}
