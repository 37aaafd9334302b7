//! The question after a part of a table.

use crate::keyed_table::KeyedTable;
use crate::paged_table::PagedTable;
use crate::question::Question;
use sqlite::types::ValueRef;
use std::alloc::Global;
use wh_rows::Cause;

/// The part of a table that stands after a key, or its first part: some rows in the order of their keys.
#[derive(Debug, Drop)]
pub struct Page<K> {
    /// The key before the part; `None` asks for the first part.
    pub after: Option<K>,
}

impl<T: PagedTable> Question<T> for Page<T::Key> {
    ghost use Rattle.std.specs.Prelude.{Some};
    ghost use Rattle.wh_rows.specs.Parts.{forward, part_text, bind_part, is_behind, stands_behind};
    ghost use Rattle.wh_rows.specs.Names.{is_there};
    ghost use Rattle.wh_rows.proofs.Means.{means_weaker};
    ghost use Rattle.wh_sql.specs.Page.{HasKey};

    ghost keep = { λ q. is_behind T.StoredTable.layout q.after };

    ghost front = { Some (forward T.part_texts.most) };

    ghost bind = { λ q. bind_part T.KeyedTable.bind q.after };

    ghost can_be_asked = { λ q. HasKey T.StoredTable.layout q.after };

    ghost means = { λ q. part_text T.part_texts q.after };

    fn text(&self) -> &'static str {
        match self.after {
            None => T::part_statements().first,
            Some(_) => T::part_statements().after,
        }
    }

    fn values<'a>(&'a self, alloc: Global) -> Result<Vec<ValueRef<'a>>, Cause> {
        match &self.after {
            None => Ok(Vec::new(alloc)),
            Some(key) => T::key(alloc, key),
        }
    }

    ghost stands = { λ q. stands_behind T.StoredTable.layout T.KeyedTable.bind q.after };

    ghost reads = { λ format q. means_weaker _ (is_there T.KeyedTable.name format) (λ it. it.reads) (T.shows_parts format q.after) };

    ghost reads_stored = { λ format q. T.shows_parts format q.after };
}
