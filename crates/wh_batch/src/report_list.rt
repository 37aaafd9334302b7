//! Lists of reports, each as it is asked for.

ghost use Rattle.std.specs.Prelude.{◌≡◌, [], ◌∷◌, IfOk, map};
ghost use Rattle.wh_batch.specs.ReportList.{listed_report};

use crate::entries::{Entry, EntryList};
use crate::fields::as_text;
use std::alloc::{AllocError, Global};
use wh_day::Value;

/// One report of a list, in the words that ask for it. Any texts: they are judged when the report is made.
#[derive(Debug, Drop)]
pub struct ListedReport {
    /// What the sales are summed by.
    pub attribute: Value,
    /// The word of a mode.
    pub mode: Value,
    /// The first day, as `YYYY-MM-DD` where it is good.
    pub from: Value,
    /// The last day, in the same form.
    pub to: Value,
}

/// Reports, in the order in which they are asked for.
pub type ReportList = EntryList<ListedReport>;

impl Entry for ListedReport {
    ghost entry = { listed_report };

    #[tactic(auto, unfolding(crate::specs::ReportList::listed_report))]
    fn read(alloc: Global, fields: &[&[u8]]) -> Result<Option<ListedReport>, AllocError> {
        match fields {
            [attribute, mode, from, to] => four_fields(alloc, attribute, mode, from, to),
            _ => Ok(None),
        }
    }
}

#[tactic(auto, unfolding(crate::specs::ReportList::listed_report))]
fn four_fields(
    alloc: Global,
    attribute: &[u8],
    mode: &[u8],
    from: &[u8],
    to: &[u8],
) -> Result<Option<ListedReport>, AllocError>
    ensures { IfOk result (λ report. report ≡ listed_report (attribute.now ∷ mode.now ∷ from.now ∷ to.now ∷ [])) }
{
    let (Some(attribute), Some(mode), Some(from), Some(to)) = (
        as_text(attribute),
        as_text(mode),
        as_text(from),
        as_text(to),
    ) else {
        return Ok(None);
    };
    Ok(Some(ListedReport {
        attribute: Value::new(alloc, attribute)?,
        mode: Value::new(alloc, mode)?,
        from: Value::new(alloc, from)?,
        to: Value::new(alloc, to)?,
    }))
}
