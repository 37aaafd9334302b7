//! What a batch of records of members writes.

pub(crate) mod batch;
pub(crate) mod moved_facts;
pub(crate) mod record_plan;
pub(crate) mod touched;
