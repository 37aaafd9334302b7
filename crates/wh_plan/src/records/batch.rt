//! A batch of dimension records.

use wh_policy::{AttributeType, Dim, DimensionRecord};

/// A batch of records of one dimension, with the types of its slots.
#[derive(Drop)]
pub(crate) struct Batch<'a> {
    pub(crate) dim: Dim,
    pub(crate) types: &'a [AttributeType],
    pub(crate) records: &'a [DimensionRecord],
}
