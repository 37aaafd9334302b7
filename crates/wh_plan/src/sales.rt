//! What a batch of sales writes.

pub mod sale_keys;
pub(crate) mod sale_plan;
pub(crate) mod sold_dimension;
