//! What a batch writes, planned from reads of the members that it mentions.
#![tactic(auto)]

mod batch_rows;
mod by_natural;
mod edits;
pub mod fact_edits;
pub mod first_profiles;
pub mod laws;
mod naturals;
pub mod new_rows;
mod numbers;
pub mod profiles;
pub mod reading;
mod records;
pub mod sales;
mod terms;
mod voids;

pub use edits::{Edits, FactEdit};
pub use records::record_plan::plan_batch;
pub use sales::sale_plan::plan_sales;
pub use terms::Terms;
pub use voids::plan_voids;
