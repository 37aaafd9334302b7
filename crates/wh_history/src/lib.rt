//! The history of a member: its dated changes, the rows that show them, and the plan that leads from one rendering to
//! another.
#![tactic(auto)]

pub mod dated;
mod dimension;
mod facts;
pub mod laws;
mod member;
mod member_rows;
mod moving_days;
mod plan;
mod profiles;
mod rendering;
mod rows;
mod slots;
mod touched;
mod trial;

pub use dated::{latest, original, prior, value_at};
pub use dimension::{DimensionShape, RenderedRows};
pub use facts::{Fact, FactKeys, MemberKeys, key_in};
pub use member::{Change, Changes, Member};
pub use member_rows::{MemberPlan, render};
pub use moving_days::moves_since;
pub use plan::{Edit, PlannedRow, edit_between, plan_rows};
pub use profiles::{NumberedProfile, Profiles, profile_texts};
pub use rows::{DimRow, GREATEST_NUMBER, row_at};
pub use slots::{fill_columns, six_texts};
pub use touched::{MemberSource, TouchedMembers, anchor_of_day, give_numbers, touch_all};
pub use trial::{first_rows, no_card_row, trial_table};
