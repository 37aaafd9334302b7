//! What `explain` says below its answer: where and why a command would be refused, and what it may hold.
#![tactic(auto)]

mod batch;
mod code_pages;
mod encoding;
mod explanation;
mod field;
mod further;
mod header;
mod kind;
mod left_out;
mod line;
mod line_texts;
mod members;
mod number;
mod policy;
mod policy_place;
mod records;
mod refused;
mod row;
mod shown;
mod views;
mod wanted;

pub use explanation::{
    SentCommand, add_bad_policy, add_columns, add_kind, add_refusal, add_rules, add_warnings,
};
pub use header::push_names;
pub use left_out::{LeftOut, values_left_out};
pub use line::{TracedLines, refused_lines};
pub use shown::push_number;
pub use views::views_text;
