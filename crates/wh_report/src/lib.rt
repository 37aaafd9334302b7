//! Reports: what the sales of a range of days come to, by a label that each of them has.
#![tactic(auto)]

mod column;
mod column_labels;
mod csv_buffer;
mod dumps;
mod fact;
mod fact_sums;
mod fields;
mod key_sums;
mod labels;
pub mod laws;
mod output;
mod request;
mod sales_report;
mod subject;
mod summary;
mod table_texts;
mod text;
mod totals;

pub use column::{LabelColumn, column_of};
pub use column_labels::labels_of;
pub use csv_buffer::CsvBuffer;
pub use dumps::{dump, write_table};
pub use fact::FactFault;
pub use labels::Labels;
pub use output::{ReportFault, WriteFailed, write_whole};
pub use request::{Request, RequestFault, has_reading, read_range};
pub use sales_report::{report, write, write_worked};
pub use subject::{Reading, SlotAttribute, Subject, reading_of, subject_in};
pub use summary::{AddError, Summary};
pub use table_texts::{dimension_text, header_line, row_line, table_text};
pub use text::{line_text, money, report_text, titles};
pub use totals::{Measures, Totals};
