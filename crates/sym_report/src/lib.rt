//! Reports: what is shown of each group, and its text in the forms `table`, `csv` and `pairs`.
#![tactic(auto)]

mod calls;
mod chosen;
mod csvs;
mod fields;
mod form;
mod keys;
mod page;
mod pairs;
mod report;
mod rows;
mod shown;
mod table;

pub use calls::{heads, report_row};
pub use chosen::{choose, is_named, report_bytes};
pub use csvs::CsvForm;
pub use form::ReportForm;
pub use pairs::PairsForm;
pub use report::write_report;
pub use rows::{Heads, Row, RowBody};
pub use table::TableForm;
