//! Sets of labels, and what an enum cell holds after some records as a form over the unknown
//! state before them.
#![tactic(auto)]

mod form;
mod label_set;

pub use form::{EnumForm, PulledLabels};
pub use label_set::LabelSet;
