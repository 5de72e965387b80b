//! The plain sequential program: each record makes one step of its group, in order. Its contracts
//! are the definitions of the sequential meaning.
#![tactic(auto)]

mod calls;
mod groups;
mod keys;
pub mod laws;
mod report;
mod slots;
mod states;
mod steps;
mod update;

pub use calls::{advance, columns, fold, fold_into, initial, key_into, key_of, step};
pub use groups::Groups;
pub use report::shown::{kind_labels, value_column};
pub use update::buffers::Buffers;
pub use update::conditions::{fixed_value, set_values};
pub use update::statements::name_local;
pub use update::stop::Stop;
