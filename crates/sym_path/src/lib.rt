//! Paths: what some records do to a state that isn't known. A path is a constraint on the state
//! before them and what they make of it; a segment is a list of paths.
#![tactic(auto)]

mod admission;
mod cell_constraints;
mod changes;
mod composition;
mod drafts;
mod fits;
mod form;
mod identity;
mod joins;
mod kinds;
pub mod laws;
mod led_outcomes;
mod outcomes;
mod pair_count;
mod part;
mod path;
mod possible_pairs;
mod preimages;
mod segment;
mod settled;
mod succession;
mod within;

pub use composition::compose;
pub use form::{Form, Forms};
pub use joins::{join_paths, joinable};
pub use pair_count::pairs;
pub use part::{Constraint, Part};
pub use path::{Path, PathEnd};
pub use possible_pairs::possible;
pub use segment::Segment;
pub use settled::settle;
pub use succession::follow;
pub use within::{Composition, compose_within};
