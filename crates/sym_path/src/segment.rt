//! A list of paths, which together say what some records do to each state.
ghost use Rattle.std.specs.Prelude.{◌≡◌, IfOk};

use crate::path::Path;
use std::alloc::Global;
use std::marker::Model;
use sym_base::{NoMemory, Sequence};

/// A list of paths. A contract sees the list.
#[derive(PartialEq, Eq)]
pub struct Segment {
    paths: Sequence<Path>,
}

impl Drop for Segment {
    fn drop(self) {
        let Segment { paths: _paths } = self;
    }
}

impl Model for Segment {
    ghost use Rattle.std.specs.Prelude.{List};
    ghost use Rattle.sym_path.specs.declared.path.Path.{Path as OnePath};
    ghost use Rattle.sym_path.specs.contracts.path.Path as path;
    ghost use Rattle.std.specs.Coded.{coded_list};

    ghost Value = { List OnePath };

    ghost coded = { coded_list (path.the_row).coded };

    ghost view = { λ segment. segment.paths };

    ghost inverse = { λ paths. record { paths = paths } };
}

impl Segment {
    /// The segment of these paths as they stand. It takes no memory.
    pub fn of(paths: Vec<Path>) -> Segment
        ensures { result ≡ paths.items }
    {
        Segment {
            paths: Sequence::of(paths),
        }
    }

    /// The paths in order.
    pub fn paths(&self) -> &[Path]
        ensures { result.now ≡ self.now }
    {
        self.paths.as_slice()
    }

    /// The vector of the paths. It takes no memory.
    pub fn into_vec(self) -> Vec<Path>
        ensures { result.items ≡ self }
    {
        let Segment { paths } = self;
        paths.into_vec()
    }

    /// An equal segment of its own.
    pub fn copy(&self, alloc: Global) -> Result<Segment, NoMemory>
        ensures { IfOk result (λ segment. segment ≡ self.now) }
    {
        Ok(Segment {
            paths: self.paths.copy(alloc)?,
        })
    }
}
