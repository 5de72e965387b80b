//! Memory that the exploring of one record leaves to the next.
ghost use Rattle.std.specs.Prelude.{◌≡◌, []};

use crate::branch::Branch;
use crate::path_lists::PathLists;
use std::alloc::Global;
use std::mem;
use sym_base::Values;
use sym_path::Path;

/// The room of a list that is kept: that of a list of paths to which one was added.
const SMALL: usize = 4;

/// Lists that exploring fills. What is in them between two calls has no meaning.
pub struct Scratch {
    /// The locals so far, by their numbers.
    pub locals: Values,
    /// The arguments of a test.
    pub args: Values,
    /// The paths that go on, where others of their segment have ended.
    pub going: Vec<Path>,
    /// What a split adds to the paths.
    pub(crate) pieces: Vec<Branch>,
}

// Written here so that the crates above don't prove it for each type inside.
impl Drop for Scratch {
    fn drop(self) {
        let Scratch {
            locals: _locals,
            args: _args,
            going: _going,
            pieces: _pieces,
        } = self;
    }
}

impl Scratch {
    /// Empty lists. It takes no memory.
    pub fn new(alloc: Global) -> Scratch
        ensures locals { result.locals ≡ [] }
        ensures args { result.args ≡ [] }
        ensures going { result.going.items ≡ [] }
    {
        Scratch {
            locals: Values::new(alloc),
            args: Values::new(alloc),
            going: Vec::new(alloc),
            pieces: Vec::new(alloc),
        }
    }

    /// These paths as those that have ended, with empty lists over the memory of earlier ones.
    pub(crate) fn take_lists(&mut self, alloc: Global, ended: Vec<Path>) -> PathLists
        ensures none { result.paths.items ≡ [] }
        ensures ended { result.ended.items ≡ ended.items }
        ensures locals { self.new.locals ≡ self.old.locals }
    {
        let mut paths = mem::replace(&mut self.going, Vec::new(alloc));
        paths.truncate(0);
        let pieces = mem::replace(&mut self.pieces, Vec::new(alloc));
        PathLists {
            paths,
            ended,
            pieces,
        }
    }

    /// Keeps the memory of lists, and gives the paths that have ended. That of the other paths is
    /// kept if it is small: it may become the list of a segment.
    pub(crate) fn keep_lists(&mut self, lists: PathLists) -> Vec<Path>
        ensures ended { result.items ≡ lists.ended.items }
        ensures locals { self.new.locals ≡ self.old.locals }
    {
        let PathLists {
            paths,
            ended,
            pieces,
        } = lists;
        if paths.capacity() <= SMALL {
            self.going = paths;
        }
        self.pieces = pieces;
        ended
    }
}
