//! The stretches of a round: neighbouring chunks that one worker takes in order.
ghost use Rattle.std.specs.Prelude.{◌≡◌, ℕ};

use sym_files::Work;

/// A value that lends the work of a round, and says how many chunks each stretch of it has. Workers
/// share it by its bound: that a checked script may be shared is then shown once, where the round is
/// handed in.
pub(crate) trait LendsStretches {
    ghost use Rattle.sym_files.specs.declared.rounds.Work.{Work as OneWork};

    ghost lent: { Self → OneWork };

    ghost size: { Self → ℕ };

    fn work(&self) -> &Work
        ensures { result.now ≡ lent self.now };

    /// How many chunks a stretch has. The last one may have fewer.
    fn chunks_each(&self) -> u32
        ensures { result ≡ size self.now };
}

/// The work of a round, and how many chunks each stretch of it has.
#[derive(Clone, Copy)]
pub(crate) struct Stretches<'a> {
    pub(crate) work: &'a Work,
    pub(crate) each: u32,
}

impl<'a> LendsStretches for Stretches<'a> {
    ghost lent = { λ stretches. stretches.work.now };

    ghost size = { λ stretches. stretches.each };

    fn work(&self) -> &Work {
        self.work
    }

    fn chunks_each(&self) -> u32 {
        self.each
    }
}
