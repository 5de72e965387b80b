//! Runs as pieces that meet on a board.
use crate::stretches::LendsStretches;
use std::alloc::Global;
use std::marker::PhantomData;
use sym_base::NoMemory;
use sym_board::Piece;
use sym_run::Run;

/// The run of neighbouring stretches of a round, which values of type `S` lend.
#[derive(Drop)]
pub(crate) struct RunPiece<S> {
    pub(crate) run: Run,
    pub(crate) of: PhantomData<S>,
}

impl<S: LendsStretches + Send> Piece for RunPiece<S> {
    ghost use Rattle.sym_workers.specs.Pieces.{StandsBetween};

    type Input = S;

    ghost stands_for = { λ s lo hi piece. StandsBetween (S.lent s) (S.size s) lo hi piece.run };

    fn join(self, alloc: Global, input: &S, right: RunPiece<S>) -> Result<RunPiece<S>, NoMemory> {
        let RunPiece { run, of } = self;
        let RunPiece { run: next, of: _of } = right;
        let work = input.work();
        let run = run.join(alloc, &work.checked, next, work.limit)?;
        Ok(RunPiece { run, of })
    }
}
