//! What runs come to.
ghost use Rattle.std.specs.Prelude.{◌≡◌, ℕ, List, length, slice_range};
ghost use Rattle.sym_base.specs.declared.values.state.Outcome.{Outcome as OneOutcome};
ghost use Rattle.sym_base.specs.declared.values.value.Key.{Key as OneKey};
ghost use Rattle.sym_check.specs.Plan.ScriptPlans.{ScriptPlan};
ghost use Rattle.sym_table.specs.ChunkRecords.{all_records};
ghost use Rattle.sym_table.specs.declared.chunk.Chunk.{Chunk as OneChunk};
ghost use Rattle.sym_run.specs.Applying.{IsApplied, applied_to};
ghost use Rattle.sym_run.specs.Runs.{IsFromTo, StandsForChunks};
ghost use Rattle.sym_run.specs.declared.runs.Applied.{Applied as OneApplied};
ghost use Rattle.sym_run.specs.declared.runs.Run.{Run as OneRun};

/// Runs of the same chunks agree, in whichever order they were joined or extended, and with
/// whichever limits: they make the same groups of any groups, or have the same bad row. So do runs
/// of two lists of chunks that have the same records. The run of all chunks of a list makes of
/// groups those after the records of all chunks.
pub fn runs_of_the_same_chunks_agree()
    ensures agree { (p : ScriptPlan) (limit other_limit : ℕ) (chunks others : List OneChunk)
        (run other : OneRun) (groups : List (OneKey × OneOutcome)) (applied answer : OneApplied) →
        all_records p (slice_range chunks run.lo run.hi)
        ≡ all_records p (slice_range others other.lo other.hi) →
        StandsForChunks p limit chunks run → StandsForChunks p other_limit others other →
        IsApplied p run groups applied → IsApplied p other groups answer → applied ≡ answer }
    ensures all { (p : ScriptPlan) (limit : ℕ) (chunks : List OneChunk) (run : OneRun)
        (groups : List (OneKey × OneOutcome)) (applied : OneApplied) →
        StandsForChunks p limit chunks run → IsFromTo 0 (length chunks) run →
        IsApplied p run groups applied →
        applied ≡ applied_to p (all_records p chunks) groups }
{}
