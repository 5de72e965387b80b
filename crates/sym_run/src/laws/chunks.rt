//! The records of chunks.
ghost use Rattle.std.specs.Prelude.{◌≡◌, ◌++◌, ℕ, All, List};
ghost use Rattle.sym_check.specs.Plan.ScriptPlans.{ScriptPlan};
ghost use Rattle.sym_table.specs.ChunkRecords.{RunOn, all_records, all_rows};
ghost use Rattle.sym_table.specs.RowRecords.{in_turn, records_or_bad};
ghost use Rattle.sym_table.specs.declared.chunk.Chunk.{Chunk as OneChunk};
ghost use Rattle.sym_table.specs.declared.header.Header.{Header as OneHeader};

/// The records of chunks and more are those of the chunks and then the others' (`more`). The
/// records of chunks under one header that run on are those of their rows (`rows`): so rows have
/// the same records however they are cut into chunks.
pub fn chunks_run_on()
    ensures more { (p : ScriptPlan) (first rest : List OneChunk) →
        all_records p (first ++ rest) ≡ in_turn (all_records p first) (all_records p rest) }
    ensures rows { (p : ScriptPlan) (header : OneHeader) (n : ℕ) (chunks : List OneChunk) →
        All (λ (chunk : OneChunk). chunk.header ≡ header) chunks → RunOn n chunks →
        all_records p chunks ≡ records_or_bad p header n (all_rows chunks) }
{}
