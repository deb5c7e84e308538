ghost use Rattle.std.specs.Prelude.{◌≡◌, ◌++◌, ℕ, List, take, Some, Ok};
ghost use Rattle.cedr_script.specs.declared.step.WireStep.{WireStep};
ghost use Rattle.cedr_script.specs.Logs.{LogsRead, LogsWrite, Sends, came, went};

/// The law of logs: a read adds to what came and to nothing else, and a write or a whole text that is sent to what went.
pub fn log_laws()
    ensures read { (first last : List WireStep) (count : ℕ) (buf : List ℕ) → LogsRead (Ok count) (Some first) (Some last) buf
        → (came last ≡ came first ++ take count buf) × (went last ≡ went first) }
    ensures written { (first last : List WireStep) (count : ℕ) (piece : List ℕ) → LogsWrite (Ok count) (Some first) (Some last) piece
        → (went last ≡ went first ++ take count piece) × (came last ≡ came first) }
    ensures sent { (first last : List WireStep) (bytes : List ℕ) → Sends (Some first) (Some last) bytes
        → (went last ≡ went first ++ bytes) × (came last ≡ came first) }
{}
