//! What holds of the definitions.
ghost use Rattle.std.specs.Prelude.{List};
ghost use Rattle.varlena_attrs.specs.declared.places.ToastPointer.{ToastPointer};
ghost use Rattle.toast_chunks.specs.declared.map.Chunk.{Chunk};
ghost use Rattle.toast_chunks.specs.Laws.{PointerIsTested, WholeIsTested};

/// The tests for H20 and H21 say what their sentences say, of every pointer and every list of chunks.
pub fn tests_are_sentences()
    ensures pointer { (p : ToastPointer) → PointerIsTested p }
    ensures whole { (chunks : List Chunk) (p : ToastPointer) → WholeIsTested chunks p }
{}
