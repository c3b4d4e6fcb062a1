//! What the lists of a page say of it.
ghost use Rattle.std.specs.Prelude.{ℕ, List};
ghost use Rattle.heap_page_check.specs.Judged.{HasNothing, IsJudged, IsSilent};
ghost use Rattle.heap_page_check.specs.Table.{Table};
ghost use Rattle.toast_chunks.specs.declared.map.Chunk.{Chunk};
ghost use Rattle.vis_map.specs.declared.bits.MapBits.{MapBits};

/// What `judge_table_page` finds is what is broken and what is in doubt on a page, each by its sentence:
/// each finding is a rule that is broken at its place, each place that can't be judged is in doubt, and
/// each place where a rule is broken or something is in doubt is listed. The late findings are values that
/// aren't whole, and the chunks rows, each once. Of a page of which nothing is listed, what the page and the
/// visibility map say is true, one root reaches each live tuple, and no value and no row is passed over. It
/// does nothing.
pub fn pages_are_judged()
    ensures judged { (table : Table) (chunks : List Chunk) (bits : MapBits) (block : ℕ) (page : List ℕ)
        → IsJudged table chunks bits block page }
    ensures silent { (table : Table) (chunks : List Chunk) (bits : MapBits) (block : ℕ) (page : List ℕ)
        → HasNothing table chunks bits block page → IsSilent table chunks bits block page }
{}
