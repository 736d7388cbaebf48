// Metric tables.
//     clear    makes every link unused
ghost use Rattle.std.specs.Prelude.{◌≡◌, length};
ghost use Rattle.area.specs.Tables.{build};
ghost use Rattle.area.specs.Limits.{unused};

use crate::limits::UNUSED;

#[tactic(auto, using(crate::proofs::TableLaws::replicate_is))]
pub fn clear(table: &mut [u32])
    ensures cells { table.new ≡ build (length table.old) (λ _. unused) }
{
    table.fill(UNUSED);
}
