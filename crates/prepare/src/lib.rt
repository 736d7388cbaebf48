// A bench file before its first step: read, and its change planned.
//     prepare      Read, and then Plan on what Read gives
//     changes      the part of the file that Plan gets
// What it promises is specs/Bench.antt; that Plan gets what the file says is proofs/BenchLaws.antt.
#![tactic(auto)]

ghost use Rattle.std.specs.Prelude.{◌≡◌, ◌+◌, ◌*◌, ◌≤◌, length, IfOk};
ghost use Rattle.area.specs.Refusals.{verdict_number};
ghost use Rattle.paths.specs.Paths.{AreSame};
ghost use Rattle.plan.specs.Plan.{tables_held};
ghost use Rattle.bench_file.specs.Read.{contents_of, metrics_of};
ghost use Rattle.prepare.specs.Bench.{refusal, record_at, tables_at, listed};

use area::limits::ENTRY;
use area::refusal::Refusal;
use bench_file::{Contents, Section, read};
use paths::Topology;
use plan::{Change, Record, plan};

// Plan's record, and where the file's steps are.
#[derive(Clone, Copy)]
pub struct Start {
    pub record: Record,
    pub steps: Section,
}

// Reads the file and plans its change; the refusal is Read's or else Plan's. The tables are those that Plan is lent:
// `before` gets the metrics of the file's links, and the others are filled where neither call refuses.
#[tactic(auto, using(crate::proofs::BenchLaws::planning))]
pub fn prepare(
    file: &[u8],
    before: &mut [u32],
    metrics: &mut [u32],
    old: &mut Topology<'_>,
    new: &mut Topology<'_>,
) -> Result<Start, Refusal>
    ensures refusal { let lent = tables_held metrics.old old.old new.old in
        verdict_number result ≡ refusal file.now before.old lent }
    ensures plan { let lent = tables_held metrics.old old.old new.old in
        IfOk result (λ x. x.record ≡ record_at file.now before.old lent) }
    ensures steps { IfOk result (λ x. x.steps ≡ (contents_of file.now before.old).steps) }
    ensures metrics { before.new ≡ metrics_of file.now before.old }
    ensures tables { let lent = tables_held metrics.old old.old new.old in
        let left = tables_held metrics.new old.new new.new in
        left ≡ tables_at file.now before.old lent }
    ensures same { AreSame old.old old.new × AreSame new.old new.new }
{
    let contents = read(file, before)?;
    let change = Change {
        n: contents.n,
        hold_time: contents.hold_time,
        step_time: contents.step_time,
        metrics: before,
        list: changes(file, contents),
    };
    Ok(Start {
        record: plan(change, metrics, old, new)?,
        steps: contents.steps,
    })
}

// The changes of a file, by what it says of itself.
fn changes(file: &[u8], contents: Contents) -> &[u8]
    requires { contents.changes.at + 5 * contents.changes.count ≤ length file.now }
    ensures { result.now ≡ listed file.now contents }
{
    let Section { count, at } = contents.changes;
    &file[at..at + ENTRY * count]
}
