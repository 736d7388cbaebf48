// An area from link-state data (02, No. 6): n lists of IS-IS entries, and a table of identities beside them.
//     identities   the rows of the table: whether they are accepted, and the router of an identity
//     lists        whether the lists are accepted, and the metrics that they give; how many there are
//     read         judges all, and fills the metric table
// Definitions, in reading order: specs/Identities.antt, Lists.antt, Isis.antt (the promise). What a caller may conclude
// from them is proofs/AreaLaws.antt. The entries themselves are read by crate `tlv`.
#![tactic(auto)]

mod identities;
mod lists;

ghost use Rattle.std.specs.Prelude.{◌≡◌, IfOk};
ghost use Rattle.area.specs.Refusals.{verdict_number};
ghost use Rattle.isis.specs.Lists.{list_count};
ghost use Rattle.isis.specs.Isis.{area_refusal, isis_refusal, isis_metrics, listed, no_links};

use area::limits::{CELLS, WIDTH};
use area::metrics::clear;
use area::refusal::Refusal;

// Fills the metric table with the links of n lists, and with none where one of the arguments is refused.
#[tactic(auto, using(crate::proofs::IsisLaws::read_laws))]
pub fn read(n: usize, identities: &[u8], lists: &[u8], table: &mut [u32]) -> Result<(), Refusal>
    ensures answer { verdict_number result
        ≡ isis_refusal n identities.now lists.now table.old }
    ensures metrics { table.new
        ≡ isis_metrics n identities.now lists.now table.old }
{
    if table.len() != CELLS {
        return Err(Refusal::TableSize);
    }
    clear(table);
    let answer = fill(n, identities, lists, table);
    if answer.is_err() {
        clear(table);
    }
    answer
}

// How many lists begin in `lists`; the last may be cut short.
pub fn count(lists: &[u8]) -> usize
    ensures answer { result ≡ list_count lists.now }
{
    lists::count(lists)
}

// Judges n, the table of identities and the lists, in this order, and fills a metric table without links.
#[tactic(auto, using(crate::proofs::IsisLaws::fill_laws))]
fn fill(n: usize, identities: &[u8], lists: &[u8], table: &mut [u32]) -> Result<(), Refusal>
    requires clear { table.old ≡ no_links }
    ensures answer { verdict_number result ≡ area_refusal n identities.now lists.now }
    ensures metrics { IfOk result (λ _. table.new ≡ listed n identities.now lists.now) }
{
    if n < 1 || WIDTH < n {
        return Err(Refusal::RouterCount);
    }
    identities::judge(n, identities)?;
    lists::fill(n, identities, lists, table)
}
