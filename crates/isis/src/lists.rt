// The lists, each behind its length.
//     fill         judges n lists and whether bytes follow them, and lowers a row of the metric table by each
//     fill_row     the same for one list
//     linked       the router that an entry is a link to, or the fault of the entry
//     first        the first list, and what follows it
//     count        how many lists there are
ghost use Rattle.std.specs.Prelude.{◌≡◌, ◌+◌, ◌<◌, ◌≤◌, length, take, drop};
ghost use Rattle.std.specs.Prelude.{IfOk, MatchOption, Some};
ghost use Rattle.area.specs.Bytes.{two};
ghost use Rattle.area.specs.Limits.{width};
ghost use Rattle.area.specs.Refusals.{verdict_number};
ghost use Rattle.tlv.specs.Items.{items};
ghost use Rattle.isis.specs.Identities.{row_count, RowsIn, router_of};
ghost use Rattle.isis.specs.Lists.{neighbour_refusal, items_refusal, list_count};
ghost use Rattle.isis.specs.Isis.{lists_refusal, listed, no_links};
ghost use Rattle.isis.specs.Rows.{lowered_row};

use crate::identities::router_of;
use area::limits::WIDTH;
use area::refusal::Refusal;
use tlv::{Neighbour, Reader};

pub(crate) fn fill(
    n: usize,
    identities: &[u8],
    lists: &[u8],
    table: &mut [u32],
) -> Result<(), Refusal>
    requires few { n ≤ width }
    requires rows_in { RowsIn n identities.now (row_count identities.now) }
    requires clear { table.old ≡ no_links }
    ensures answer { verdict_number result ≡ lists_refusal n identities.now lists.now }
    ensures metrics { IfOk result (λ _. table.new ≡ listed n identities.now lists.now) }
{
    let mut rest = lists;
    // Rows by their numbers: of rows that an iterator has lent, a proof knows no cell afterwards.
    for i in 0..n {
        let (list, after) = first(rest).ok_or(Refusal::Incomplete)?;
        let start = WIDTH * i;
        let end = start + WIDTH;
        fill_row(identities, i, list, &mut table[start..end])?;
        rest = after;
    }
    if !rest.is_empty() {
        return Err(Refusal::Trailing);
    }
    Ok(())
}

// Lowers the row of router i by the metrics of its list, up to the first fault.
#[tactic(auto, using(crate::proofs::LowerLaws::row_laws))]
fn fill_row(identities: &[u8], i: usize, list: &[u8], row: &mut [u32]) -> Result<(), Refusal>
    requires row_len { length row.old ≡ width }
    requires rows_in { RowsIn width identities.now (row_count identities.now) }
    ensures answer { verdict_number result ≡ items_refusal identities.now i (items list.now) }
    ensures metrics { IfOk result (λ _. row.new ≡ lowered_row identities.now list.now row.old) }
{
    for x in Reader::new(list, 0) {
        let x = x?;
        let j = linked(identities, i, x)?;
        row[j] = row[j].min(x.metric);
    }
    Ok(())
}

// The router that an entry in the list of router i is a link to.
#[tactic(auto, using(crate::proofs::ListLaws::neighbour_laws))]
fn linked(identities: &[u8], i: usize, x: Neighbour) -> Result<usize, Refusal>
    ensures answer { verdict_number result ≡ neighbour_refusal identities.now i x }
    ensures router { IfOk result (λ j. router_of identities.now x.identity ≡ Some j) }
{
    let j = router_of(identities, x.identity).ok_or(Refusal::UnknownIdentity)?;
    if j == i {
        return Err(Refusal::SelfLink);
    }
    if x.metric == 0 {
        return Err(Refusal::Metric);
    }
    Ok(j)
}

// The first list, and what follows it; none where it is not all there.
fn first(lists: &[u8]) -> Option<(&[u8], &[u8])>
    ensures { MatchOption result
        (length lists.now < 2 + two lists.now 0)
        (λ x. (2 + two lists.now 0 ≤ length lists.now)
        × (x.0.now ≡ take (two lists.now 0) (drop 2 lists.now))
        × (x.1.now ≡ drop (2 + two lists.now 0) lists.now)) }
{
    let (size, after) = lists.split_first_chunk()?;
    after.split_at_checked(usize::from(u16::from_be_bytes(*size)))
}

// How many lists begin; the last may be cut short.
#[tactic(auto, using(crate::proofs::IsisLaws::count_laws))]
pub(crate) fn count(lists: &[u8]) -> usize
    ensures { result ≡ list_count lists.now }
{
    let mut rest = lists;
    let mut begun = 0;
    while !rest.is_empty() {
        begun += 1;
        let Some((_, after)) = first(rest) else {
            return begun;
        };
        rest = after;
    }
    begun
}
