// The table of identities: rows of an identity and the number of its router.
//     judge        the first row that is cut short or has a router that is none
//     router_of    the router of an identity
ghost use Rattle.std.specs.Prelude.{◌≡◌};
ghost use Rattle.area.specs.Refusals.{verdict_number};
ghost use Rattle.tlv.specs.Items.{seven};
ghost use Rattle.isis.specs.Identities.{rows_refusal, router_of};

use area::refusal::Refusal;

// Bytes of a row: seven of an identity, and one with the number of its router.
const ROW: usize = 8;

pub(crate) fn judge(n: usize, table: &[u8]) -> Result<(), Refusal>
    ensures { verdict_number result ≡ rows_refusal n table.now }
{
    let (rows, rest) = table.as_chunks::<ROW>();
    if rows.iter().any(|row| n <= usize::from(row[7])) {
        return Err(Refusal::UnknownRouter);
    }
    if !rest.is_empty() {
        return Err(Refusal::Incomplete);
    }
    Ok(())
}

// The router of the first row with an identity.
pub(crate) fn router_of(table: &[u8], x: u64) -> Option<usize>
    ensures { result ≡ router_of table.now x }
{
    let (rows, _) = table.as_chunks::<ROW>();
    rows.iter()
        .find(|row| identity(row) == x)
        .map(|row| usize::from(row[7]))
}

// The identity of a row. The whole row is read as one number, which a machine does at once.
fn identity(row: &[u8; ROW]) -> u64
    ensures { result ≡ seven row.now 0 }
{
    u64::from_be_bytes(*row) / 256
}
