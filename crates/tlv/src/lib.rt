// Entries of extended IS reachability (TLV 22, RFC 5305), one after another (02, No. 6).
//     Reader       holds the lent bytes of a list and a position in them: `item` is what stands there, and `after` the
//                  reader behind it. As an iterator it gives the entries from its position on, up to the first fault
//     item_at      what stands at a place: it decodes, and the reader's calls are thin calls over it
// What stands where is specs/Items.antt. That two identities are equal as numbers exactly if their bytes are, and what
// a loop over the items of a list needs, is proofs/ItemLaws.antt.
#![tactic(auto)]

ghost use Rattle.std.specs.Prelude.{◌≡◌};
ghost use Rattle.std.specs.Iterator.{YieldsFirst, item_count};
ghost use Rattle.tlv.specs.Items.{item_at, place_after, items_at};

use area::refusal::Refusal;

// Bytes of an entry before its sub-TLVs: identity, metric, and how many bytes of sub-TLVs follow.
const HEAD: usize = 11;

// The most bytes of sub-TLVs that an entry has.
const MOST_SUB_TLVS: usize = 244;

// What an entry says: its neighbour's identity as one number, the metric, and the place after the sub-TLVs.
#[derive(Clone, Copy)]
pub struct Neighbour {
    pub identity: u64,
    pub metric: u32,
    pub next: usize,
}

// The lent bytes of a list, and a position in them.
#[derive(Clone, Copy)]
pub struct Reader<'a> {
    pub bytes: &'a [u8],
    pub at: usize,
}

impl<'a> Reader<'a> {
    pub fn new(bytes: &'a [u8], at: usize) -> Reader<'a>
        ensures reader { (result.bytes ≡ bytes.entry) × (result.at ≡ at) }
    {
        Reader { bytes, at }
    }

    // What stands at the reader's place.
    pub fn item(self) -> Result<Option<Neighbour>, Refusal>
        ensures item { result ≡ item_at self.entry.bytes.now self.entry.at }
    {
        item_at(self.bytes, self.at)
    }

    // The reader behind the entry at its place; as it is where there is no entry.
    #[tactic(auto, unfolding(crate::specs::Items::place_after))]
    pub fn after(self) -> Reader<'a>
        ensures reader { (result.bytes ≡ self.entry.bytes)
            × (result.at ≡ place_after self.entry.bytes.now self.entry.at) }
    {
        match self.item() {
            Ok(Some(x)) => Reader { at: x.next, ..self },
            Ok(None) => self,
            Err(_) => self,
        }
    }
}

impl<'a> Iterator for Reader<'a> {
    type Item = Result<Neighbour, Refusal>;

    ghost next_gives = { YieldsFirst (λ s. items_at s.bytes.now s.at) };

    ghost remaining = { item_count (λ s. items_at s.bytes.now s.at) };

    // Behind a fault the reader is at the end.
    #[tactic(auto, using(crate::proofs::ItemLaws::next_laws))]
    fn next(&mut self) -> Option<Result<Neighbour, Refusal>> {
        match self.item() {
            Ok(None) => None,
            Ok(Some(x)) => {
                self.at = x.next;
                Some(Ok(x))
            }
            Err(why) => {
                self.at = self.bytes.len();
                Some(Err(why))
            }
        }
    }
}

// What stands at a place of a list: nothing more, an entry, or a fault.
#[tactic(auto, using(crate::proofs::ItemLaws::item_laws))]
pub fn item_at(bytes: &[u8], at: usize) -> Result<Option<Neighbour>, Refusal>
    ensures item { result ≡ item_at bytes.now at }
{
    if bytes.len() <= at {
        return Ok(None);
    }
    let (head, rest): (&[u8; HEAD], &[u8]) = bytes[at..]
        .split_first_chunk()
        .ok_or(Refusal::PastList)?;
    let [a, b, c, d, e, f, g, x, y, z, sub_tlvs] = *head;
    let skipped = usize::from(sub_tlvs);
    if rest.len() < skipped {
        return Err(Refusal::PastList);
    }
    if MOST_SUB_TLVS < skipped {
        return Err(Refusal::LongSubTlvs);
    }
    Ok(Some(Neighbour {
        identity: u64::from_be_bytes([0, a, b, c, d, e, f, g]),
        metric: u32::from_be_bytes([0, x, y, z]),
        next: at + HEAD + skipped,
    }))
}
