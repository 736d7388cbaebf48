// The entries of one list.
use area::refusal::Refusal;
use cases::print;
use tlv::{Neighbour, Reader};

// What stands at a place.
pub fn at(rt: &HostRuntime, list: &[u8], at: usize) {
    print::byte(rt, b':');
    match tlv::item_at(list, at) {
        Ok(None) => print::text(rt, b" end"),
        Ok(Some(x)) => entry(rt, x),
        Err(why) => refused(rt, why),
    }
    print::byte(rt, b'\n');
}

// The items from a place on, up to the end or a fault.
pub fn from(rt: &HostRuntime, list: &[u8], start: usize) {
    print::byte(rt, b'\n');
    for item in Reader::new(list, start) {
        match item {
            Ok(x) => entry(rt, x),
            Err(why) => {
                refused(rt, why);
                print::byte(rt, b'\n');
                return;
            }
        }
        print::byte(rt, b'\n');
    }
    print::text(rt, b" end\n");
}

fn refused(rt: &HostRuntime, why: Refusal) {
    print::form(rt, b" refused #", &[u64::from(why.number())]);
}

fn entry(rt: &HostRuntime, x: Neighbour) {
    print::form(
        rt,
        b" identity # metric # next #",
        &[x.identity, u64::from(x.metric), x.next as u64],
    );
}
