// What is shown of a sheet.
use area::limits::WIDTH;
use area::refusal::{Refusal, number_of};
use cases::print;

// The number of the answer and the routers, which are none where it is a refusal.
pub(crate) fn sheet(rt: &HostRuntime, n: usize, made: Result<[u8; WIDTH], Refusal>) {
    print::form(rt, b" answer #", &[u64::from(number_of(&made))]);
    match made {
        Ok(listed) => routers(rt, n, listed),
        Err(_) => routers(rt, 0, [0; WIDTH]),
    }
}

// The routers of n places, and how many of the other places are 0. There are WIDTH places, so that of a larger n none
// is shown.
pub(crate) fn routers(rt: &HostRuntime, n: usize, listed: [u8; WIDTH]) {
    let (shown, others) = listed.split_at(if n <= WIDTH { n } else { 0 });
    print::text(rt, b" sheet");
    for router in shown {
        print::form(rt, b" #", &[u64::from(*router)]);
    }
    let zeros = others.iter().filter(|k| **k == 0).count();
    print::form(rt, b" zeros #\n", &[zeros as u64]);
}
