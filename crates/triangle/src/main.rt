// A program of one's own over the libraries: three routers, the link of 1 and 2 goes down, and four steps. It prints
// Plan's answer, the ranks, and the answers of the steps. README.md shows lines of `main`.
#![tactic(auto)]

use area::limits::{CELLS, Set, UNUSED, WIDTH};
use area::refusal::{self, Refusal};
use machine::Effect;
use machine::kinds::Kind;
use paths::Topology;
use plan::{Change, Record};
use steps::{Machine, Stepped};

fn main(rt: HostRuntime) {
    let mut new_metrics = [0u32; CELLS];
    let mut old_dist = [0u32; CELLS];
    let mut old_hops: [Set; CELLS] = [0; CELLS];
    let mut old_fours: [Set; CELLS] = [0; CELLS];
    let mut new_dist = [0u32; CELLS];
    let mut new_hops: [Set; CELLS] = [0; CELLS];
    let mut new_fours: [Set; CELLS] = [0; CELLS];
    let mut old = Topology {
        dist: &mut old_dist,
        hops: &mut old_hops,
        fours: &mut old_fours,
    };
    let mut new = Topology {
        dist: &mut new_dist,
        hops: &mut new_hops,
        fours: &mut new_fours,
    };
    let mut metrics = [UNUSED; CELLS];
    metrics[WIDTH * 0 + 1] = 1;
    metrics[WIDTH * 1 + 0] = 1;
    metrics[WIDTH * 1 + 2] = 1;
    metrics[WIDTH * 2 + 1] = 1;
    metrics[WIDTH * 0 + 2] = 3;
    metrics[WIDTH * 2 + 0] = 3;
    let change = Change {
        n: 3,
        hold_time: 0,
        step_time: 1,
        metrics: &metrics,
        list: &[1, 2, 255, 255, 255, 2, 1, 255, 255, 255], // the links 1 to 2 and 2 to 1 go down
    };
    let planned = plan::plan(change, &mut new_metrics, &mut old, &mut new);
    let fresh = print_plan(&rt, planned);
    let learned = print_step(&rt, fresh.learn(1));
    let released = print_step(&rt, learned.release(1));
    let refused = print_step(&rt, released.write(1, 2)); // router 1 still waits for 0 and 2
    let by_kind = in_place::applied(refused.now, Kind::Learn.number(), 0, 0); // on a record by value
    print_step(&rt, by_kind);
}

// Prints the answer and the ranks, and gives the machine over the record.
fn print_plan(rt: &HostRuntime, planned: Result<Record, Refusal>) -> Machine {
    let _ = println!(rt; "plan {}", refusal::number_of(&planned));
    let now = planned.unwrap_or(plan::blank());
    for rank in &now.ranks[..3] {
        let _ = println!(rt; "rank {rank}");
    }
    Machine { now }
}

// Prints the answer, and gives the machine over the record that the step hands back.
fn print_step(rt: &HostRuntime, stepped: Stepped) -> Machine {
    let _ = match stepped.answer {
        Ok(Effect::Applied) => println!(rt; "ok"),
        Ok(Effect::Ignored) => println!(rt; "ignored"),
        Err(why) => println!(rt; "refused {}", why.number()),
    };
    Machine { now: stepped.next }
}
