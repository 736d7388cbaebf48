// The rehearsal: a line for each router, one for what the change needs, one for each step, and an end.
ghost use Rattle.std.specs.Prelude.{◌*◌, ◌≤◌, length};
ghost use Rattle.area.specs.Limits.{width, most_steps};
ghost use Rattle.machine.specs.Run.{replies, calls_of};
ghost use Rattle.text.specs.Text.{Writes};
ghost use Rattle.report.specs.Lines.{router_lines, step_lines, rehearsal_lines};

use crate::lines::{router_line, step_line};
use in_place::apply;
use needs::needs;
use plan::Record;
use text::Writer;

// The lines of the routers, of what the change needs, of the steps that the bytes stand for, and the end.
#[tactic(auto, using(crate::proofs::LineLaws::written))]
pub(crate) fn printed(fresh: &Record, bytes: &[u8], text: &mut Writer<'_>)
    requires { (fresh.now.n ≤ width) × (length bytes.now ≤ 3 * most_steps) }
    ensures lines { Writes text.old (rehearsal_lines fresh.now bytes.now) text.new }
{
    router_lines(fresh, text);
    text.line(b"needs ", needs(*fresh) as u64);
    step_lines(fresh, bytes, text);
    text.append(b"end\n");
}

// A line for each router.
#[tactic(auto, using(crate::proofs::LineLaws::written), unfolding(crate::specs::Lines::router_lines))]
fn router_lines(fresh: &Record, text: &mut Writer<'_>)
    requires { fresh.now.n ≤ width }
    ensures lines { Writes text.old (router_lines fresh.now fresh.now.n) text.new }
{
    // By number: a line shows it, and an entry of four tables.
    for i in 0..fresh.n as usize {
        router_line(i, fresh, text);
    }
}

// A line for each step that the bytes stand for, three bytes each.
fn step_lines(fresh: &Record, bytes: &[u8], text: &mut Writer<'_>)
    requires { length bytes.now ≤ 3 * most_steps }
    ensures lines { let answers = replies fresh.now (calls_of bytes.now) in
        Writes text.old (step_lines 1 answers) text.new }
{
    let mut current = *fresh;
    let mut left = bytes;
    let mut k = 0;
    // As `calls_of` takes them off: a pattern names the three bytes, which `chunks_exact` would hand over as a slice.
    while let [kind, a, b, rest @ ..] = left {
        k += 1;
        step_line(k, apply(&mut current, *kind, *a, *b), text);
        left = rest;
    }
}
