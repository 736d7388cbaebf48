// The running sheet: a line for each turn, and an end.
ghost use Rattle.std.specs.Prelude.{◌≤◌};
ghost use Rattle.area.specs.Limits.{width};
ghost use Rattle.text.specs.Text.{Writes};
ghost use Rattle.report.specs.Lines.{turn_lines, sheet_lines};

use crate::lines::turn_line;
use area::limits::WIDTH;
use plan::Record;
use sets::entry;
use sheet::in_turn;
use text::Writer;

// All lines of a record's sheet.
#[tactic(auto, using(crate::proofs::LineLaws::written))]
pub(crate) fn printed(fresh: &Record, text: &mut Writer<'_>)
    requires { fresh.now.n ≤ width }
    ensures lines { Writes text.old (sheet_lines fresh.now) text.new }
{
    turn_lines(fresh, &in_turn(*fresh), text);
    text.append(b"end\n");
}

// A line for each turn of the routers at these places.
#[tactic(auto, using(crate::proofs::LineLaws::written), unfolding(crate::specs::Lines::turn_lines))]
fn turn_lines(fresh: &Record, places: &[u8; WIDTH], text: &mut Writer<'_>)
    requires { fresh.now.n ≤ width }
    ensures lines { Writes text.old (turn_lines fresh.now places.now fresh.now.n) text.new }
{
    // By number: a line shows that of its turn.
    for k in 0..fresh.n as usize {
        let router = places[k];
        let writes = entry(&fresh.due, router as usize);
        let tells = entry(&fresh.telling, router as usize);
        turn_line(k as u64 + 1, router, writes, tells, text);
    }
}
