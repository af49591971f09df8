// One step of the machine, and what its queue holds.
#![tactic(auto)]

ghost use Rattle.std.specs.Prelude.{◌≡◌};
ghost use Rattle.decision.specs.Known.{step_by};
ghost use Rattle.rules.specs.Step.{outcome, step_of, content_of};

use asking::Asked;
use rules::Done;
use state::Machine;
use step::{Answer, Step};
use writes::Write;

// One step of a thread, for every state, list and step: 14 for a state that cannot stand or a list shorter than its held count.
pub fn step(m: Machine, ws: &mut [Write], step: Step) -> Done
    ensures { outcome result ws.new ≡ step_of m ws.old step }
{
    let asked = Asked { step, known: false };
    step_by(m, ws, asked)
}

// The same where the caller may know that state and list stand, as after a step that was taken: then they are not judged anew.
pub fn step_by(m: Machine, ws: &mut [Write], asked: Asked) -> Done
    ensures { outcome result ws.new ≡ step_by asked.known m ws.old asked.step }
{
    let lent = ws.len();
    let ask = asking::ask_of(m, lent, asked);
    let found = writes::search(ws, ask.held, ask.query);
    let verdict = decision::verdict_of(m, lent, asked, ask, found);
    writes::store(ws, verdict.fill.at, verdict.fill.write);
    verdict.done
}

// What the queue holds at a rank, for ranks from tail to head less one: the weight at the greatest stamp of its slot if its status is
// 2 times rank plus 1, else `-`; 14 for a state that cannot stand. The list is held by value.
pub fn content(m: Machine, ws: [Write; 1024], rank: u32) -> Answer
    ensures { result ≡ content_of m ws rank }
{
    let ask = asking::ask_rank(m, 1024, rank);
    let found = writes::search_kept(ws, ask.held, ask.query);
    decision::content_by(m, 1024, rank, found)
}
