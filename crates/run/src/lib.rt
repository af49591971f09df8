// A schedule's steps, run until the first that is refused.
#![tactic(auto)]

ghost use Rattle.std.specs.Prelude.{replicate};
ghost use Rattle.texts.specs.Schedule.{steps_at};
ghost use Rattle.writes.specs.Records.{no_write};
ghost use Rattle.run.specs.Run.{ran};
ghost use Rattle.run.specs.Ends.{Ends};

use schedule::Section;
use state::Machine;
use turn::Ended;

// The steps of a section, run with 1,024 records lent: the line of each taken step is put into the buffer.
pub fn run_steps(text: &[u8], s: Section, mut m: Machine, out: &mut [u8]) -> Ended
    ensures { Ends (ran m (replicate 1024 no_write) (steps_at text.now s)) out.old result out.new }
{
    let mut ws = turn::no_writes();
    let mut g = turn::begin(text, s);
    while let Some(asked) = g.ahead.asked {
        let done = machine::step_by(m, &mut ws, asked);
        m = done.machine;
        g = turn::go_on(text, out, g, asked.step, done.answer);
    }
    turn::finish(m, g, ws)
}
