// What a run does between its steps: the line of a step that was taken is put into a buffer, and the next step is read from the text; a
// step that was refused is the last. The machine and the list of writes stay with the caller's loop.
#![tactic(auto)]

ghost use Rattle.std.specs.Prelude.{◌≡◌, replicate};
ghost use Rattle.step.specs.Refused.{refused_in};
ghost use Rattle.texts.specs.Schedule.{step_in};
ghost use Rattle.writes.specs.Records.{no_write};
ghost use Rattle.turn.specs.Going.{nothing_ahead, ahead_of, begun, going_after, left_after, ended_of};

use asking::Asked;
use form::{Due, Line};
use schedule::Section;
use state::Machine;
use step::{Answer, Step, Verb};
use writes::Write;

// What the text of a run asks next: the step, if there is one, and the lines after it. Once a step was taken, the state is known to stand.
#[derive(Clone, Copy)]
pub struct Ahead {
    pub asked: Option<Asked>,
    pub rest: Section,
}

// A run on its way: what it asks next, the number that its last step was refused by, if it was, and the place after the answers' lines.
#[derive(Clone, Copy)]
pub struct Going {
    pub ahead: Ahead,
    pub refused: Option<u32>,
    pub upto: Option<usize>,
}

// A run that came to its end.
#[derive(Clone, Copy)]
pub struct Ended {
    pub machine: Machine,
    pub refused: Option<u32>,
    pub upto: Option<usize>,
    pub writes: [Write; 1024],
}

// The step of a step line. Total, as its definition: a step line that is due is one.
fn step_in(line: Line) -> Step
    ensures { result ≡ step_in line }
{
    match line {
        Line::HeaderLine(_, _) => Step {
            thread: 0,
            verb: Verb::Go,
        },
        Line::WeightLine(_) => Step {
            thread: 0,
            verb: Verb::Go,
        },
        Line::StepLine(s) => s,
    }
}

// Nothing more is asked.
fn nothing_ahead(rest: Section) -> Ahead
    ensures { result ≡ nothing_ahead rest }
{
    Ahead { asked: None, rest }
}

// The next line of a section, where one is left and reads.
pub fn next_step(text: &[u8], s: Section, known: bool) -> Ahead
    ensures { result ≡ ahead_of text.now s known }
{
    let left = s.count;
    if left == 0 {
        return nothing_ahead(s);
    }
    match reader::line_of(text, s.at, Due::StepDue) {
        Ok(x) => {
            let step = step_in(x.value);
            let asked = Some(Asked { step, known });
            let rest = Section {
                count: left - 1,
                at: x.next,
            };
            Ahead { asked, rest }
        }
        Err(_) => nothing_ahead(s),
    }
}

// Before the first step of a section.
pub fn begin(text: &[u8], s: Section) -> Going
    ensures { result ≡ begun text.now s }
{
    let ahead = next_step(text, s, false);
    Going {
        ahead,
        refused: None,
        upto: Some(0),
    }
}

// After a step that was asked: the line of one that was taken is put into the buffer, and the next is asked; one that was refused is the
// last.
pub fn go_on(text: &[u8], out: &mut [u8], g: Going, step: Step, answer: Answer) -> Going
    ensures { (result ≡ going_after (refused_in answer) text.now g step answer out.old) × (out.new ≡ left_after (refused_in answer) g step answer out.old) }
{
    let rest = g.ahead.rest;
    let upto = g.upto;
    if let Some(number) = answer.refused() {
        let ahead = nothing_ahead(rest);
        return Going {
            ahead,
            refused: Some(number),
            upto,
        };
    }
    let next = printed::put_next(out, upto, printed::answer_line(step.thread, answer));
    let ahead = next_step(text, rest, true);
    Going {
        ahead,
        refused: None,
        upto: next,
    }
}

// After the last step.
pub fn finish(machine: Machine, g: Going, writes: [Write; 1024]) -> Ended
    ensures { result ≡ ended_of machine g writes }
{
    let upto = g.upto;
    Ended {
        machine,
        refused: g.refused,
        upto,
        writes,
    }
}

// A list of 1,024 records, before any write: there is no heap.
pub fn no_writes() -> [Write; 1024]
    ensures { result ≡ replicate 1024 no_write }
{
    let none = Write {
        cell: 0,
        stamp: 0,
        value: 0,
    };
    [none; 1024]
}
