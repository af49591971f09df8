// One step for callers in another language: the state as an image of numbers.
#![tactic(auto)]

ghost use Rattle.std.specs.Prelude.{◌≡◌};
ghost use Rattle.image.specs.Image.{words_of, machine_of};
ghost use Rattle.number.specs.Buffer.{placed};
ghost use Rattle.outside.specs.Asked.{step_asked, is_asked, answer_words};
ghost use Rattle.outside.specs.Call.{lent, call_number, refused_call, step_for, number_called, left, called};
ghost use Rattle.step.specs.Answer.{number_of};

use form::Line;
use laws::{both, item_or};
use rules::Done;
use state::Machine;
use step::{Answer, Step, Verb};
use words::put_words;
use writes::Write;

fn step_asked(s: &[u32]) -> Step
    ensures { result ≡ step_asked s.now }
{
    let thread = item_or(s, 0, 0);
    let n = item_or(s, 1, 0);
    let a = item_or(s, 2, 0);
    let b = item_or(s, 3, 0);
    let c = item_or(s, 4, 0);
    let verb = form::verb_of(n as usize, a, b, c);
    Step { thread, verb }
}

// The words say a line of the table. Four of the five are compared with its fields: a `Fields` made of them would have to name the fifth.
fn is_asked(s: &[u32]) -> bool
    ensures { result ≡ is_asked s.now }
{
    if s.len() < 5 {
        return false;
    }
    let step = step_asked(s);
    let f = form::fields_of(Line::StepLine(step));
    let row = (item_or(s, 1, 0) as usize) == f.form;
    let a = item_or(s, 2, 0) == f.a;
    let b = item_or(s, 3, 0) == f.b;
    let c = item_or(s, 4, 0) == f.c;
    both(both(row, a), both(b, c))
}

// Why a call is refused before its step, by the paper's numbers: it asks no step, is lent no image, or no room for the answer.
#[derive(Clone, Copy)]
enum CallRefusal {
    NoStep = 2,
    NoImage = 14,
    NoRoom = 15,
}

impl CallRefusal {
    fn number(self) -> u32
        ensures { result ≡ call_number self }
    {
        self as u32
    }
}

fn refused_call(state: &[u32], asked: &[u32], room: usize) -> Option<CallRefusal>
    ensures { result ≡ refused_call state.now asked.now room }
{
    if room < 2 {
        return Some(CallRefusal::NoRoom);
    }
    if !is_asked(asked) {
        return Some(CallRefusal::NoStep);
    }
    if !image::is_image(state) {
        return Some(CallRefusal::NoImage);
    }
    None
}

// What a call asks, and why it is refused before its step, if it is. No Result: a refused call runs a step too, so that each call is three
// lines, one after the other.
#[derive(Clone, Copy)]
struct Call {
    refused: Option<CallRefusal>,
    machine: Machine,
    step: Step,
}

// A refused call asks a step that no state takes, which changes nothing.
fn call_of(state: &[u32], asked: &[u32], room: usize) -> Call
    ensures { (result.refused ≡ refused_call state.now asked.now room) × (result.machine ≡ machine_of state.now) × (result.step ≡ step_for result.refused asked.now) }
{
    let refused = refused_call(state, asked, room);
    let machine = image::machine_of(state);
    let step = match refused {
        None => step_asked(asked),
        Some(_) => Step {
            thread: 0,
            verb: Verb::Go,
        },
    };
    Call {
        refused,
        machine,
        step,
    }
}

// An answer in the two words that callers in C read.
fn answer_words(a: Answer) -> [u32; 2]
    ensures { result ≡ answer_words a }
{
    match a {
        Answer::Dash => [0, 0],
        Answer::Ok => [1, 0],
        Answer::Value { value } => [2, value],
        Answer::Yes => [3, 0],
        Answer::No => [4, 0],
        Answer::None => [5, 0],
        Answer::Got { weight } => [6, weight],
        Answer::Refused { number } => [7, number],
    }
}

// What a step leaves, put into an image and an answer where it is taken: the number that the call returns to C, its own first.
fn put_done(state: &mut [u32], answer: &mut [u32], refused: Option<CallRefusal>, done: Done) -> u32
    ensures { (result ≡ number_called refused (number_of done.answer)) × (state.new ≡ left result (placed state.old 0 (words_of done.machine)) state.old) × (answer.new ≡ left result (placed answer.old 0 (answer_words done.answer)) answer.old) }
{
    if let Some(why) = refused {
        return why.number();
    }
    let said = done.answer;
    if let Some(number) = said.refused() {
        return number;
    }
    let next = done.machine;
    let image = words::words_of(next);
    put_words(state, &image);
    let words = answer_words(said);
    put_words(answer, &words);
    0
}

// One step of the machine whose image is lent, for any image, list and step asked: 0 where it is taken, else the number that the call is
// refused by, since C has no Result. Only a taken one writes: the image, the list as the step leaves it, the two words of the answer.
pub fn dentralupo_step(
    state: &mut [u32],
    writes: &mut [Write],
    asked: &[u32],
    answer: &mut [u32],
) -> u32
    ensures { lent result state.new writes.new answer.new ≡ called state.old writes.old asked.now answer.old }
{
    let call = call_of(state, asked, answer.len());
    let done = machine::step(call.machine, writes, call.step);
    put_done(state, answer, call.refused, done)
}
