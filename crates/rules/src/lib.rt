// What a step comes to; what it does stands in specs/. Types only.
#![tactic(auto)]

use state::Machine;
use step::Answer;
use writes::Access;

// What a step does that is taken: its answer and the machine, the step not yet counted.
#[derive(Clone, Copy)]
pub struct Done {
    pub answer: Answer,
    pub machine: Machine,
}

// What is decided of a step: its answer, the machine, and the access whose write is to be recorded.
#[derive(Clone, Copy)]
pub struct Decided {
    pub done: Done,
    pub wrote: Access,
}
