// The report of any text: what each step was answered, what the queue holds at the end, and the first step that was refused.
#![tactic(auto)]

ghost use Rattle.std.specs.Prelude.{◌≡◌, ◌+◌, ◌-◌, ◌^◌, ◌≤◌, length};
ghost use Rattle.printed.specs.Printed.{page, put_lines};
ghost use Rattle.texts.specs.Schedule.{weights_at, schedule_of};
ghost use Rattle.reported.specs.Report.{heading, text_line, rank_lines, queue_lines, refused_lines, run_lines, run_of, reported};
ghost use Rattle.reported.specs.Buffer.{Reports};

use fault::Refusal;
use printed::{Field, Printed, Word};
use schedule::Sections;
use state::Machine;
use writes::Write;

// A report: its first line, and the place after the other lines in the buffer.
#[derive(Clone, Copy)]
pub struct Reported {
    pub first: Printed,
    pub upto: Option<usize>,
}

// A word and a count.
fn count_line(w: Word, n: u32) -> Printed
    ensures { result ≡ heading w n }
{
    Printed::Two(Field::Says(w), Field::Counts(n as u64))
}

fn text_line(r: Refusal) -> Printed
    ensures { result ≡ text_line r }
{
    let n = fault::number_of(r);
    let at = fault::place_of(r);
    Printed::Three(
        Field::Says(Word::Text),
        Field::Counts(n as u64),
        Field::Counts(at as u64),
    )
}

fn ranks_between(tail: u32, head: u32) -> u32
    ensures { (result ≡ head - tail) × (tail + result ≤ 2 ^ 32) }
{
    head.saturating_sub(tail)
}

// What the queue holds, a line for each rank from one on.
fn put_ranks(
    m: Machine,
    ws: [Write; 1024],
    count: u32,
    out: &mut [u8],
    upto: Option<usize>,
) -> Option<usize>
    requires { m.tail.value + count ≤ 2 ^ 32 }
    ensures { page result out.new ≡ put_lines (page upto out.old) (rank_lines m ws count m.tail.value) }
{
    let tail = m.tail;
    let first = tail.value;
    let mut w = upto;
    for i in 0..count {
        let k = first + i;
        let a = machine::content(m, ws, k);
        w = printed::put_next(out, w, printed::answer_line(k, a));
    }
    w
}

fn put_queue(m: Machine, ws: [Write; 1024], out: &mut [u8], upto: Option<usize>) -> Option<usize>
    ensures { page result out.new ≡ put_lines (page upto out.old) (queue_lines m ws) }
{
    let head = m.head;
    let tail = m.tail;
    let count = ranks_between(tail.value, head.value);
    let w = printed::put_next(out, upto, count_line(Word::Queue, count));
    put_ranks(m, ws, count, out, w)
}

fn put_refused(
    out: &mut [u8],
    upto: Option<usize>,
    taken: u32,
    refused: Option<u32>,
) -> Option<usize>
    ensures { page result out.new ≡ put_lines (page upto out.old) (refused_lines taken refused) }
{
    match refused {
        None => printed::put_next(out, upto, count_line(Word::Refused, 0)),
        Some(number) => {
            let w = printed::put_next(out, upto, count_line(Word::Refused, 1));
            let step = (taken as u64) + 1;
            printed::put_next(
                out,
                w,
                Printed::Two(Field::Counts(step), Field::Counts(number as u64)),
            )
        }
    }
}

// The report of a text whose sections were taken.
fn report_run(text: &[u8], s: Sections, out: &mut [u8]) -> Reported
    requires { (length (weights_at text.now s.plain) ≤ 16) × (length (weights_at text.now s.flag) ≤ 8) }
    ensures { Reports (run_lines (run_of (schedule_of text.now s))) out.old result out.new }
{
    let steps = s.steps;
    let opened = fresh::open_text(text, s);
    let ended = run::run_steps(text, steps, opened, out);
    let m = ended.machine;
    let ws = ended.writes;
    let answered = ended.upto;
    let queued = put_queue(m, ws, out, answered);
    let upto = put_refused(out, queued, m.steps, ended.refused);
    let first = count_line(Word::Answers, m.steps);
    Reported { first, upto }
}

// The report of any text: its first line, and the other lines in a lent buffer.
pub fn report(text: &[u8], out: &mut [u8]) -> Reported
    ensures { Reports (reported text.now) out.old result out.new }
{
    match judging::judge(text) {
        Ok(s) => report_run(text, s, out),
        Err(r) => {
            let first = text_line(r);
            Reported {
                first,
                upto: Some(0),
            }
        }
    }
}
