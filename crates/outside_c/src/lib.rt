// One step for callers in another language, who lend the state as an image: the static library that has the symbol `dentralupo_step`.
#![tactic(auto)]

ghost use Rattle.std.specs.Prelude.{◌≡◌};
ghost use Rattle.outside.specs.Call.{lent, called};

use writes::Write;

// `outside::dentralupo_step`, by that name: a crate is a library, which others prove on, or a static library.
#[unsafe(no_mangle)]
pub extern "C" fn dentralupo_step(
    state: &mut [u32],
    writes: &mut [Write],
    asked: &[u32],
    answer: &mut [u32],
) -> u32
    ensures { lent result state.new writes.new answer.new ≡ called state.old writes.old asked.now answer.old }
{
    outside::dentralupo_step(state, writes, asked, answer)
}
