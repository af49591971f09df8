// The whole text of a schedule, judged.
#![tactic(auto)]

ghost use Rattle.std.specs.Prelude.{◌≡◌};
ghost use Rattle.schedule.specs.Sections.{judged};

use fault::Refusal;
use schedule::Sections;

// A text of any bytes and any length, judged: its length first, then its sections from the front.
pub fn judge(text: &[u8]) -> Result<Sections, Refusal>
    ensures { result ≡ judged text.now }
{
    if 65536 < text.len() {
        return Err(Refusal::TooLong);
    }
    schedule::read_sections(text)
}
