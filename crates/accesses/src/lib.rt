// Tests of a plain access: of the list's room, the thread's view and the history.
#![tactic(auto)]

ghost use Rattle.std.specs.Prelude.{◌≡◌};
ghost use Rattle.accesses.specs.Accesses.{full, outdated, amiss};

use state::index;
use view::View;
use writes::Access;

// A plain write with no record free.
pub fn is_full(a: Access, held: u32, lent: usize) -> bool
    ensures { result ≡ full a held lent }
{
    match a {
        Access::Writes { .. } => {
            if 1024 <= held {
                return true;
            }
            lent <= (held as usize)
        }
        _ => false,
    }
}

// Read: stamp below the thread's view; write: not above it.
pub fn is_outdated(a: Access, v: View) -> bool
    ensures { result ≡ outdated a v }
{
    match a {
        Access::NoAccess => false,
        Access::Reads { cell, stamp } => stamp < view::stamp_of(v, index(cell)),
        Access::Writes { cell, stamp, .. } => stamp <= view::stamp_of(v, index(cell)),
    }
}

// Read: no write with that stamp; write: that stamp in the history.
pub fn is_amiss(a: Access, f: Option<u32>) -> bool
    ensures { result ≡ amiss a f }
{
    match a {
        Access::NoAccess => false,
        Access::Reads { .. } => !f.is_some(),
        Access::Writes { .. } => f.is_some(),
    }
}
