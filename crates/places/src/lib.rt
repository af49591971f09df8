// What a place in a call notes and waits for.
#![tactic(auto)]

ghost use Rattle.std.specs.Prelude.{◌≡◌};
ghost use Rattle.places.specs.Places.{rank_of, weight_of, place_stands, due_at};

use laws::both;
use state::Place;
use step::{LineKind, MOST};

// The rank that a place notes, and 0 where it notes none.
pub fn rank_of(p: Place) -> u32
    ensures { result ≡ rank_of p }
{
    match p {
        Place::Idle => 0,
        Place::PutStatus { rank, .. }
        | Place::PutSwap { rank, .. }
        | Place::PutWrite { rank, .. }
        | Place::PutPublish { rank }
        | Place::TakeStatus { rank }
        | Place::TakeSwap { rank }
        | Place::TakeRead { rank }
        | Place::TakeFree { rank, .. } => rank,
    }
}

// The weight that a place notes, and 0 where it notes none.
fn weight_of(p: Place) -> u32
    ensures { result ≡ weight_of p }
{
    match p {
        Place::PutStatus { weight, .. }
        | Place::PutSwap { weight, .. }
        | Place::PutWrite { weight, .. }
        | Place::TakeFree { weight, .. } => weight,
        _ => 0,
    }
}

// Every noted rank is at most the steps taken, every noted weight in range.
pub fn place_stands(p: Place, steps: u32) -> bool
    ensures { result ≡ place_stands steps p }
{
    both(rank_of(p) <= steps, weight_of(p) <= MOST)
}

// Which kind of line is due at a place.
pub fn due_at(p: Place) -> LineKind
    ensures { result ≡ due_at p }
{
    match p {
        Place::Idle => LineKind::Begins,
        Place::PutWrite { .. } | Place::TakeRead { .. } => LineKind::GoesAt,
        _ => LineKind::Goes,
    }
}
