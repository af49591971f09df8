// Rank arithmetic: the slot of a rank, the rank after it, the status numbers. Nothing else reckons with ranks.
#![tactic(auto)]

ghost use Rattle.std.specs.Prelude.{◌≡◌};
ghost use Rattle.rank.specs.Rank.{slot_of, next_rank, free_status, full_status, lapped};

pub fn slot_of(rank: u32, slots: u32) -> u32
    ensures { result ≡ slot_of slots rank }
{
    if slots == 0 {
        return rank;
    }
    rank % slots
}

pub fn next_rank(rank: u32) -> usize
    ensures { result ≡ next_rank rank }
{
    (rank as usize) + 1
}

// The status of a slot that is free for the rank.
pub fn free_status(rank: u32) -> usize
    ensures { result ≡ free_status rank }
{
    2 * (rank as usize)
}

// The status of a slot that holds the rank's weight.
pub fn full_status(rank: u32) -> usize
    ensures { result ≡ full_status rank }
{
    2 * (rank as usize) + 1
}

// The status of a slot that is free for the rank one lap on.
pub fn freed_status(rank: u32, slots: u32) -> usize
    ensures { result ≡ free_status (lapped slots rank) }
{
    2 * ((rank as usize) + (slots as usize))
}
