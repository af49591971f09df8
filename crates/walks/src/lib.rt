// No code: what walks by hand shared has gone with them, since no function needs one any more.
#![tactic(auto)]
