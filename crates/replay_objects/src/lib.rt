// The objects that a caller names: the register's refusals 11 and 12, and an event's 25 to 27.
// Above `replay`, whose definitions its contracts cite, `replay_rows` and `net_lookup`. The calls on a trail, the checkpoints
// and the trace files use it.

#![tactic(auto)]

mod kinds;
pub mod objects;
pub mod register;
