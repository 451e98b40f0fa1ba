// What C lends: a trail, which is checked before anything else, and an event's objects as bytes.
// Above `client_answers` and the checkpoints.

#![tactic(auto)]

pub mod check;
pub mod objects;
