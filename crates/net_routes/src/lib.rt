// The tests 8 and 9 of loading, on a table to which none of 4 to 7 applies: an activity's arcs together, and the routes that
// arcs make. Above `net`; `net_refusals` asks them.

#![tactic(auto)]

pub mod kinds;
pub mod reach;
