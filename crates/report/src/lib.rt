// The lines of the report (the sheet) of a trail in lent bytes, and what the whole report is.
// Above `replay_counts`, which reads the numbers, and `report_lines`, which writes them. `report_parts` puts the whole report
// together.

#![tactic(auto)]

pub mod trail;
