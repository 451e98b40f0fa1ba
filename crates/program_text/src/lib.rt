// What the program prints, by the bytes of its two files, and what is proved of it: the plain run's report, and document 01's T4.
// No code.
// Above `report`, `trace_reader` and `program_events`; the contracts of `program_open` and `conform` cite its definitions.

#![tactic(auto)]
