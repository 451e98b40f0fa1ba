// Document 01's trails T1 to T10, computed over the bytes of tables and records. No code.
// Above `checkpoint`, whose calls they are.

#![tactic(auto)]
