// What each call from C answers and leaves, and what is proved of lists of such calls. No code.
// Above the checkpoints, `report` and `client_check`; the contracts of `client_start`, `client_trail`, `client_write`
// and `client` cite its definitions.

#![tactic(auto)]
