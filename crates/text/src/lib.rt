// Numbers in decimal, the words that lines begin with, and their fields, as text over the start of lent bytes.
// Above `fitness`, which writes FIT. `lines` puts whole lines together.

#![tactic(auto)]

mod decimal;
pub mod field;
