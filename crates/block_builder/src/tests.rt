//! A builder by hand, in a table of cases whose values come from outside, and beside the rule
//! itself.

mod bad_input;
mod by_hand;
mod by_rule;
mod cases;
mod ports;
