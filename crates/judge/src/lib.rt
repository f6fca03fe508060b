// What each call is answered once memory passed the gate: test 6, test 7 and the call's own, in the paper's order. Each asks for `Whole`, said once in crate
// kept; a type that knows it would ask more of the callers of `judge_hear` and the others that docs/SLIPS.md names.
#![tactic(auto)]

pub mod limits; // limits.rt: numbers of any size against their limits
pub mod forms; // forms.rt: a node's 1b as it is stored, and whether a message finds room on the board
pub mod send; // send.rt: 1a and 1c
pub mod node; // node.rt: the steps of a node, by its cell
pub mod other; // other.rt: a scan and what a node hears
