//! Which voice plays a note is inaudible: a theorem about runs of calls, with no code of its own.

#![tactic(auto)]
