//! What an engine is, that the promises can be kept, and that no wrong engine keeps them:
//! definitions and theorems alone.

#![tactic(auto)]
