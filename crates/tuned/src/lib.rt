//! A loop that was imported plays in tune: a theorem over the definitions of `wave`, `wave_in` and
//! `voice`, and no code.

#![tactic(auto)]
