//! Tests of objects behind desks: how they run there, and that a desk opens where memory is at hand. They stand here, and not in
//! `wf_desk`, since a crate with tests is proved once more with them.
#![tactic(auto)]

#[cfg(test)]
mod counter;
#[cfg(test)]
mod gate;
#[cfg(test)]
mod sending;
#[cfg(test)]
mod shelf;
