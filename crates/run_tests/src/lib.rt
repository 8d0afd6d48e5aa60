//! Tests of what runs at the same time. They stand apart, since a crate that has tests is proved a second time for them.
#![tactic(auto)]

#[cfg(test)]
mod held_gate_tests;
#[cfg(test)]
mod site_workers_tests;
