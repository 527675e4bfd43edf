//! Worked chains of size rows, as tables.
#![tactic(auto)]

#[cfg(test)]
mod chains;
