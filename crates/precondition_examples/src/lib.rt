//! Worked preconditions and modes, as tables.
#![tactic(auto)]

#[cfg(test)]
mod solved;
