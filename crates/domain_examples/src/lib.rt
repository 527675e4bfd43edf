//! Worked domains of size rows, as tables.
#![tactic(auto)]

#[cfg(test)]
mod domains;
