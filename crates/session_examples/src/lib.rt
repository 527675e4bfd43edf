//! Worked edits of sessions, as tables.
#![tactic(auto)]

#[cfg(test)]
mod desk;
#[cfg(test)]
mod edits;
