//! Worked examples of kinds and stated rows over columns, as tables.
#![tactic(auto)]

#[cfg(test)]
mod kinds;
#[cfg(test)]
mod stated;
