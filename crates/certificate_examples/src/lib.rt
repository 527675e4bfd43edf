//! Worked examples of the texts of certificates, as tables.
#![tactic(auto)]

#[cfg(test)]
mod numbers;
