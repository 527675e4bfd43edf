//! Worked examples of the calls of the libraries, as tables.
#![tactic(auto)]

#[cfg(test)]
mod checks;
#[cfg(test)]
mod commands;
#[cfg(test)]
mod failing;
#[cfg(test)]
mod lists;
#[cfg(test)]
mod texts;
