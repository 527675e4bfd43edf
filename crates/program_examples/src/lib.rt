//! Worked examples of the calls of the libraries, as tables.
#![tactic(auto)]

#[cfg(test)]
mod clauses;
#[cfg(test)]
mod cycles;
#[cfg(test)]
mod lines;
#[cfg(test)]
mod reading;
#[cfg(test)]
mod runs;
#[cfg(test)]
mod sets;
#[cfg(test)]
mod terms;
#[cfg(test)]
mod tokens;
