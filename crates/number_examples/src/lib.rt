//! Worked examples of the calls of the libraries, as tables.
#![tactic(auto)]

#[cfg(test)]
mod diagrams;
#[cfg(test)]
mod elimination;
#[cfg(test)]
mod fractions;
#[cfg(test)]
mod given;
#[cfg(test)]
mod integers;
#[cfg(test)]
mod numbers;
#[cfg(test)]
mod pivots;
#[cfg(test)]
mod rows;
#[cfg(test)]
mod sizes;
#[cfg(test)]
mod systems;
#[cfg(test)]
mod values;
