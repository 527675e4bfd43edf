//! What is known of arguments once calls have succeeded.

use certificate::{CertCell, Fact};

/// The set of one argument, counted from 0. A predicate has at most 12.
pub fn argument_set(argument: usize) -> u32 {
    match u32::try_from(argument) {
        Ok(argument) => 1u32.checked_shl(argument).unwrap_or(0),
        Err(_) => 0,
    }
}

/// The arguments whose variables are all among these.
pub fn known_arguments(sets: &[u64], variables: u64) -> u32 {
    let mut known = 0u32;
    for (argument, set) in sets.iter().enumerate() {
        if *set & !variables == 0 {
            known |= argument_set(argument);
        }
    }
    known
}

/// The variables of these arguments.
pub fn variables_of(sets: &[u64], arguments: u32) -> u64 {
    let mut variables = 0u64;
    for (argument, set) in sets.iter().enumerate() {
        if arguments & argument_set(argument) != 0 {
            variables |= *set;
        }
    }
    variables
}

/// The arguments that a mode, which counts them from 1, names.
pub fn named_arguments(mode: &[u32]) -> u32 {
    let mut arguments = 0u32;
    for number in mode {
        arguments |= argument_set(number.saturating_sub(1) as usize);
    }
    arguments
}

/// The arguments that have this cell in a cube.
fn with_cell(cube: &[CertCell], wanted: CertCell) -> u32 {
    let mut arguments = 0u32;
    for (argument, cell) in cube.iter().enumerate() {
        if *cell == wanted {
            arguments |= argument_set(argument);
        }
    }
    arguments
}

/// The arguments that are known after a call that has these before, by the rows of its predicate, or none where it
/// cannot succeed.
pub fn known_after(grounds: &[Fact], before: u32) -> Option<u32> {
    let mut after = None;
    for fact in grounds {
        if let Fact::Grounds { cube, .. } = fact
            && with_cell(cube.as_slice(), CertCell::Zero) & before == 0
        {
            let known = with_cell(cube.as_slice(), CertCell::One) | before;
            after = Some(after.unwrap_or(u32::MAX) & known);
        }
    }
    after
}

/// Whether a predicate with these rows may have an answer at which just these arguments are known.
pub fn may_have(grounds: &[Fact], known: u32) -> bool {
    for fact in grounds {
        if let Fact::Grounds { cube, .. } = fact
            && with_cell(cube.as_slice(), CertCell::Zero) & known == 0
            && with_cell(cube.as_slice(), CertCell::One) & !known == 0
        {
            return true;
        }
    }
    false
}
