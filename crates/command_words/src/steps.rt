//! Numbers in words: how many nodes of a query are looked at, how many steps its derivations have, and how many
//! predicates are generated.

ghost use Rattle.std.specs.Prelude.{◌≡◌, ◌≤◌, Option, option_map, IfSome};
ghost use Rattle.command_words.specs.Words.{depth_of, number_in, predicates_in, steps_of};

/// How many nodes are looked at where the words do not say.
const USUAL_STEPS: u64 = 100_000;

/// The most nodes that the words may ask for.
const MOST_STEPS: u64 = 1_000_000;

/// The most predicates that the words may ask for.
const MOST_PREDICATES: u64 = 300;

/// How many steps the derivations have in which a loop is looked for, where the words do not say.
const USUAL_DEPTH: u32 = 8;

/// The most of these steps that the words may ask for.
const MOST_DEPTH: u64 = 12;

/// The most digits of a number of nodes or of predicates.
const MOST_DIGITS: usize = 7;

/// The most digits of a number of steps.
const MOST_DEPTH_DIGITS: usize = 2;

/// The number that a text spells with at most `digits` decimal digits, where it is from 1 to the greatest.
fn number_in(text: &[u8], digits: usize, greatest: u64) -> Option<u64>
    requires { greatest ≤ 1000000 }
    ensures number { result ≡ number_in digits greatest text.now }
    ensures range { IfSome result (λ n. (1 ≤ n) × (n ≤ greatest)) }
{
    if text.is_empty() || text.len() > digits {
        return None;
    }
    let mut value = 0;
    for byte in text {
        let Some(digit) = char::from(*byte).to_digit(10) else {
            return None;
        };
        value = value * 10 + u64::from(digit);
        if value > greatest {
            return None;
        }
    }
    if value == 0 {
        return None;
    }
    Some(value)
}

/// The number of nodes that an option's value asks for, which is 100,000 where it is absent: one to seven digits, from
/// 1 to 1,000,000.
pub fn steps_of(text: Option<&str>) -> Option<u64>
    ensures { result ≡ steps_of (option_map (λ s. s.now) text.entry) }
{
    match text {
        Some(text) => number_in(text.as_bytes(), MOST_DIGITS, MOST_STEPS),
        None => Some(USUAL_STEPS),
    }
}

/// The number of predicates that a text asks for: one to seven digits, from 1 to 300.
pub fn predicates_in(text: &str) -> Option<u32>
    ensures number { result ≡ predicates_in text.now }
    ensures range { IfSome result (λ n. (1 ≤ n) × (n ≤ 300)) }
{
    match number_in(text.as_bytes(), MOST_DIGITS, MOST_PREDICATES) {
        Some(count) => Some(count as u32),
        None => None,
    }
}

/// The number of steps that an option's value asks for, which is 8 where it is absent: one or two digits, from 1 to 12.
pub fn depth_of(text: Option<&str>) -> Option<u32>
    ensures number { result ≡ depth_of (option_map (λ s. s.now) text.entry) }
    ensures range { IfSome result (λ n. (1 ≤ n) × (n ≤ 12)) }
{
    match text {
        Some(text) => match number_in(text.as_bytes(), MOST_DEPTH_DIGITS, MOST_DEPTH) {
            Some(depth) => Some(depth as u32),
            None => None,
        },
        None => Some(USUAL_DEPTH),
    }
}
