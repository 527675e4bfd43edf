//! Norms in words.

ghost use Rattle.std.specs.Prelude.{◌≡◌, option_map};
ghost use Rattle.command_words.specs.Words.{norm_in, norm_of};

use term_size::NormName;

/// The norm that a text names: `term` or `list`.
fn norm_in(text: &str) -> Option<NormName>
    ensures { result ≡ norm_in text.now }
{
    if text == "term" {
        return Some(NormName::Term);
    }
    if text == "list" {
        return Some(NormName::List);
    }
    None
}

/// The norm that an option's value names, which is term size where it is absent.
pub fn norm_of(text: Option<&str>) -> Option<NormName>
    ensures { result ≡ norm_of (option_map (λ s. s.now) text.entry) }
{
    match text {
        Some(text) => norm_in(text),
        None => Some(NormName::Term),
    }
}
