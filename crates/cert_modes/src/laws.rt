//! What holding modes give. It is a function that does nothing, and whose clause is proved.

ghost use Rattle.cert_modes.specs.Claimed.{HoldingModesShow};

/// Where the modes of a certificate hold, claims that say the same have closed ground rows, preconditions that keep
/// their rule, and admitted modes.
pub fn holding_modes_show()
    ensures { HoldingModesShow }
{}
