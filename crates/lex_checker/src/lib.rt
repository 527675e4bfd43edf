//! The check of a certificate of lists of level mappings.
//!
//! A certificate proves by multipliers of rows that size rows are kept and that the measures of each list drop at each
//! call, and by points that no list drops. `check` is true exactly where a certificate is valid, as `IsValid` of
//! `specs/Valid.antt` says; `ModesAreBounded` of `specs/Bounding.antt` is what that means for queries, and
//! `StuckComponentsHaveNoList` of `specs/NoList.antt` what it means for components with stuck sets.
//!
//! Depends on `lex_certificate`, which gives the parts of a certificate, and on `cert_checker` and `cert_modes`, whose
//! tests serve lists as well, but for the drops.
#![tactic(auto)]

mod bounding;
mod checking;
mod dropping;
mod excluding;
mod flattening;
mod items;
mod zeros;

pub use bounding::valid_lists_bound_their_modes;
pub use checking::check;
pub use excluding::stuck_components_have_no_list;
