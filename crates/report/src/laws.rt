//! Laws.

ghost use Rattle.std.specs.Prelude.{ℕ, ℤ, Bool, List};
ghost use Rattle.call_components.specs.Partition.{Partition};
ghost use Rattle.cert_structure.specs.declared.parts.Parts.{Parts};
ghost use Rattle.cti_terms.specs.Listing.{Listing};
ghost use Rattle.cti_terms.specs.Tree.{Tree};
ghost use Rattle.report.specs.Assembled.{PartsAreValid};
ghost use Rattle.report.specs.ExactMappings.{BestModes, BestOverMappings};
ghost use Rattle.cert_assembly.specs.ExactModes.{ExactModesHold};
ghost use Rattle.report.specs.Refuted.{RefutationsAreShown};
ghost use Rattle.report.specs.Solution.{SolutionsAreExact, SolutionsPrintModes};
ghost use Rattle.report.specs.Unnoted.{UnnotedAreBest};

use cert_checker::valid_certificates_bound_their_modes;

/// Exact modes hold.
pub fn exact_modes_hold()
    ensures { ExactModesHold }
{}

/// Where no support was given up, the printed mappings admit what any decreasing mapping admits.
pub fn exact_modes_are_best()
    ensures admitted { (truth : (ℕ → Bool) → Tree → Bool) (expression : ℕ → Tree
        → List ℤ) (p : Listing) (comps : Partition) (parts : Parts)
        → BestOverMappings expression p comps parts truth }
    ensures modes { (truth : (ℕ → Bool) → Tree → Bool) (expression : ℕ → Tree
        → List ℤ) (p : Listing) (comps : Partition) (parts : Parts)
        → BestModes expression p comps parts truth }
{}

/// Where no note of an exact certificate says that something of a component was given up, the component's modes are the
/// best over all its linear mappings.
pub fn unnoted_modes_are_best()
    ensures { UnnotedAreBest }
{}

/// Parts whose numbers hold and whose modes are exact are those of a valid certificate.
pub fn assembled_parts_are_valid()
    ensures { PartsAreValid }
{}

/// A refutation of the model can fail the check of a certificate only by a number that does not fit.
pub fn refutations_are_shown()
    ensures { RefutationsAreShown }
{}

/// The facts of a solution, which `certificate_of` gives, are a certificate that is valid and exact, by term size, and
/// whose modes bound their queries.
///
/// The names are those of the program's predicates, and no two are alike.
pub fn solutions_are_exact()
    ensures { SolutionsAreExact }
{
    valid_certificates_bound_their_modes();
}

/// The modes of each predicate in a solution are those that its certificate prints.
pub fn solutions_print_modes()
    ensures { SolutionsPrintModes }
{}
