//! What holds of every policy file.

ghost use Rattle.wh_policy.specs.Laws.{IsAcceptedExactly, FaultsAreThere, IsNotTomlExactly, IsReadAsWritten, PoliciesAreSound, TypesHaveNumbers, NamesAreFound, NoOthersAreFound, FitsExactly, DaysLieBetweenTheKeys};

/// A file is accepted exactly where it is a TOML table in which none of the faults is.
pub fn accepted_exactly()
    ensures { IsAcceptedExactly }
{}

/// The fault that is answered is in the file; and it is `NotToml` exactly where the file is no TOML table.
pub fn faults_are_there()
    ensures fault { FaultsAreThere }
    ensures not_toml { IsNotTomlExactly }
{}

/// Such a file is read as the policy that its table writes: attributes by slot, years and holidays.
pub fn read_as_written()
    ensures { IsReadAsWritten }
{}

/// What every policy that is read keeps: one to six attributes a dimension, each with a name of its own, up to 30 years
/// within 1900 to 2199, and holidays within them.
pub fn policies_are_sound()
    ensures { PoliciesAreSound }
{}

/// A type is found by its number, and by no other.
pub fn types_have_numbers()
    ensures { TypesHaveNumbers }
{}

/// In a policy that was read each attribute is found by its name, with its slot and type, and nothing else is.
pub fn names_are_found()
    ensures found { NamesAreFound }
    ensures others { NoOthersAreFound }
{}

/// A newer policy fits exactly where each dimension's names begin with the old ones, and its years hold the old ones.
pub fn fits_exactly()
    ensures { FitsExactly }
{}

/// A day lies in some years exactly where it is between their two keys. So the calendar's rows of these years are those of the days
/// between them.
pub fn between_the_keys()
    ensures { DaysLieBetweenTheKeys }
{}
