//! Laws of what is carried. They speak of the definitions alone and do nothing.

ghost use Rattle.std.specs.Prelude.{List};
ghost use Rattle.wh_policy.specs.declared.attribute.Dim.{Dim};
ghost use Rattle.wh_history.specs.Accepted.{Accepted};
ghost use Rattle.wh_records.specs.Carried.{RangesAreJoined};
ghost use Rattle.wh_records.specs.Laws.{CarriedRecordsAreBatches, CarryingCarries, MembersAreCarried, MembersGoOn, NoCombinationComesAbout, PartsInTurnAreAll, RangesAreBatches, RowsAreCarried, SalesLeaveItSo, TextsAreReadAgain};
ghost use Rattle.wh_records.specs.Sent.{CarryingIsAccepted};

/// The text of records that one batch can hold is read as these records, under the policy whose header it has. No fault can come.
pub fn texts_are_read_again()
    ensures { TextsAreReadAgain }
{}

/// What is carried of a dimension stands in batches without a fault.
pub fn carried_records_are_batches()
    ensures all { CarriedRecordsAreBatches }
    ensures ranges { RangesAreBatches }
{}

/// Whoever asks for part after part, each from where the one before ended, gets these batches.
pub fn parts_in_turn_are_all()
    ensures { PartsInTurnAreAll }
{}

/// After the records that are carried the history says of each member what it said before: at each day, now, before and first.
/// And it has the same rows, but for their numbers.
pub fn members_are_carried()
    ensures says { MembersAreCarried }
    ensures rows { RowsAreCarried }
    // No combination of a profile comes about that no customer had.
    ensures profiles { NoCombinationComesAbout }
{}

/// What the next file accepts, late or not, makes of a member what it would make of it in the older one.
pub fn members_go_on()
    ensures { MembersGoOn }
{}

/// A making under the policy in force and the batches carry the members, and sales after them change nothing of it.
pub fn carrying_carries()
    ensures batches { CarryingCarries }
    ensures sales { SalesLeaveItSo }
{}

/// A new file accepts them all, each under an id of its own, where the limits leave room.
pub fn carrying_is_accepted()
    ensures { CarryingIsAccepted }
{}

/// Members can be carried a range at a time.
pub fn ranges_are_joined()
    ensures { (dim : Dim) (commands : List Accepted) → RangesAreJoined dim commands }
{}
