//! Laws of makings, of accepted lists and of deliveries. They speak of the definitions alone and do nothing.

ghost use Rattle.wh_sql.specs.Answers.{state_of};
ghost use Rattle.wh_plan.specs.FirstRows.{PoliciesAreGood};
ghost use Rattle.wh_admission.specs.Admission.{AcceptedListsStaySound, AdmittedListsAreSound, ContentsAreRead};
ghost use Rattle.wh_engine.specs.Nights.{DeliveriesJoin, DeliveryIsANight, RedeliveryEndsTheSame, ReopeningFindsABeginning};

use crate::engine::Engine;
use sqlite::Alter;

/// Every policy that is read from a file is good, so that a warehouse can be made under it.
pub fn policies_are_good()
    ensures { PoliciesAreGood }
{}

/// A list of commands that a warehouse can have accepted stays one after each command, accepted or refused.
pub fn accepted_lists_stay_sound()
    ensures { AcceptedListsStaySound }
{}

/// The list that a warehouse has after its making and any commands that are sent is one that a warehouse can have accepted.
pub fn admitted_lists_are_sound()
    ensures { AdmittedListsAreSound }
{}

/// In that list what each command after the making says is what its kind and bytes give.
pub fn contents_are_read()
    ensures { ContentsAreRead }
{}

/// Commands that are delivered in two parts give the same result as in one.
pub fn deliveries_join()
    ensures { DeliveriesJoin }
{}

/// However many nights a delivery takes, delivering the commands that aren't acknowledged gives the result of a delivery without a stop;
/// so does delivering all of them again, where none of them is refused without a stop.
pub fn redelivery()
    ensures { RedeliveryEndsTheSame }
{}

/// What is found after each night is the list after the commands that are acknowledged, or after these and the next one.
pub fn reopening()
    ensures { ReopeningFindsABeginning }
{}

/// A delivery of an engine, whatever stopped it, and a crash after it are a night of the laws above: what the crash leaves is what is found
/// after a night that acknowledges as many commands as were answered.
pub fn deliveries_are_nights<S: Alter>(engine: &Engine<S>)
    ensures { DeliveryIsANight engine.now.session (state_of S.Store engine.now.tables) }
{}
