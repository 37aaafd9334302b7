//! Laws of the tables that accepted commands define. They speak of the definitions alone and do nothing.

ghost use Rattle.wh_plan.specs.MovedFacts.{FactsOutsideTheDaysStay, MovedFactsAreExact, PlannedFactsAreExact};
ghost use Rattle.wh_plan.specs.Laws.{CommandsMayBeWritten, EditsAreWritten, ExactEditsAreOne, NoEditsStay, SalesAreFacts, SalesPutPlaceholders, TouchedRowsAfter, TouchedRowsAreThePlan, TouchedRowsBefore};

/// Exact edits lead from the tables of some accepted commands to the tables of others, all of them.
pub fn edits_are_written()
    ensures { EditsAreWritten }
{}

/// Between the tables of two lists of commands there is one list of exact edits.
pub fn exact_edits_are_one()
    ensures { ExactEditsAreOne }
{}

/// Between the tables of the same commands there is no edit.
pub fn no_edits_stay()
    ensures { NoEditsStay }
{}

/// The edits of a command that can be accepted may be written: each row that they put is valid.
pub fn a_command_may_be_written()
    ensures { CommandsMayBeWritten }
{}

/// The edits between the rows that the touched members have before and with a batch are those of their dimension's table.
pub fn touched_rows_are_the_plan()
    ensures plan { TouchedRowsAreThePlan }
    ensures before { TouchedRowsBefore }
    ensures after { TouchedRowsAfter }
{}

/// The facts of the touched members whose keys change with a batch of records, with their new keys, are exactly what leads
/// from the facts of the commands so far to the facts with it; of each only the keys change.
pub fn moved_facts_are_exact()
    ensures { MovedFactsAreExact }
{}

/// The facts that `DimensionShape::plan_member` moves, where it is handed a stored member's facts in whatever order and the member
/// as it is with a batch of records, are exactly what leads from the member's facts of the commands so far to its facts with the
/// batch; of each only the keys change.
pub fn planned_facts_are_exact()
    ensures { PlannedFactsAreExact }
{}

/// With a batch of records a member's facts of the days that aren't asked for stay as they were.
pub fn facts_outside_the_days_stay()
    ensures { FactsOutsideTheDaysStay }
{}

/// The facts of a batch of sales whose lines are new, no two of them the same, are exactly what leads to the facts of the
/// commands with it: each fact that was there stays as it was.
pub fn sales_are_facts()
    ensures { SalesAreFacts }
{}

/// In a dimension's table a batch of sales puts the rows of the members that it is the first to mention, in order of
/// their surrogate keys, and changes nothing else.
pub fn sales_put_placeholders()
    ensures { SalesPutPlaceholders }
{}
