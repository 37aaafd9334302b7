//! Laws of the tables that accepted commands define. They speak of the definitions alone and do nothing.

ghost use Rattle.wh_model.specs.Laws.{AcceptedListsBegin, FactsAreEffective, FactsAreWhole, LateRecordsMoveFacts, LateRecordsMoveStandingFacts, SecondKeysAreApart, SoundPoliciesShowNone, UntouchedMembersKeep, VoidsTakeOutFacts, WithdrawnLinesStaySold};

/// Under a sound policy no row of a product or a store shows a profile, as a batch of customers asks.
pub fn sound_policies_show_none()
    ensures { SoundPoliciesShowNone }
{}

/// A member that a batch does not mention has the same rows under the same keys before and after it.
pub fn untouched_member_keeps()
    ensures { UntouchedMembersKeep }
{}

/// A making under a sound policy begins a list of commands that a warehouse can have accepted.
pub fn accepted_lists_begin()
    ensures { AcceptedListsBegin }
{}

/// In the tables of accepted commands no two commands have one id, and no two members of a dimension one natural key. So
/// no row that a batch puts is refused for a second key that another row has.
pub fn second_keys_are_apart()
    ensures { SecondKeysAreApart }
{}

/// After a batch of records each stored fact has the keys that its member's rows of that dimension then give it, and its
/// other keys as they were. That facts of other members stay is a law of `wh_plan`.
pub fn late_records_move_facts()
    ensures { LateRecordsMoveFacts }
{}

/// A batch of records moves facts of sales that stand and no others. A line that has no fact gets none by it, be it one that
/// was never sold or one that was withdrawn.
pub fn late_records_move_standing_facts()
    ensures { LateRecordsMoveStandingFacts }
{}

/// Each fact of the table belongs to an accepted sale of its line, and names, in each dimension, the member that this sale names
/// and its one row that holds the sale's day, whatever came late; without a card it names the customer row 0.
pub fn facts_are_effective()
    ensures { FactsAreEffective }
{}

/// Each sale that was accepted and not withdrawn has its fact, in the table of the format in force, under its ticket and line: with its
/// day, quantity, amount, cost and discount as sold, and the rows of its members (Kimball & Ross, chapter 3). So no sale that stands is
/// lost from the facts.
pub fn facts_are_whole()
    ensures { FactsAreWhole }
{}

/// A batch of voids takes out the facts of its lines and no others. It changes no member, no number and no key: members
/// that only the withdrawn sales mentioned stay.
pub fn voids_take_out_facts()
    ensures { VoidsTakeOutFacts }
{}

/// A line that was withdrawn stays one that was sold. Admission asks whether a sale's line was sold, so no batch sells it again.
pub fn withdrawn_lines_stay_sold()
    ensures { WithdrawnLinesStaySold }
{}
