//! Laws that every member's rows keep. They speak of the definitions alone and do nothing.

ghost use Rattle.std.specs.Prelude.{◌≡◌, ◌<◌, ◌≤◌, ◌++◌, ◌∷◌, [], ℕ, suc, nat_lt, List, length, false, true, Option, Some, None, find, slice_get};
ghost use Rattle.std.specs.List.{list_any, AllByRecursion};
ghost use Rattle.wh_day.specs.Day.{is_day};
ghost use Rattle.wh_policy.specs.Types.{is_outrigger, is_tracked};
ghost use Rattle.wh_policy.specs.declared.attribute.Dim.{Dim};
ghost use Rattle.wh_policy.specs.declared.attribute.AttributeType.{AttributeType};
ghost use Rattle.wh_policy.specs.declared.record.DimensionRecord.{DimensionRecord};
ghost use Rattle.wh_history.specs.Keys.{at_place};
ghost use Rattle.wh_history.specs.Dated.{at, dated, value_at};
ghost use Rattle.wh_history.specs.Facts.{key_in};
ghost use Rattle.wh_history.specs.Rows.{rows, rows_by, holds};
ghost use Rattle.wh_history.specs.Profiles.{profile_number};
ghost use Rattle.wh_history.specs.Known.{number_in, all_numbered, KnowsMember};
ghost use Rattle.wh_history.specs.Plan.{row_of};
ghost use Rattle.wh_history.specs.Accepted.{Accepted, Anchor, durable_key, surrogate_key, anchors, members, member_of, types_in, profiles_of};
ghost use Rattle.wh_history.specs.Tables.{key_at, member_rows, numbered_row};
ghost use Rattle.wh_history.specs.Touched.{touched, untouched, touched_by, with_batch};
ghost use Rattle.wh_history.specs.Laws.{ChangesHaveDays, DatedListsAreExact, ChangesInForce, RecordsHaveDays, EachDayHasOneRow, OneRowIsCurrent, is_of, mentions_member, IsMember, IsEffective, governs, RowsBeginWhereATrackedValueDiffers, RowsShowTheirTypes, RowsNameTheNewestProfile};
ghost use Rattle.wh_history.specs.declared.member.Change.{Change};
ghost use Rattle.wh_history.specs.declared.member.Member.{Member};
ghost use Rattle.wh_history.specs.declared.rows.DimRow.{DimRow};

/// Whatever was accepted of a member, and under whatever types, each day has one row of the member,
/// and one of its rows is current.
pub fn one_row_a_day()
    ensures days { (kinds : List AttributeType) (combinations : List (List (List ℕ))) (m : Member) → ChangesHaveDays m.changes → EachDayHasOneRow (rows kinds combinations m) }
    ensures current { (kinds : List AttributeType) (combinations : List (List (List ℕ))) (m : Member) → ChangesHaveDays m.changes → OneRowIsCurrent (rows kinds combinations m) }
{}

/// A member's rows begin on the first day of all, and on each recorded day at which a tracked value differs from its value on
/// the recorded day before; on no other day.
pub fn rows_begin_where_a_tracked_value_differs()
    ensures { RowsBeginWhereATrackedValueDiffers }
{}

/// What is known of a member by days: of each day the record that was accepted last, and at a day the one that is in force.
pub fn changes_by_day()
    ensures dated { DatedListsAreExact }
    ensures in_force { ChangesInForce }
{}

/// The number of a combination of profile values is its place among the distinct ones, the first being 2, and what is known of
/// all of them says just this. A member's rows are those of the definition where the numbers of its own combinations are known.
pub fn numbers_of_profiles()
    ensures all { (combinations : List (List (List ℕ))) (texts : List (List ℕ)) → number_in (all_numbered combinations) texts ≡ profile_number combinations texts }
    ensures rows { (kinds : List AttributeType) (number : List (List ℕ) → Option ℕ) (combinations : List (List (List ℕ))) (m : Member) → KnowsMember kinds number combinations m → rows_by kinds number m ≡ rows kinds combinations m }
{}

/// A number that was given to a member or an anchor stays, whatever is accepted after; numbers that are
/// given later are greater than all before: durable and surrogate keys (Kimball & Ross, chapter 3). Under one policy so it is with
/// the numbers of profiles.
pub fn numbers_stay()
    ensures durable { (dim : Dim) (old new : List Accepted) (natural : List ℕ) → 0 < durable_key dim old natural → durable_key dim (old ++ new) natural ≡ durable_key dim old natural }
    ensures next_durable { (dim : Dim) (old new : List Accepted) (natural : List ℕ) → durable_key dim old natural ≡ 0 → 0 < durable_key dim (old ++ new) natural → length (members dim old) < durable_key dim (old ++ new) natural }
    ensures surrogate { (dim : Dim) (old new : List Accepted) (anchor : Anchor) → 0 < surrogate_key dim old anchor → surrogate_key dim (old ++ new) anchor ≡ surrogate_key dim old anchor }
    ensures next { (dim : Dim) (old new : List Accepted) (anchor : Anchor) → surrogate_key dim old anchor ≡ 0 → 0 < surrogate_key dim (old ++ new) anchor → length (anchors dim old) < surrogate_key dim (old ++ new) anchor }
    // And the number of a combination of profile values, as long as no policy is given.
    ensures profile { (old new : List Accepted) (texts : List (List ℕ)) (number : ℕ) → list_any (λ c. governs c.content) new ≡ false → profile_number (profiles_of old) texts ≡ Some number → profile_number (profiles_of (old ++ new)) texts ≡ Some number }
    ensures next_profile { (old new : List Accepted) (texts : List (List ℕ)) (number : ℕ) → list_any (λ c. governs c.content) new ≡ false → profile_number (profiles_of old) texts ≡ None → profile_number (profiles_of (old ++ new)) texts ≡ Some number → suc (length (profiles_of old)) < number }
{}

/// A command leaves each member that it does not mention as it was: all that was accepted of it, and all its numbers.
pub fn unmentioned_member_stays()
    ensures member { (dim : Dim) (commands : List Accepted) (c : Accepted) (natural : List ℕ) → mentions_member dim c natural ≡ false → member_of dim (commands ++ c ∷ []) natural ≡ member_of dim commands natural }
    // Under a batch it keeps every row, in a dimension whose rows show no profile, and as a customer.
    ensures rows { (dim : Dim) (commands : List Accepted) (c : Accepted) (natural : List ℕ) → governs c.content ≡ false → list_any is_outrigger (types_in dim commands) ≡ false → mentions_member dim c natural ≡ false → member_rows (commands ++ c ∷ []) dim natural ≡ member_rows commands dim natural }
    ensures customer { (commands : List Accepted) (c : Accepted) (natural : List ℕ) → governs c.content ≡ false → mentions_member Dim.Customer c natural ≡ false → member_rows (commands ++ c ∷ []) Dim.Customer natural ≡ member_rows commands Dim.Customer natural }
{}

/// On each day exactly one row of each member holds the day, and a fact of that day has its key.
pub fn effective()
    ensures { (commands : List Accepted) (dim : Dim) (natural : List ℕ) (day : ℕ) → RecordsHaveDays commands → IsMember dim commands natural → is_day day ≡ true → IsEffective commands dim (durable_key dim commands natural) day (key_at commands dim day natural) }
{}

/// Each number of a dimension belongs to one member's anchor, and the table has under it, now and before later
/// commands, what that member's rows have. So the exact plan of a table is its members' plans together.
pub fn rows_by_member()
    ensures now { (dim : Dim) (commands : List Accepted) (key : ℕ) (a : Anchor) → at_place key (anchors dim commands) ≡ Some a → numbered_row commands dim key ≡ row_of key (member_rows commands dim a.natural) }
    ensures before { (dim : Dim) (old new : List Accepted) (key : ℕ) (a : Anchor) → RecordsHaveDays old → at_place key (anchors dim (old ++ new)) ≡ Some a → numbered_row old dim key ≡ row_of key (member_rows old dim a.natural) }
{}

/// The row that holds a day shows in each tracked slot the value in force on that day.
pub fn shows_the_day()
    ensures { (kinds : List AttributeType) (combinations : List (List (List ℕ))) (m : Member) (day : ℕ) (r : DimRow) (place : ℕ) (kind : AttributeType) → ChangesHaveDays m.changes → find (holds day) (rows kinds combinations m) ≡ Some r → slice_get kinds place ≡ Some kind → is_tracked kind ≡ true → slice_get r.a place ≡ Some (value_at day place m.changes) }
{}

/// Each row of a member, an old one too, shows each attribute as its type has it (Kimball & Ross, chapter 5): type 0 the original
/// value, types 1 and 3 the latest, types 2, 6 and 7 the value at the row's start, types 4 and 5 nothing; and in its second column
/// type 3 the prior value and type 6 the latest. Under type 5 it names the profile of the member's newest record.
pub fn rows_show_their_types()
    ensures attributes { RowsShowTheirTypes }
    ensures profile { RowsNameTheNewestProfile }
{}

/// Of a member with a change of an earlier day, more changes that are all since a day leave the days before it as they
/// were: the row of each has the number that it had, and the same change holds.
pub fn days_before_stay()
    ensures keys { (kinds : List AttributeType) (old new : List (List (List ℕ))) (before after : Member) (first day : ℕ) (more : List Change) → after.changes ≡ before.changes ++ more → AllByRecursion (λ c. first ≤ c.day) more
        → list_any (λ c. nat_lt c.day first) before.changes ≡ true → ChangesHaveDays before.changes → ChangesHaveDays after.changes → after.opening ≡ before.opening
        → is_day day ≡ true → day < first → key_in (rows kinds new after) day ≡ key_in (rows kinds old before) day }
    ensures changes { (before after : Member) (first day : ℕ) (more : List Change) → after.changes ≡ before.changes ++ more → AllByRecursion (λ c. first ≤ c.day) more
        → list_any (λ c. nat_lt c.day first) before.changes ≡ true → day < first → at day (dated after.changes) ≡ at day (dated before.changes) }
{}

/// Of a member with a change of a day that is later than all of some more changes, these leave that day and the days after it
/// as they were, where its row has the number that it had; and the same change holds, whatever its row.
pub fn days_after_stay()
    ensures keys { (kinds : List AttributeType) (old new : List (List (List ℕ))) (before after : Member) (start day : ℕ) (more : List Change) → after.changes ≡ before.changes ++ more → AllByRecursion (λ c. c.day < start) more
        → list_any (is_of start) (dated before.changes) ≡ true → ChangesHaveDays before.changes → ChangesHaveDays after.changes → after.opening ≡ before.opening
        → key_in (rows kinds new after) start ≡ key_in (rows kinds old before) start
        → is_day day ≡ true → start ≤ day → key_in (rows kinds new after) day ≡ key_in (rows kinds old before) day }
    ensures changes { (before after : Member) (start day : ℕ) (more : List Change) → after.changes ≡ before.changes ++ more → AllByRecursion (λ c. c.day < start) more
        → list_any (is_of start) (dated before.changes) ≡ true → ChangesHaveDays before.changes → ChangesHaveDays after.changes → start ≤ day → at day (dated after.changes) ≡ at day (dated before.changes) }
{}

/// A batch is its records, one after the other: from what is stored of each member that it touches, and from how many
/// numbers are given, they lead to the members of the list with the batch.
pub fn record_by_record()
    ensures { (dim : Dim) (commands : List Accepted) (id kind bytes : List ℕ) (records : List DimensionRecord) → touched (member_of dim commands) (untouched (length (members dim commands)) (length (anchors dim commands))) records ≡ touched_by dim commands (with_batch commands id kind bytes dim records) records }
{}
