//! Laws of the inputs of a run, and of the views. They speak of the definitions alone and do nothing.

ghost use Rattle.wh_batch.specs.Manifest.{manifest_of};
ghost use Rattle.wh_batch.specs.ReportList.{reports_of};
ghost use Rattle.wh_words.specs.QueryList.{queries_of};
ghost use Rattle.wh_program.specs.Laws.{PoliciesAreReadSo, TrialsAreReadSo, CommandsAreReadSo, LongListsAreBad};
ghost use Rattle.wh_program.specs.ViewsBesideReports.{ViewsShowWhatReportsRead};

/// Nothing is lost where an input is read to its limit and a byte: a policy, a trial's batch and a command are what the whole file makes
/// them.
pub fn inputs_are_told_by_their_beginnings()
    ensures policies { PoliciesAreReadSo }
    ensures trials { TrialsAreReadSo }
    ensures commands { CommandsAreReadSo }
{}

/// No manifest of more than 64 MB is delivered, and no such list of reports or queries answered: what counts of it has a bad record or
/// line, whatever it lists.
pub fn long_manifests_are_bad()
    ensures manifests { LongListsAreBad manifest_of }
    ensures reports { LongListsAreBad reports_of }
    ensures queries { LongListsAreBad queries_of }
{}

/// For each mode the views have a column of an attribute just where reports have the reading. It shows the column that these read, in
/// whichever row that stands.
pub fn views_show_what_reports_read()
    ensures { ViewsShowWhatReportsRead }
{}
