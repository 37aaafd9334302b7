//! What holds of every query. The laws speak of the definitions alone and do nothing.

ghost use Rattle.wh_query.specs.Laws.{ReportsHaveLines, ReportsAreQueries, LinesAddUp, SumsAgree, TablesEndWithTotals, TablesAreReports, SlicesAreLines, AnyOrder, LinesRise, ColumnsOrderLines, VoidsTakeTheirSales, QueriesHaveReadings, NoModeIsNeeded, ReadAsRequests};

/// What a report sums are lines, by labels that are texts. By one column and without conditions the lines of a query are those of
/// the report by this column.
pub fn reports_are_queries()
    ensures lines { ReportsHaveLines }
    ensures queries { ReportsAreQueries }
{}

/// The lines add up to what the sales of the slice come to, and so to the same for any columns.
pub fn lines_add_up()
    ensures up { LinesAddUp }
    ensures agree { SumsAgree }
{}

/// A table ends with the line of what the sales of the slice come to. By one column and without conditions it is, under its own
/// titles, what the report by this column prints.
pub fn tables_are_reports()
    ensures totals { TablesEndWithTotals }
    ensures reports { TablesAreReports }
{}

/// A slice by a label has just those lines of the query by the label's column, too, that begin with the label.
pub fn slices_are_lines()
    ensures { SlicesAreLines }
{}

/// The order of the sales doesn't matter.
pub fn any_order()
    ensures { AnyOrder }
{}

/// The tuples of labels come once each, in order by bytes, column by column.
pub fn lines_rise()
    ensures { LinesRise }
{}

/// The order of the columns only orders the lines: with two neighbouring columns exchanged, which repeated leads to any order of
/// them, the lines are the same but for these two labels, which are exchanged, and the order in which they stand.
pub fn columns_order_lines()
    ensures { ColumnsOrderLines }
{}

/// After a batch of voids a query sums the sales that it summed before, but the withdrawn lines; each other keeps its labels.
pub fn voids_take_their_sales()
    ensures { VoidsTakeTheirSales }
{}

/// A query that is read can be asked: each of its columns has a reading under the policy, also of a condition. No attribute of the
/// policy needs a mode for that.
pub fn queries_have_readings()
    ensures reads { QueriesHaveReadings }
    ensures modes { NoModeIsNeeded }
{}

/// The words for one column alone are refused exactly where the request of the report by it is, for the same fault; else they make
/// the query by that column.
pub fn read_as_requests()
    ensures { ReadAsRequests }
{}
