//! What holds of every report. The laws speak of the definitions alone and do nothing.

ghost use Rattle.std.specs.Prelude.{◌≡◌, ℕ, List, bytes_eq};
ghost use Rattle.std.specs.List.{list_any};
ghost use Rattle.std.specs.List.Sorted.{IsPermutation, IsStrictlySortedBy};
ghost use Rattle.wh_report.specs.Lines.{labels};
ghost use Rattle.wh_report.specs.Summary.{Sold, by_bytes, summed};
ghost use Rattle.wh_report.specs.Carried.{LabelsAreCarried, LabelsGoOn, ReportsAreCarried, ReportsGoOn};
ghost use Rattle.wh_report.specs.Laws.{TotalsAgree, LinesAddUp, LabelsByKeys, FactsAreCounted, AdmittedSalesAreDated, VoidsTakeTheirSales};

/// Over one range the line of the total is the same for every attribute and mode: it is made from the measures of the
/// range's sales alone.
pub fn total()
    ensures { TotalsAgree }
{}

/// The lines of a report add up to its total: how many lines, quantity, amount, cost and margin are additive facts, by whatever
/// attribute they are summed (Kimball & Ross, chapter 3).
pub fn lines_add_up()
    ensures { LinesAddUp }
{}

/// The labels of a report are those that a sale has, each once, in order of their bytes.
pub fn labels_are_a_set()
    ensures order { (sales : List Sold) → IsStrictlySortedBy by_bytes (labels by_bytes sales) }
    ensures members { (sales : List Sold) (label : List ℕ) → list_any (bytes_eq label) (labels by_bytes sales) ≡ list_any (λ s. bytes_eq label s.label) sales }
{}

/// The order of the sales doesn't matter.
pub fn any_order()
    ensures { (sales others : List Sold) → IsPermutation sales others → summed others ≡ summed sales }
{}

/// The text that a fact's surrogate keys, durable keys, profile number or day lead to is the label that the history gives
/// its sale, for each attribute and each mode that has a reading. So the facts of a range come to what the report says.
pub fn labels_by_keys()
    ensures labels { LabelsByKeys }
    ensures counted { FactsAreCounted }
{}

/// The calendar has the day of each sale of a list of commands that came about by admission.
pub fn sales_are_dated()
    ensures { AdmittedSalesAreDated }
{}

/// After a batch of voids a report counts the sales that it counted before, but the withdrawn lines; each other keeps its
/// label.
pub fn voids_take_their_sales()
    ensures { VoidsTakeTheirSales }
{}

/// In a file that carries the members of another, each sale has the label that it would have there, for each attribute and each mode
/// that has a reading. So the same sales make the same report.
pub fn labels_are_carried()
    ensures labels { LabelsAreCarried }
    ensures reports { ReportsAreCarried }
    // Whatever both record further, late or not, each sale has the label that it would have in the older file.
    ensures labels_on { LabelsGoOn }
    ensures reports_on { ReportsGoOn }
{}
