//! What holds of every batch.

ghost use Rattle.std.specs.Prelude.{List};
ghost use Rattle.wh_policy.specs.Policy.{policy_attributes};
ghost use Rattle.wh_policy.specs.declared.attribute.Attribute.{Attribute};
ghost use Rattle.wh_policy.specs.declared.attribute.Dim.{Dim};
ghost use Rattle.wh_policy.specs.declared.policy.Policy.{Policy};
ghost use Rattle.wh_policy.specs.declared.policy.Years.{Years};
ghost use Rattle.wh_policy.specs.declared.format.Format.{Format};
ghost use Rattle.wh_policy.specs.declared.format.Format.TheVariants.{Two};
ghost use Rattle.wh_batch.specs.Layouts.{dimension_layout, sales_layout, voids_layout, dimension_records, sale_records, void_records, records_of};
ghost use Rattle.wh_batch.specs.Faults.{faults_of_kind};
ghost use Rattle.wh_batch.specs.declared.kind.BatchKind.{BatchKind};
ghost use Rattle.wh_batch.specs.Numbers.{read_hundredths, read_line, read_quantity, read_amount};
ghost use Rattle.wh_batch.specs.Grammar.{WritesHundredths, WritesLine, WritesQuantity, WritesAmount, Reads};
ghost use Rattle.wh_batch.specs.Laws.{OneRecordMore, ReadsBatches, FaultsByColumns, PointsAtField, FirstIsRead, ListsEachRow, ListsInOrder};

/// A batch with one row more has the fault of those before it, else the last one's, else all records.
pub fn one_record_more()
    ensures dimensions { (attributes : List Attribute) → OneRecordMore (dimension_layout attributes) }
    ensures sales { (format : Format) (years : Years) → OneRecordMore (sales_layout format years) }
    ensures voids { OneRecordMore voids_layout }
{}

/// Exactly the good batches are read: those that aren't too large, whose first row is the header, whose other rows each
/// write a record, with no two of one key, and all days of sales in the calendar. Voids are batches of the second format alone.
pub fn good_batches()
    ensures dimensions { (dim : Dim) (policy : Policy) → ReadsBatches (dimension_layout (policy_attributes policy dim)) (dimension_records dim policy) }
    ensures sales { (policy : Policy) (format : Format) → ReadsBatches (sales_layout format policy.years) (sale_records policy format) }
    ensures voids { ReadsBatches voids_layout (void_records Two) }
{}

/// Exactly the texts of the grammar are read as lines, quantities, amounts and discounts.
pub fn numbers()
    ensures lines { Reads read_line WritesLine }
    ensures quantities { Reads read_quantity WritesQuantity }
    ensures amounts { Reads read_amount WritesAmount }
    ensures discounts { Reads read_hundredths WritesHundredths }
{}

/// A batch has no fault exactly where it is read, and else the first fault that is listed is the one that `read` answers.
pub fn first_fault_is_read()
    ensures { (kind : BatchKind) (policy : Policy) (format : Format) → FirstIsRead (faults_of_kind kind policy format) (records_of kind policy format) }
{}

/// Each of the first 5,000 rows is listed with the fault that reading it gives after the keys of the rows before it, if any; of all rows after
/// them it is listed that they are too many.
pub fn each_row_is_listed()
    ensures dimensions { (attributes : List Attribute) → ListsEachRow (dimension_layout attributes) }
    ensures sales { (format : Format) (years : Years) → ListsEachRow (sales_layout format years) }
    ensures voids { ListsEachRow voids_layout }
{}

/// Faults are listed in the order of the rows, no two of one row.
pub fn faults_in_order()
    ensures dimensions { (attributes : List Attribute) → ListsInOrder (dimension_layout attributes) }
    ensures sales { (format : Format) (years : Years) → ListsInOrder (sales_layout format years) }
    ensures voids { ListsInOrder voids_layout }
{}

/// Fields write a record exactly where they are as many as the columns, and each writes what its column holds. Else the fault is
/// their number, or the first field that doesn't.
pub fn faults_by_columns()
    ensures dimensions { (attributes : List Attribute) → FaultsByColumns (dimension_layout attributes) }
    ensures sales { (format : Format) (years : Years) → FaultsByColumns (sales_layout format years) }
    ensures voids { FaultsByColumns voids_layout }
{}

/// A fault of a field has the place of that field: what stands there is at fault in its column, by just that fault.
pub fn faults_of_fields()
    ensures dimensions { (attributes : List Attribute) → PointsAtField (dimension_layout attributes) }
    ensures sales { (format : Format) (years : Years) → PointsAtField (sales_layout format years) }
    ensures voids { PointsAtField voids_layout }
{}
