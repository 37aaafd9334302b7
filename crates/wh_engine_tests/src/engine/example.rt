//! The example of the page of `wh_engine`, whose lines stand here up to the tests.

use sqlite::{Alter, Connection};
use sqlite_value::value::Bytes;
use std::alloc::Global;
use wh_batch::{BatchKind, Mode};
use wh_day::Value;
use wh_engine::{Command, CommandKind, Engine};
use wh_report::{Request, report};

/// Loads a batch of sales, and reports what was sold in 2024 by the brands of the days of sale. `None` doesn't say why.
pub fn sold_by_brand<S: Alter + Drop>(
    alloc: Global,
    conn: Connection<S>,
    batch: &[u8],
) -> Option<Vec<u8>> {
    let mut engine = Engine::open(alloc, conn).ok()?;
    let sales = Command {
        id: Value::new(alloc, "s1").ok()?,
        kind: CommandKind::Batch(BatchKind::Sales),
        bytes: Bytes::from_slice(alloc, batch).ok()?,
    };
    engine.apply(alloc, &sales).ok()?;
    let (from, to) = (b"2024-01-01", b"2024-12-31");
    let asked = Request::read(alloc, engine.policy(), "product.brand", Mode::Was, from, to).ok()?;
    if !asked.reads(engine.policy()) {
        return None;
    }
    report(alloc, &mut engine, &asked).ok()
}

#[cfg(test)]
mod tests {
    use super::sold_by_brand;
    use crate::engine::asking::command;
    use crate::engine::made;
    use crate::trouble::Trouble;
    use sqlite::{Connection, MemStore};
    use std::alloc::Global;
    use std::test::Fail;

    const PRODUCTS: &str = "\
id,day,description,brand,category,department,launched,supplier
P1,2024-01-10,Cola 1l,Acme,Drinks,Grocery,2019,North
P1,2024-03-01,Cola 1l,Bolt,Drinks,Grocery,2019,North
";

    const SALES: &[u8] = b"\
ticket,line,day,store,product,customer,quantity,amount,cost
T1,1,2024-02-05,S1,P1,,2,5.00,3.20
T2,1,2024-03-05,S1,P1,,1,2.50,1.60
T3,1,2023-12-31,S1,P1,,4,9.00,6.40
";

    const REPORT: &str = "\
report product.brand was 2024-01-01 2024-12-31
   lines   quantity         amount           cost         margin  label
       1          2           5.00           3.20           1.80  Acme
       1          1           2.50           1.60           0.90  Bolt
       2          3           7.50           4.80           2.70  total
";

    /// A warehouse in memory with a product of two brands.
    fn shop(alloc: Global) -> Result<Connection<MemStore>, Trouble> {
        let mut engine = made(alloc, "flat")?;
        let products = command(alloc, "product", "p1", PRODUCTS)?;
        match engine.apply(alloc, &products) {
            Ok(_) => Ok(engine.close()),
            Err(_) => Err(Trouble),
        }
    }

    #[test]
    fn reports_what_was_sold(rt: HostRuntime) -> Result<(), Fail> {
        let conn = shop(rt.alloc())?;
        let text = sold_by_brand(rt.alloc(), conn, SALES).ok_or("no report")?;
        assert!(rt; text.as_slice() == REPORT.as_bytes());
        Ok(())
    }
}
