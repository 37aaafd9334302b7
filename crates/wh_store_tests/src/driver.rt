//! What the words of a step mean over the store.
//!
//! A row is written as the name of its table and the values of its columns in SQL, `profile 2, '', '30-39', 'high', '', '', ''`, in
//! steps and in answers, where the names of the columns stand above a table's rows. A key is written as its columns, as in `get fact T-1 9999` or `get member store 1`. A step that is not
//! made answers why: `refused disk`, `damaged fact`.
//!
//! These begin anew:
//! - `empty SQL`: a database in memory on which the SQL was run.
//! - `makes SQL`: the same, which is taken for a new warehouse if it answers `free`.
//! - `warehouse`: a warehouse in memory for 10 commands, 200 changes and 3,000 facts.
//! - `opens SQL`: one on which the SQL was run, and which is then opened again.
//! - `files`: an empty log and an empty database file, in memory.
//!
//! On a database:
//! - `sql SQL` runs it, `bound SQL` runs it with the values that it is handed as its parameters, `number SQL` tells the number that it answers.
//! - `status` tells whether the ten tables are there, and whether a transaction is under way.
//! - `create` makes the ten tables, with no row in them.
//! - `put ROW`, `remove TABLE KEY`; `row TABLE KEY TEXT` puts the only row of a member, and `past` a row whose key is too big;
//!   `rekey TICKET LINE STORE PRODUCT CUSTOMER PROFILE` gives a fact these keys; `clear` takes out all facts of the first format, and
//!   tells how many there were.
//! - `create` and each of these edits begins a transaction of its own and keeps it, or leaves nothing where it is refused.
//! - `make` and `open` take it for a new warehouse, and for one that is there. A warehouse is handed back by `close`.
//!
//! On a warehouse:
//! - `write` makes the edits that it is handed in one transaction, and keeps them if the last one is `commit`. Edits are `put`, `row`, `remove`,
//!   `past`, `rekey` and `clear`, as above; `rekey2`, the same of the second format, and `insert2 COUNT TICKET VALUES`, so many facts of it at
//!   once, on the lines 1, 2 and so on, with these values for the other columns, which tells whether they went in;
//!   `make COMMANDS CHANGES FACTS`, which makes the tables for these limits; `rows 1 Cola, 2 Tea`,
//!   `edit 1 Cola`, `edits 1 Cola, 2` and, sixteen at a time, `parts 1 Cola, 2` for products, of which those with no text go;
//!   `records COMMAND FIRST COUNT VALUES`, so many records of a command, sixteen at a time; `days FIRST PAST` for the days of a calendar;
//!   `tries EDIT`, after whose refusal the others are still made.
//! - `limits` tells them. `show` tells them and all rows of all tables.
//! - `format` tells the format, and whether a name that the second adds is taken. `second` makes the tables of the second, and keeps them.
//!   `upgrade` makes it the second format, into which all facts go without a discount.
//! - `tally2 KEY` counts the facts of the second format by a key: `surrogate DIMENSION`, `durable DIMENSION`, `profile` or `day`. It
//!   tells their number, and the sums of their keys, quantities, amounts and costs, below what each is of.
//! - `scan TABLE MOST` hands out up to so many rows of a table one at a time, tells their number and the last of them, and lets the scan go.
//!
//! On both, questions:
//! - `all TABLE`, `get TABLE KEY`, `count TABLE`, `length TABLE`, the number of the rows that are read, and `nth TABLE PLACE`, from 0.
//! - `rows DIMENSION DURABLE`, `records DIMENSION DURABLE`, `command ID`, `member DIMENSION NATURAL`, `profile TEXT,TEXT,..`,
//!   `greatest profile`, `greatest member DIMENSION`, `anchor DIMENSION`: the types of `wh_sql` that are called so, and `greatest_anchor`.
//! - `sales DIMENSION DURABLE FROM TO, DURABLE FROM TO, ..` (`sales2` of the second format): the facts of some members, of each between two days,
//!   out of all from the first of these days on.
//! - `table TABLE` and `dim DIMENSION`, what a table says that it is; `read ROW`, the row as it is read from these columns.
//!
//! On files, where each step is a run of its own:
//! - `make`, `write`, `upgrade`, and `ask` for the questions that it is handed. `make left` and so on end without a close. `show` tells
//!   what they hold.
//! - `restart` runs the SQL that it is handed, and the machine stops and comes back.
//! - `stops log` and `stops database` make the edits that they are handed, or the tables if there are none, or the upgrade if they are handed
//!   `upgrade`, again and again, while that file stops after no call, after one, and so on, and the machine crashes. They tell whether each
//!   time what was there is found, or all that was written, and what that is.
//!
//! By themselves: `limits_of COMMANDS CHANGES FACTS` and `limits_of greatest`; `columns` and `missed`, which the module `columns`
//! explains.

use crate::place::{Place, make_step};
use crate::words::Step;
use std::alloc::Global;
use wh_scenarios::{Driver, NotMade, parted};

/// Makes the steps of scenarios of the store.
#[derive(Drop)]
pub struct StoreDriver {
    place: Place,
}

impl Driver for StoreDriver {
    fn start(_alloc: Global) -> Result<StoreDriver, NotMade> {
        Ok(StoreDriver {
            place: Place::Nothing,
        })
    }

    fn perform(
        self,
        alloc: Global,
        step: &wh_scenarios::Step<'_>,
        answer: &mut String,
    ) -> Result<StoreDriver, NotMade> {
        let (verb, rest) = parted(step.words, ' ');
        let body = step.handed.as_str();
        let step = Step { verb, rest, body };
        let place = make_step(alloc, self.place, step, answer)?;
        Ok(StoreDriver { place })
    }
}
