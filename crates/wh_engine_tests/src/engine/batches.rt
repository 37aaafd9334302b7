//! The worked commands that many scenarios send: those of products and sales under the policies `flat` and `bands-of-rows`, the others
//! under the second alone.

use crate::engine::asking::{command, push_applied};
use crate::trouble::Trouble;
use sqlite::Alter;
use std::alloc::Global;
use wh_engine::{Command, Engine};
use wh_scenarios::{parted, push_line};

/// In their order, a line each: its id, its kind, and its records, or the name of its policy; `|` stands for the end of a line.
const WORKED: &str = "\
p0 product
p1 product P1,2024-01-10,Cola 1l,Acme,Drinks,Grocery,2019,North
p2 product P1,2024-02-01,Cola 1l,Bolt,Drinks,Grocery,2019,North
s1 sales T1,1,2024-02-05,S1,P1,,2,5.00,3.20|T0,1,2023-12-31,S1,P1,,1,2.5,1.60
p3 product P1,2024-01-20,Cola 1l,Bolt,Drinks,Grocery,2019,North
p4 product P1,2024-02-01,Cola 1l,Cask,Drinks,Grocery,2019,North
p5 product P1,2024-03-01,Cola 1 l,Cask,Drinks,Grocery,2019,North
p6 product P1,2024-04-01,Cola 1 l,Cask,Soft drinks,Grocery,2019,North
p7 product P1,2024-06-01,Cola 1 l,Cask,Soft drinks,Grocery,2021,South
p8 product P1,2024-05-01,Cola 1 l,Cask,Soft drinks,Grocery,2019,East
s2 sales T2,1,2024-06-10,S1,P9,C9,1,10.00,7.00
p9 product P9,2024-06-05,Tea 50,Leaf,Drinks,Grocery,2024,North
c1 customer C9,2024-06-08,Gold,30-39,high
c2 customer C9,2024-07-01,Gold,40-49,high
m1 migrate brand-overwritten
m2 migrate bands-of-rows
s4 sales T4,1,2024-02-29,S1,P1,,1,2.50,1.60
c3 customer C9,2024-07-01,Gold,40-49,high
c4 customer C8,2024-07-01,V,,
u1 upgrade
";

/// The line before the records of a batch.
fn header_of(kind: &str) -> &'static str {
    match kind {
        "product" => "id,day,description,brand,category,department,launched,supplier\n",
        "customer" => "id,day,tier,age_band,spend_band\n",
        "sales" => "ticket,line,day,store,product,customer,quantity,amount,cost\n",
        _ => "",
    }
}

/// The command of a line of these.
fn worked_command(alloc: Global, line: &str) -> Result<Command, Trouble> {
    let (id, rest) = parted(line, ' ');
    let (kind, records) = parted(rest, ' ');
    let records = records.replace(alloc, "|", "\n")?;
    let mut text = String::from_str(alloc, header_of(kind))?;
    push_line(&mut text, records.as_str())?;
    command(alloc, kind, id, text.as_str())
}

fn is_of(line: &str, id: &str) -> bool {
    parted(line, ' ').0 == id
}

/// The worked command of this id.
pub fn worked(alloc: Global, id: &str) -> Result<Command, Trouble> {
    match WORKED.lines().find(|line| is_of(line, id)) {
        Some(line) => worked_command(alloc, line),
        None => Err(Trouble),
    }
}

/// `FIRST LAST`: the worked commands from one to another. What isn't accepted is answered.
pub fn load<S: Alter>(
    alloc: Global,
    engine: &mut Engine<S>,
    words: &str,
    out: &mut String,
) -> Result<(), Trouble> {
    let (first, last) = parted(words, ' ');
    let mut is_among = false;
    for line in WORKED.lines() {
        is_among = is_among || is_of(line, first);
        if is_among {
            load_once(alloc, engine, line, out)?;
        }
        is_among = is_among && !is_of(line, last);
    }
    Ok(())
}

fn load_once<S: Alter>(
    alloc: Global,
    engine: &mut Engine<S>,
    line: &str,
    out: &mut String,
) -> Result<(), Trouble> {
    let command = worked_command(alloc, line)?;
    let mut answer = String::new(alloc);
    push_applied(alloc, engine, &command, &mut answer)?;
    if !answer.starts_with("accepted ") {
        out.push_str(answer.as_str())?;
    }
    Ok(())
}
