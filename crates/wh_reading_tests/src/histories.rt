//! The histories of members: rows, dated values, tables of a trial, and plans.
//!
//! A member is described step by step, and then asked about. VALUES are the texts of the slots, with commas between them;
//! where there is none the value is `(none)`. A SLOT is counted from 0, and a DAY is a number YYYYMMDD. A row's answer is a
//! line: its surrogate key, its first and last day, 1 for the current row, the six main texts, the six second texts, and
//! the newest profile. The verbs:
//!
//! - `begin`: forgets everything.
//! - `types NUMBER ..`: the types of the member's attributes by slot.
//! - `member NATURAL DURABLE OPENING`: a new member with its keys, without changes.
//! - `change DAY ANCHOR VALUES`: the member's next change and its surrogate key.
//! - `profiles`: numbers each combination of profile values among the changes, and does it again.
//! - `rows`: the member's rows. `render DIM`: those under the attributes of [`POLICY`].
//! - `place DIM DAY`: the place of the row that holds a day, among the latter.
//! - `value SLOT DAY`, `latest SLOT`, `prior SLOT`, `original SLOT`: a value of the member.
//! - `store`: the member's rows are the stored ones.
//! - `fact TICKET DAY KEY`: a sale of the member, a product, and the key of its row.
//! - `plan`: the edits that lead from the stored rows and the facts to those of the member, under POLICY.
//! - `record NATURAL DAY VALUES`: the next record of a batch.
//! - `trial DIM`, `table DIM`: the table after that batch, under the policy of a trial or under POLICY.

use crate::words::{attribute_type, day, dim, number, push_number};
use std::alloc::{AllocError, Global};
use wh_day::{Day, NaturalKey, Value, Values};
use wh_history::{
    Change, Changes, DimRow, DimensionShape, Edit, Fact, FactKeys, Member, Profiles, latest,
    original, prior, profile_texts, render, row_at, trial_table, value_at,
};
use wh_policy::{AttributeType, Dim, DimensionRecord, Policy};
use wh_scenarios::{Driver, NotMade, Step, parted};

/// Products with attributes of six types, and customers with a profile.
const POLICY: &str = r#"
first_year = 2023
last_year = 2026
product = [
    { name = "a", type = 1 },
    { name = "b", type = 2 },
    { name = "c", type = 6 },
    { name = "d", type = 7 },
    { name = "e", type = 0 },
    { name = "f", type = 3 },
]
store = [{ name = "a", type = 2 }]
customer = [{ name = "a", type = 2 }, { name = "b", type = 5 }, { name = "c", type = 5 }]
"#;

/// What is known so far.
#[derive(Drop)]
pub struct HistoryDriver {
    types: Vec<AttributeType>,
    member: Member,
    profiles: Profiles,
    stored: Vec<DimRow>,
    facts: Vec<Fact>,
    records: Vec<DimensionRecord>,
}

impl Driver for HistoryDriver {
    fn start(alloc: Global) -> Result<HistoryDriver, NotMade> {
        Ok(HistoryDriver::new(alloc)?)
    }

    fn perform(
        self,
        alloc: Global,
        step: &Step<'_>,
        answer: &mut String,
    ) -> Result<HistoryDriver, NotMade> {
        let mut driver = self;
        driver.step(alloc, step.words, answer)?;
        Ok(driver)
    }
}

impl HistoryDriver {
    fn step(&mut self, alloc: Global, words: &str, answer: &mut String) -> Result<(), AllocError> {
        let (verb, rest) = parted(words, ' ');
        match verb {
            "begin" => self.begin(alloc),
            "types" => self.set_types(alloc, rest),
            "member" => self.set_member(alloc, rest),
            "change" => self.add_change(alloc, rest),
            "profiles" => self.add_profiles(alloc),
            "store" => self.store(alloc),
            "fact" => self.add_fact(alloc, rest),
            "record" => self.add_record(alloc, rest),
            _ => self.ask(alloc, verb, rest, answer),
        }
    }

    fn new(alloc: Global) -> Result<HistoryDriver, AllocError> {
        Ok(HistoryDriver {
            types: Vec::new(alloc),
            member: member(alloc, "", 0, 0)?,
            profiles: Profiles::new(alloc),
            stored: Vec::new(alloc),
            facts: Vec::new(alloc),
            records: Vec::new(alloc),
        })
    }

    fn begin(&mut self, alloc: Global) -> Result<(), AllocError> {
        *self = HistoryDriver::new(alloc)?;
        Ok(())
    }

    fn set_types(&mut self, alloc: Global, rest: &str) -> Result<(), AllocError> {
        self.types = Vec::new(alloc);
        for word in rest.split(' ') {
            if let Some(kind) = attribute_type(word) {
                self.types.push(kind)?;
            }
        }
        Ok(())
    }

    fn set_member(&mut self, alloc: Global, rest: &str) -> Result<(), AllocError> {
        let (natural, rest) = parted(rest, ' ');
        let (durable, opening) = parted(rest, ' ');
        self.member = member(alloc, natural, number(durable), number(opening))?;
        Ok(())
    }

    fn add_change(&mut self, alloc: Global, rest: &str) -> Result<(), AllocError> {
        let (word, rest) = parted(rest, ' ');
        let (anchor, line) = parted(rest, ' ');
        self.member.changes.push(Change {
            day: day_of(word),
            anchor: number(anchor),
            values: values(alloc, line)?,
        })
    }

    fn add_profiles(&mut self, alloc: Global) -> Result<(), AllocError> {
        for change in self.member.changes.as_slice() {
            add_profile(alloc, &mut self.profiles, &self.types, change)?;
            add_profile(alloc, &mut self.profiles, &self.types, change)?;
        }
        Ok(())
    }

    fn dimension<'a>(&'a self, dim: Dim, types: &'a [AttributeType]) -> DimensionShape<'a> {
        DimensionShape {
            dim,
            types,
            profiles: &self.profiles,
        }
    }

    fn rows(&self, alloc: Global) -> Result<Vec<DimRow>, AllocError> {
        self.dimension(Dim::Product, &self.types)
            .rows_of(alloc, &self.member)
    }

    fn rendered(&self, alloc: Global, dim: Dim) -> Result<Vec<DimRow>, AllocError> {
        render(alloc, &policy(alloc)?, dim, &self.member, &self.profiles)
    }

    fn store(&mut self, alloc: Global) -> Result<(), AllocError> {
        self.stored = self.rows(alloc)?;
        Ok(())
    }

    fn add_fact(&mut self, alloc: Global, rest: &str) -> Result<(), AllocError> {
        let (ticket, rest) = parted(rest, ' ');
        let (word, key) = parted(rest, ' ');
        self.facts
            .push(fact(alloc, ticket, day_of(word), number(key))?)?;
        Ok(())
    }

    fn add_record(&mut self, alloc: Global, rest: &str) -> Result<(), AllocError> {
        let (natural, rest) = parted(rest, ' ');
        let (word, line) = parted(rest, ' ');
        if let Some(natural) = NaturalKey::read(32, natural.as_bytes()) {
            self.records.push(DimensionRecord {
                natural,
                day: day_of(word),
                values: values(alloc, line)?,
            })?;
        }
        Ok(())
    }

    fn ask(
        &self,
        alloc: Global,
        verb: &str,
        rest: &str,
        answer: &mut String,
    ) -> Result<(), AllocError> {
        match verb {
            "rows" => push_rows(answer, &self.rows(alloc)?),
            "render" => push_rows(answer, &self.rendered(alloc, dim(rest))?),
            "place" => self.push_place(alloc, answer, rest),
            "plan" => self.push_plan(alloc, answer),
            "trial" => self.push_table(alloc, answer, &Policy::trial(alloc)?, rest),
            "table" => self.push_table(alloc, answer, &policy(alloc)?, rest),
            _ => push_value_of(alloc, answer, verb, rest, self.member.changes.as_slice()),
        }
    }

    fn push_place(&self, alloc: Global, answer: &mut String, rest: &str) -> Result<(), AllocError> {
        let (word, key) = parted(rest, ' ');
        match row_at(&self.rendered(alloc, dim(word))?, day_of(key)) {
            Some(place) => push_number(answer, place as i128),
            None => answer.push_str("none"),
        }
    }

    fn push_table(
        &self,
        alloc: Global,
        answer: &mut String,
        policy: &Policy,
        rest: &str,
    ) -> Result<(), AllocError> {
        push_rows(
            answer,
            &trial_table(alloc, policy, dim(rest), &self.records)?,
        )
    }

    fn push_plan(&self, alloc: Global, answer: &mut String) -> Result<(), AllocError> {
        let types = policy(alloc)?.types(alloc, Dim::Product)?;
        let dimension = self.dimension(Dim::Product, &types);
        let plan = dimension.plan_member(alloc, &self.stored, &self.facts, &self.member)?;
        push_edits(answer, &plan.rows, &plan.facts)
    }
}

fn member(alloc: Global, natural: &str, durable: u64, opening: u64) -> Result<Member, AllocError> {
    Ok(Member {
        durable,
        natural: Value::new(alloc, natural)?,
        opening,
        changes: Changes::new(alloc),
    })
}

fn policy(alloc: Global) -> Result<Policy, AllocError> {
    match Policy::read(alloc, POLICY.as_bytes()) {
        Ok(policy) => Ok(policy),
        Err(_) => Err(AllocError),
    }
}

fn day_of(word: &str) -> Day {
    day(word).unwrap_or(Day::last())
}

fn values(alloc: Global, line: &str) -> Result<Values, AllocError> {
    let mut found = Values::new(alloc);
    for part in line.split(',') {
        found.push(value_of(alloc, part)?)?;
    }
    Ok(found)
}

fn value_of(alloc: Global, text: &str) -> Result<Value, AllocError> {
    match text {
        "" => Value::none(alloc),
        _ => Value::new(alloc, text),
    }
}

fn add_profile(
    alloc: Global,
    profiles: &mut Profiles,
    types: &[AttributeType],
    change: &Change,
) -> Result<(), AllocError> {
    profiles.add_next(profile_texts(alloc, types, change.values.as_slice())?)
}

/// A sale of the product on a day, under the product's key.
fn fact(alloc: Global, ticket: &str, day: Day, product_key: u64) -> Result<Fact, AllocError> {
    Ok(Fact {
        ticket: Value::new(alloc, ticket)?,
        line: 1,
        day,
        keys: FactKeys {
            store_key: 1,
            product_key,
            customer_key: 0,
            profile: 0,
        },
        store_durable: 1,
        product_durable: 1,
        customer_durable: 0,
        quantity: 2,
        amount: 500,
        cost: 320,
        discount: 0,
    })
}

/// The columns of a row, without those of its member.
const HEADER: &str =
    "surrogate,from_day,to_day,is_current,a1,a2,a3,a4,a5,a6,b1,b2,b3,b4,b5,b6,profile_now\n";

/// Rows below their columns' names.
fn push_rows(answer: &mut String, rows: &[DimRow]) -> Result<(), AllocError> {
    answer.push_str(HEADER)?;
    for row in rows {
        push_row(answer, row)?;
    }
    Ok(())
}

fn push_row(answer: &mut String, row: &DimRow) -> Result<(), AllocError> {
    push_number(answer, row.surrogate as i128)?;
    push_part(answer, row.from_day.key() as i128)?;
    push_part(answer, row.to_day.key() as i128)?;
    push_part(answer, row.is_current as i128)?;
    push_texts(answer, &row.a)?;
    push_texts(answer, &row.b)?;
    push_part(answer, row.profile_now as i128)?;
    answer.push_str("\n")
}

/// Adds a comma and the number.
fn push_part(answer: &mut String, number: i128) -> Result<(), AllocError> {
    answer.push_str(",")?;
    push_number(answer, number)
}

/// Adds the texts, with a comma before each.
fn push_texts(answer: &mut String, texts: &Values) -> Result<(), AllocError> {
    for text in texts.as_slice() {
        answer.push_str(",")?;
        answer.push_str(text.as_str())?;
    }
    Ok(())
}

fn push_value_of(
    alloc: Global,
    answer: &mut String,
    verb: &str,
    rest: &str,
    changes: &[Change],
) -> Result<(), AllocError> {
    let (slot, word) = parted(rest, ' ');
    let slot = number(slot) as usize;
    let value = match verb {
        "value" => value_at(alloc, changes, slot, day_of(word))?,
        "latest" => latest(alloc, changes, slot)?,
        "prior" => prior(alloc, changes, slot)?,
        "original" => original(alloc, changes, slot)?,
        _ => Value::new(alloc, "no such step")?,
    };
    answer.push_str(value.as_str())
}

fn push_edits(
    answer: &mut String,
    rows: &[Edit<DimRow, u64>],
    facts: &[Fact],
) -> Result<(), AllocError> {
    for edit in rows {
        push_edit(answer, edit)?;
    }
    for moved in facts {
        answer.push_str("moved ")?;
        answer.push_str(moved.ticket.as_str())?;
        answer.push_str(" ")?;
        push_key_line(answer, moved.keys.product_key)?;
    }
    Ok(())
}

fn push_edit(answer: &mut String, edit: &Edit<DimRow, u64>) -> Result<(), AllocError> {
    match edit {
        Edit::Put(row) => {
            answer.push_str("put ")?;
            push_key_line(answer, row.surrogate)
        }
        Edit::Remove(key) => {
            answer.push_str("remove ")?;
            push_key_line(answer, *key)
        }
    }
}

/// Adds the key and the end of a line.
fn push_key_line(answer: &mut String, key: u64) -> Result<(), AllocError> {
    push_number(answer, key as i128)?;
    answer.push_str("\n")
}
