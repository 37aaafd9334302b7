//! Steps on the facts of some members.

ghost use Rattle.std.specs.Prelude.{◌≡◌, ◌==◌, nat_le, ◌&&◌};
ghost use Rattle.std.specs.List.{list_any};

use crate::facts::push_facts;
use crate::trouble::Trouble;
use crate::words::{day, dim, number};
use sqlite::Alter;
use std::alloc::Global;
use wh_day::Day;
use wh_scenarios::parted;
use wh_store::{Format, SomeMembers, Tables};

/// A member with its first day and its last.
#[derive(Clone, Copy)]
struct MemberDays {
    durable: u64,
    from: Day,
    to: Day,
}

/// Whether the day is one of a member of this durable key.
fn has_day(members: &[MemberDays], durable: u64, day: u64) -> bool
    ensures { result ≡ list_any (λ m. (m.durable == durable) && (nat_le m.from day && nat_le day m.to)) members.now }
{
    members.iter().any(|member| {
        member.durable == durable
            && u64::from(member.from.key()) <= day
            && day <= u64::from(member.to.key())
    })
}

/// Some members, each with its days.
#[derive(Drop)]
struct MembersDays {
    list: Vec<MemberDays>,
}

impl SomeMembers for MembersDays {
    ghost use Rattle.std.specs.Prelude.{◌==◌, nat_le, ◌&&◌};
    ghost use Rattle.std.specs.List.{list_any};

    ghost among = { λ members durable day. list_any (λ m. (m.durable == durable) && (nat_le m.from day && nat_le day m.to)) members.list.items };

    fn has(&self, durable: u64, day: u64) -> bool {
        has_day(&self.list, durable, day)
    }
}

/// `DURABLE FROM TO`.
fn member_days(words: &str) -> Result<MemberDays, Trouble> {
    let (durable, days) = parted(words, ' ');
    let (from, to) = parted(days, ' ');
    Ok(MemberDays {
        durable: number(durable)?,
        from: day(from)?,
        to: day(to)?,
    })
}

fn members_days(alloc: Global, words: &str) -> Result<MembersDays, Trouble> {
    let mut list = Vec::new(alloc);
    for words in words.split(',') {
        list.push(member_days(words.trim_start())?)?;
    }
    Ok(MembersDays { list })
}

/// `DIMENSION DURABLE FROM TO, DURABLE FROM TO, ..`: the facts of members, of each from one day to another, as one pass finds them that begins with the
/// first day of the first member.
pub fn sales<S: Alter>(
    alloc: Global,
    tables: &mut Tables<S>,
    format: Format,
    words: &str,
    out: &mut String,
) -> Result<(), Trouble> {
    let (name, words) = parted(words, ' ');
    let members = members_days(alloc, words)?;
    let Some(first) = members.list.first() else {
        return Err(Trouble::Unknown);
    };
    let facts = tables.facts_of_members(alloc, format, dim(name)?, &members, first.from)?;
    push_facts(out, format, &facts)
}
