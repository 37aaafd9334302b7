//! How much a warehouse holds at most.

ghost use Rattle.std.specs.Prelude.{◌≡◌, IsTrue};
ghost use Rattle.wh_rows.specs.Limits.{is_limit, limits_of, greatest_limits};

use std::marker::Model;

/// The most bytes of a command's id.
pub const ID_LIMIT: usize = 40;

/// The most commands that a warehouse can be made for, with the making.
pub const MOST_COMMANDS: u64 = 100_000;

/// The most changes of members that one can be made for.
pub const MOST_CHANGES: u64 = 1_000_000;

/// The most facts that one can be made for, with withdrawn ones.
pub const MOST_FACTS: u64 = 1_000_000;

/// How many commands (with the making), changes of members and facts (with withdrawn ones) a warehouse takes. They are chosen at its making, and
/// kept.
#[derive(Clone, Copy, Debug, PartialEq, Eq)]
pub struct Limits {
    commands: u64,
    changes: u64,
    facts: u64,
}

impl Model for Limits {
    ghost use Rattle.std.specs.Prelude.{◌≡◌, true};
    ghost use Rattle.wh_history.specs.Tables.{Limits as LimitCounts};
    ghost use Rattle.wh_rows.specs.Limits.{are_limits};

    ghost Value = { LimitCounts };

    ghost view = { λ l. record { commands = l.commands; changes = l.changes; facts = l.facts } };

    ghost invariant = { λ l. are_limits (record { commands = l.commands; changes = l.changes; facts = l.facts }) ≡ true };

    ghost inverse = { λ v. record { commands = v.commands; changes = v.changes; facts = v.facts } };
}

impl Limits {
    /// These limits, where each is from 1 to its greatest: 100,000 commands, 1,000,000 changes, 1,000,000 facts; else `None`.
    pub fn new(commands: u64, changes: u64, facts: u64) -> Option<Limits>
        ensures { result ≡ limits_of commands changes facts }
    {
        if is_limit(MOST_COMMANDS, commands)
            && is_limit(MOST_CHANGES, changes)
            && is_limit(MOST_FACTS, facts)
        {
            Some(Limits {
                commands,
                changes,
                facts,
            })
        } else {
            None
        }
    }

    /// The most commands.
    pub fn commands(self) -> u64
        ensures same { result ≡ self.commands }
        ensures within { IsTrue (is_limit 100000 result) }
    {
        self.commands
    }

    /// The most changes of members.
    pub fn changes(self) -> u64
        ensures same { result ≡ self.changes }
        ensures within { IsTrue (is_limit 1000000 result) }
    {
        self.changes
    }

    /// The most facts.
    pub fn facts(self) -> u64
        ensures same { result ≡ self.facts }
        ensures within { IsTrue (is_limit 1000000 result) }
    {
        self.facts
    }

    /// The greatest limits.
    pub fn greatest() -> Limits
        ensures { result ≡ greatest_limits }
    {
        Limits {
            commands: MOST_COMMANDS,
            changes: MOST_CHANGES,
            facts: MOST_FACTS,
        }
    }
}

fn is_limit(most: u64, count: u64) -> bool
    ensures { result ≡ is_limit most count }
{
    1 <= count && count <= most
}
