//! What an engine knows of its warehouse.

ghost use Rattle.std.specs.Prelude.{◌≡◌, unwrap_or};
ghost use Rattle.wh_admission.specs.Admission.{format_brought};

use wh_batch::CommandKind;
use wh_policy::{Format, Policy};
use wh_rows::Limits;

/// What an engine knows of its warehouse while it is open.
#[derive(Debug, Drop)]
pub struct Session {
    /// The limits that were chosen at the making.
    pub limits: Limits,
    /// The format of its tables.
    pub format: Format,
    /// The policy in force.
    pub policy: Policy,
    /// The database refused a call: the warehouse has to be opened again.
    pub must_reopen: bool,
}

/// The format after an accepted command of this kind.
fn format_brought(kind: CommandKind, format: Format) -> Format
    ensures { result ≡ format_brought kind format }
{
    match kind {
        CommandKind::Batch(_) | CommandKind::Migration => format,
        CommandKind::Upgrade => Format::Two,
    }
}

impl Session {
    /// After an accepted command of this kind: the format is the one that it makes, and a newer policy, if there is one, takes the place of
    /// the one in force.
    pub(crate) fn govern(&mut self, kind: CommandKind, newer: Option<Policy>)
        ensures { self.new ≡ record (self.old) { format = format_brought kind self.old.format; policy = unwrap_or newer self.old.policy } }
    {
        self.format = format_brought(kind, self.format);
        if let Some(policy) = newer {
            self.policy = policy;
        }
    }
}
