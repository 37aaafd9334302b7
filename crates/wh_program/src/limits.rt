//! How far the inputs of a run are read.

ghost use Rattle.std.specs.Prelude.{◌≡◌};
ghost use Rattle.wh_program.specs.Inputs.{input_limit};

use wh_batch::{BATCH_LIMIT, CommandKind};
use wh_policy::POLICY_LIMIT;

/// The most bytes of a manifest: 64 MB.
pub const MANIFEST_LIMIT: usize = 64 * 1024 * 1024;

/// The most bytes of the input of a command. An upgrade has none to read.
pub fn input_limit(kind: CommandKind) -> Option<usize>
    ensures { result ≡ input_limit kind }
{
    match kind {
        CommandKind::Batch(_) => Some(BATCH_LIMIT),
        CommandKind::Migration => Some(POLICY_LIMIT),
        CommandKind::Upgrade => None,
    }
}
