//! A warehouse from nothing: made, given commands, and closed.

ghost use Rattle.std.specs.Prelude.{IfOk, IfErr, false};
ghost use Rattle.sqlite.specs.Held.{state};
ghost use Rattle.sqlite.specs.State.{HasCleanDisk};
ghost use Rattle.sqlite.specs.Steps.{over_memory};
ghost use Rattle.wh_engine.specs.Fresh.{IsDeliveredFresh};
ghost use Rattle.wh_engine.specs.Opened.{IsNotMade};

use crate::delivery::Replies;
use crate::engine::Engine;
use crate::opening::InitFault;
use sqlite::{Connection, MemStore};
use std::alloc::Global;
use wh_admission::Command;
use wh_rows::Limits;
use wh_store::open_fresh;

/// Makes a warehouse in memory, where nothing is yet, delivers commands to it and closes it. What it holds then depends on no
/// earlier state: it is what the making and the commands define. The error is why no warehouse was made; a fault of a command stops the delivery.
pub fn deliver_fresh(
    alloc: Global,
    policy: &[u8],
    limits: Limits,
    commands: &[Command],
) -> Result<(Replies, Connection<MemStore>), InitFault>
    ensures made { IfOk result (λ it. HasCleanDisk (state over_memory it.1) → IsDeliveredFresh limits policy.now commands.now it.0.answers.items it.0.stop (state over_memory it.1)) }
    // No name is taken, so only the policy's fault, memory or the database stands in the way.
    ensures refused { IfErr result (IsNotMade policy.now false) }
{
    let Ok(connection) = open_fresh(alloc) else {
        return Err(InitFault::Memory);
    };
    match Engine::init(alloc, connection, policy, limits) {
        Ok(mut engine) => {
            let replies = engine.deliver(alloc, commands);
            Ok((replies, engine.close()))
        }
        Err((fault, _)) => Err(fault),
    }
}
