//! Commands that are delivered one after the other.

ghost use Rattle.std.specs.Prelude.{◌≡◌, false, Some};
ghost use Rattle.wh_engine.specs.Delivered.{answer_or_stop, is_of_the_store, AcceptNothing, AreAsMany, BlamesStored, EachUntilAccepted, IsDelivered, IsDeliveryNoted, IsDeliveryWritten, IsNoRefusal};
ghost use Rattle.sqlite.specs.State.{HasCleanDisk};
ghost use Rattle.wh_sql.specs.Answers.{is_second_taken, state_of};
ghost use Rattle.wh_engine.specs.Answered.{IsAgain};
ghost use Rattle.wh_engine.specs.Faults.{TellsTaken};
ghost use Rattle.wh_engine.specs.Scanned.{Keeps, Shuts, WhenReady, WhenStored};

use crate::engine::Engine;
use crate::fault::Fault;
use sqlite::Alter;
use std::alloc::Global;
use wh_admission::{Command, Refusal, Reply};

/// The answers to commands that are delivered one after the other.
#[derive(Debug, Drop)]
pub struct Replies {
    /// What was answered to each command, in order, up to the one that stopped the delivery.
    pub answers: Vec<Result<Reply, Refusal>>,
    /// What stopped it: a fault that is no refusal of a command.
    pub stop: Option<Fault>,
}

/// A reply and a refusal of the command are its answer; any other fault stops a delivery.
fn answer_or_stop(answered: Result<Reply, Fault>) -> Result<Result<Reply, Refusal>, Fault>
    ensures { result ≡ answer_or_stop answered }
{
    match answered {
        Ok(reply) => Ok(Ok(reply)),
        Err(Fault::Refused(why)) => Ok(Err(why)),
        Err(fault) => Err(fault),
    }
}

impl<S: Alter> Engine<S> {
    /// Answers commands in order. It goes on after a refusal of a command, and stops at any other fault. Room for all answers is taken
    /// first: where that is refused, no command is begun. After a refusal of the database, in this call or an earlier one, the warehouse has
    /// to be opened again.
    pub fn deliver(&mut self, alloc: Global, commands: &[Command]) -> Replies
        // Any database stays as it was where nothing was accepted and the database refused no call.
        ensures keeps { Keeps S.Store self.old.tables self.new.tables (AcceptNothing result.answers.items × (is_of_the_store result.stop ≡ false)) }
        ensures delivered { WhenReady S.Store self.old self.new (λ limits accepted. IsDelivered limits accepted commands.now result.answers.items result.stop) }
        // On any tables: how many are answered, and that no refusal of a command is a stop.
        ensures many { AreAsMany commands.now result.answers.items result.stop }
        ensures faults { IsNoRefusal result.stop }
        // The table that is named as damaged stores a damaged row, where nothing was accepted before.
        ensures blames { WhenStored S.Store self.old.tables self.new.tables (λ stored. AcceptNothing result.answers.items → BlamesStored stored result.stop) }
        // Up to the first acceptance: that a command came again is answered only where an undamaged row is stored with its id, kind and bytes, and
        // that a name of the second format is taken only where it is.
        ensures again { WhenStored S.Store self.old.tables self.new.tables (λ stored. EachUntilAccepted (IsAgain stored) result.answers.items commands.now) }
        ensures taken { HasCleanDisk (state_of S.Store self.new.tables) → EachUntilAccepted (λ _ said. TellsTaken (is_second_taken (state_of S.Store self.old.tables).now.schema) said) result.answers.items commands.now }
        ensures shuts { Shuts self.old self.new (result.stop ≡ Some Fault.Reopen) }
        // As many keys are written as the last command writes, and none where the delivery was stopped or nothing was accepted.
        ensures written { WhenReady S.Store self.old self.new (λ limits accepted _ _. IsDeliveryWritten limits accepted commands.now result.stop self.new.writes) }
        ensures silent { AcceptNothing result.answers.items → self.new.writes ≡ 0 }
        // The limits stay, and the policy is what the accepted commands make of it.
        ensures noted { self.old.session.must_reopen ≡ false → IsDeliveryNoted self.old.session self.new.session commands.now result.answers.items result.stop }
    {
        self.writes = 0;
        if self.session.must_reopen {
            return Replies {
                answers: Vec::new(alloc),
                stop: Some(Fault::Reopen),
            };
        }
        let Ok(mut answers) = Vec::with_capacity(alloc, commands.len()) else {
            return Replies {
                answers: Vec::new(alloc),
                stop: Some(Fault::Memory),
            };
        };
        for command in commands {
            let answered = self.apply(alloc, command);
            match answer_or_stop(answered) {
                Ok(answer) => answers.push_reserved(answer),
                Err(fault) => {
                    return Replies {
                        answers,
                        stop: Some(fault),
                    };
                }
            }
        }
        Replies {
            answers,
            stop: None,
        }
    }
}
