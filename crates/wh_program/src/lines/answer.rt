//! What a run answers.

ghost use Rattle.std.specs.Prelude.{◌≡◌, ◌==◌};
ghost use Rattle.wh_program.specs.Answer.{status_code};

use std::marker::Model;

/// How a run of a command ends.
#[derive(Clone, Copy, Debug, PartialEq, Eq)]
pub enum Status {
    /// It did what was asked for: status 0.
    Done,
    /// It was refused: status 2.
    Refused,
    /// It failed: status 3.
    Failed,
}

impl Status {
    /// The status to exit with.
    pub fn code(self) -> u8
        ensures { result ≡ status_code self }
    {
        match self {
            Status::Done => 0,
            Status::Refused => 2,
            Status::Failed => 3,
        }
    }
}

/// What a run prints, and how it ends.
#[derive(Debug, Drop)]
pub struct Answer {
    status: Status,
    text: Vec<u8>,
}

impl Model for Answer {
    ghost use Rattle.wh_program.specs.Answer.{Printed, status_code};

    ghost Value = { Printed };

    ghost view = { λ a. record { status = status_code a.status; text = a.text.items } };
}

impl Answer {
    /// The answer that prints this text and ends so.
    pub fn new(status: Status, text: Vec<u8>) -> Answer
        ensures { result ≡ record { status = status_code status; text = text.items } }
    {
        Answer { status, text }
    }

    /// How the run ends.
    pub fn status(&self) -> Status
        ensures { status_code result ≡ self.now.status }
    {
        self.status
    }

    /// Whether it is the answer of a run that failed.
    pub fn has_failed(&self) -> bool
        ensures { result ≡ (self.now.status == 3) }
    {
        self.status == Status::Failed
    }

    /// What it prints.
    pub fn text(&self) -> &[u8]
        ensures { result.now ≡ self.now.text }
    {
        self.text.as_slice()
    }
}
