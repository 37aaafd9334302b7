//! Laws of admission and of what is stored. They speak of the definitions alone and do nothing.

ghost use Rattle.wh_admission.specs.Admission.{ActsOnceAtOnce, ActsOnceLater};
ghost use Rattle.wh_admission.specs.Answers.{AnswerIsByCases, AnswersAreOne, SoldLinesAreRefused, WithdrawnLinesAreNotSold, WithdrawnLinesAreRefused};
ghost use Rattle.wh_admission.specs.Steps.{AdmittedIsStepped};
ghost use Rattle.wh_admission.specs.Checked.{SoundIsEachRight, DamageIsWrong, CommandsAreOne};
ghost use Rattle.wh_admission.specs.Sound.{SoundIsOfCommands};

/// The first case that applies gives the answer to a command; where no two accepted commands have one id, there is no other.
pub fn answers_are_by_cases()
    ensures first { AnswerIsByCases }
    ensures only { AnswersAreOne }
{}

/// No batch of sales is accepted that has a line which was sold before, withdrawn or not: so no line is ever sold twice, nor again once
/// it was withdrawn. And no batch of voids that has a line which was withdrawn before, or never sold.
pub fn sold_lines_are_refused()
    ensures sold { SoldLinesAreRefused }
    ensures not_again { WithdrawnLinesAreNotSold }
    ensures withdrawn { WithdrawnLinesAreRefused }
{}

/// A command that comes again acts once: at once, whatever it was answered; and where it was accepted or had been before, whatever
/// was sent in between, and then it is answered with the receipt that it had.
pub fn acts_once()
    ensures at_once { ActsOnceAtOnce }
    ensures later { ActsOnceLater }
{}

/// A list was admitted exactly where it begins with a making and each other command comes after those before it.
pub fn admitted_is_stepped()
    ensures { AdmittedIsStepped }
{}

/// What is stored says one list of commands at most.
pub fn commands_are_one()
    ensures { CommandsAreOne }
{}

/// What is stored is sound exactly where each table is as it should be.
pub fn sound_is_each_right()
    ensures { SoundIsEachRight }
{}

/// What is stored is sound exactly where it is the tables of commands that were admitted, ten in format 1 and twelve in format 2, in whatever order the
/// rows are stored.
pub fn sound_is_of_commands()
    ensures { SoundIsOfCommands }
{}

/// A table that stores a damaged row isn't as it should be.
pub fn damage_is_wrong()
    ensures { DamageIsWrong }
{}
