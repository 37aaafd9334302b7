//! The reports that a list asks for, over one open of a warehouse.

ghost use Rattle.std.specs.Prelude.{◌≡◌, Some};
ghost use Rattle.wh_program.specs.ReportLists.{AnswersReports, listed_answer, LacksList};
ghost use Rattle.wh_program.specs.Standing.{DatabaseContent, Rests};
ghost use Rattle.wh_program.specs.Tasks.{SparesOthers};
ghost use Rattle.wh_program.specs.Warehouse.{AnswersShut, IsNoFileOr};

use crate::host::{Host, manifest_file_of};
use crate::lines::answer::Answer;
use crate::lines::reporting::no_mode;
use crate::lines::{bad_manifest, no_file};
use crate::visits::lists::{Listing, Question};
use crate::visits::opened::work_on;
use crate::visits::report::asked_answer;
use sqlite::Alter;
use std::alloc::{AllocError, Global};
use wh_batch::{ListedReport, Mode, ReportList};
use wh_day::ParseError;
use wh_engine::Engine;
use wh_words::AskedReport;

impl Question for ListedReport {
    ghost answered = { listed_answer };

    fn answer<S: Alter>(
        &self,
        alloc: Global,
        engine: &mut Engine<S>,
    ) -> Result<Answer, AllocError> {
        let word = self.mode.as_str();
        match Mode::from_word(word) {
            Some(mode) => {
                let asked = AskedReport {
                    attribute: self.attribute.as_str(),
                    mode,
                    from: self.from.as_str(),
                    to: self.to.as_str(),
                };
                asked_answer(alloc, engine, &asked)
            }
            None => no_mode(alloc, word),
        }
    }
}

/// Tells what the warehouse in a file has sold, by the reports that a list asks for. The list is read first.
pub fn reports<H: Host>(
    alloc: Global,
    file: &str,
    list: &str,
    host: &mut H,
) -> Result<Answer, AllocError>
    ensures answers { (content : DatabaseContent) → H.stores host.old file.now (Rests content)
        → AnswersReports (H.holds host.old) (H.refuses host.old) (H.stores host.new file.now) content file.now list.now result }
    ensures others { SparesOthers (H.stores host.old) (H.stores host.new) (Some file.now) }
    ensures shut { H.shut host.old file.now → AnswersShut (host.new ≡ host.old) (IsNoFileOr file.now (LacksList (H.holds host.old) list.now)) result }
{
    let Some(text) = manifest_file_of(alloc, list, host)? else {
        return no_file(alloc, list);
    };
    match ReportList::read(alloc, &text) {
        Ok(read) => {
            let listed = read.as_slice();
            work_on(alloc, file, Listing { listed }, host)
        }
        Err(ParseError::Fault(bad)) => bad_manifest(alloc, bad),
        Err(ParseError::Memory) => Err(AllocError),
    }
}
