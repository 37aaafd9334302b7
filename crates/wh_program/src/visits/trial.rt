//! Trials: a dimension's table as one batch makes it, without a warehouse.

ghost use Rattle.std.specs.Prelude.{◌≡◌, Some, None, IfOk};
ghost use Rattle.wh_policy.specs.Policy.{read_policy};
ghost use Rattle.wh_program.specs.Answer.{table_answer, trial_rows, answer_under, AnswersTrial};
ghost use Rattle.wh_words.specs.Given.{optional_text};

use crate::host::{Host, file_of};
use crate::lines::answer::{Answer, Status};
use crate::lines::{bad_policy, batch_line, no_file};
use std::alloc::{AllocError, Global};
use wh_batch::{BATCH_LIMIT, dimension_records};
use wh_day::ParseError;
use wh_history::trial_table;
use wh_policy::{Dim, POLICY_LIMIT, Policy};
use wh_report::dimension_text;

/// The table of a dimension after a making under the policy and this one batch, or the batch's first fault.
fn table_answer(
    alloc: Global,
    dim: Dim,
    policy: &Policy,
    batch: &[u8],
) -> Result<Answer, AllocError>
    ensures { IfOk result (λ answer. answer ≡ table_answer (trial_rows dim policy.now batch.now)) }
{
    match dimension_records(alloc, dim, policy, batch) {
        Ok(records) => {
            let rows = trial_table(alloc, policy, dim, records.as_slice())?;
            let table = dimension_text(alloc, &rows)?;
            Ok(Answer::new(Status::Done, table))
        }
        Err(ParseError::Fault(fault)) => {
            Ok(Answer::new(Status::Refused, batch_line(alloc, fault)?))
        }
        Err(ParseError::Memory) => Err(AllocError),
    }
}

/// The table under the policy that a text writes, or the policy's first fault.
fn answer_under(alloc: Global, dim: Dim, policy: &[u8], batch: &[u8]) -> Result<Answer, AllocError>
    ensures { IfOk result (λ answer. answer ≡ answer_under dim batch.now (read_policy policy.now)) }
{
    match Policy::read(alloc, policy) {
        Ok(policy) => table_answer(alloc, dim, &policy, batch),
        Err(ParseError::Fault(fault)) => bad_policy(alloc, fault),
        Err(ParseError::Memory) => Err(AllocError),
    }
}

/// A trial of the batch in a file, under the trial's own policy.
fn plain_trial<H: Host>(alloc: Global, dim: Dim, path: &str, host: &H) -> Result<Answer, AllocError>
    ensures { IfOk result (AnswersTrial (H.holds host.now) dim path.now None) }
{
    let Some(batch) = file_of(alloc, path, BATCH_LIMIT, host)? else {
        return no_file(alloc, path);
    };
    let policy = Policy::trial(alloc)?;
    table_answer(alloc, dim, &policy, &batch)
}

/// A trial of the batch in a file, under the policy in another, which is read first.
fn trial_under<H: Host>(
    alloc: Global,
    dim: Dim,
    path: &str,
    policy: &str,
    host: &H,
) -> Result<Answer, AllocError>
    ensures { IfOk result (AnswersTrial (H.holds host.now) dim path.now (Some policy.now)) }
{
    let Some(text) = file_of(alloc, policy, POLICY_LIMIT, host)? else {
        return no_file(alloc, policy);
    };
    let Some(batch) = file_of(alloc, path, BATCH_LIMIT, host)? else {
        return no_file(alloc, path);
    };
    answer_under(alloc, dim, &text, &batch)
}

/// A trial of the batch in a file, under the trial's own policy or the one in another file.
pub fn trial<H: Host>(
    alloc: Global,
    dim: Dim,
    path: &str,
    policy: Option<&str>,
    host: &H,
) -> Result<Answer, AllocError>
    ensures { IfOk result (AnswersTrial (H.holds host.now) dim path.now (optional_text policy.entry)) }
{
    match policy {
        Some(policy) => trial_under(alloc, dim, path, policy, host),
        None => plain_trial(alloc, dim, path, host),
    }
}
