//! Scenarios, their steps, and their run.

use crate::pattern::push_pattern;
use std::alloc::{AllocError, AllocFailed, Global};
use std::test::Fail;

/// A step that could not be made: its words mean nothing where it stands, or memory, a store or a file refused it.
#[derive(Clone, Copy, Debug, PartialEq, Eq, Drop)]
pub struct NotMade;

impl From<AllocError> for NotMade {
    fn from(_e: AllocError) -> NotMade {
        NotMade
    }
}

impl<T: Drop> From<AllocFailed<T>> for NotMade {
    fn from(_e: AllocFailed<T>) -> NotMade {
        NotMade
    }
}

/// A step of a scenario.
#[derive(Drop)]
pub struct Step<'a> {
    /// Which line of its text it is, from 1.
    number: usize,
    pub words: &'a str,
    /// The lines that it is handed, each ended.
    pub handed: String,
    /// The lines that it must answer, each ended.
    answer: String,
}

/// Steps under a name.
#[derive(Drop)]
struct Scenario<'a> {
    name: &'a str,
    steps: Vec<Step<'a>>,
}

/// What makes the steps of a scenario, one after the other.
pub trait Driver: Drop + Sized {
    /// A driver that has made no step.
    fn start(alloc: Global) -> Result<Self, NotMade>;

    /// Makes a step, and writes the lines that it answers into `answer`, which is empty.
    fn perform(self, alloc: Global, step: &Step<'_>, answer: &mut String) -> Result<Self, NotMade>;
}

/// The word before the first such sign, and what is after it, empty where there is none.
pub fn parted(text: &str, sign: char) -> (&str, &str) {
    text.split_once(sign).unwrap_or((text, ""))
}

/// Adds a line to lines.
pub fn push_line(lines: &mut String, line: &str) -> Result<(), AllocError> {
    lines.push_str(line)?;
    lines.push_str("\n")
}

/// Adds a line to the steps of a scenario.
fn read_line<'a>(
    alloc: Global,
    steps: &mut Vec<Step<'a>>,
    number: usize,
    line: &'a str,
) -> Result<(), NotMade> {
    let (sign, text) = parted(line, ' ');
    match (sign, steps.last_mut()) {
        (">", Some(step)) => push_line(&mut step.handed, text)?,
        ("=", Some(step)) => push_line(&mut step.answer, text)?,
        (">*", Some(step)) => push_pattern(alloc, &mut step.handed, text)?,
        ("=*", Some(step)) => push_pattern(alloc, &mut step.answer, text)?,
        (">" | "=" | ">*" | "=*", None) => return Err(NotMade),
        _ => steps.push(Step {
            number,
            words: line,
            handed: String::new(alloc),
            answer: String::new(alloc),
        })?,
    }
    Ok(())
}

/// Adds a line of a text: the name of a further scenario, or a line of the last one.
fn add_line<'a>(
    alloc: Global,
    scenarios: &mut Vec<Scenario<'a>>,
    number: usize,
    line: &'a str,
) -> Result<(), NotMade> {
    match (parted(line, ' '), scenarios.last_mut()) {
        (("scenario", name), _) => Ok(scenarios.push(Scenario::new(alloc, name))?),
        (_, Some(scenario)) => read_line(alloc, &mut scenario.steps, number, line),
        (_, None) => Err(NotMade),
    }
}

/// Adds the scenarios of a text.
fn add_scenarios<'a>(
    alloc: Global,
    scenarios: &mut Vec<Scenario<'a>>,
    text: &'a str,
) -> Result<(), NotMade> {
    for (place, line) in text.lines().enumerate() {
        if !line.is_empty() && !line.starts_with('#') {
            add_line(alloc, scenarios, place.saturating_add(1), line)?;
        }
    }
    Ok(())
}

/// What stands before the first name, and then the scenarios of texts that follow one another.
fn scenarios_of<'a>(alloc: Global, texts: &[&'a str]) -> Result<Vec<Scenario<'a>>, NotMade> {
    let mut scenarios = Vec::new(alloc);
    scenarios.push(Scenario::new(alloc, ""))?;
    for text in texts {
        add_scenarios(alloc, &mut scenarios, text)?;
    }
    Ok(scenarios)
}

/// The first line that differs, as it was answered and as it stands in the scenario. Where one of the answers is over, its line is
/// `nothing`.
fn first_difference<'a>(answered: &'a str, wanted: &'a str) -> Option<(&'a str, &'a str)> {
    let mut left = wanted.split_terminator('\n');
    for line in answered.split_terminator('\n') {
        match left.next() {
            Some(other) if other == line => {}
            other => return Some((line, other.unwrap_or("nothing"))),
        }
    }
    match left.next() {
        Some(line) => Some(("nothing", line)),
        None => None,
    }
}

/// Where a step answers otherwise than it must, where it stands and how the answers differ.
fn difference_at(
    alloc: Global,
    step: &Step<'_>,
    answered: &str,
) -> Result<Option<String>, AllocError> {
    let number = step.number;
    let words = step.words;
    match first_difference(answered, step.answer.as_str()) {
        None => Ok(None),
        Some((line, other)) => Ok(Some(format!(in alloc;
            "line {number}, {words}: answers {line}, not {other}"
        )?)),
    }
}

fn not_made(alloc: Global, step: &Step<'_>) -> Result<String, AllocError> {
    let number = step.number;
    let words = step.words;
    format!(in alloc; "line {number}, {words}: is not made")
}

/// Makes steps in turn, up to the first that answers otherwise than it must, and tells how its first such line differs.
fn make<D: Driver>(
    alloc: Global,
    mut driver: D,
    steps: &[Step<'_>],
) -> Result<Result<D, String>, NotMade> {
    for step in steps {
        let mut answer = String::new(alloc);
        driver = match driver.perform(alloc, step, &mut answer) {
            Ok(driver) => driver,
            Err(NotMade) => return Ok(Err(not_made(alloc, step)?)),
        };
        if let Some(line) = difference_at(alloc, step, answer.as_str())? {
            return Ok(Err(line));
        }
    }
    Ok(Ok(driver))
}

/// Puts the name of a scenario before a line.
fn named(alloc: Global, name: &str, line: &str) -> Result<String, AllocError> {
    let mut text = String::from_str(alloc, name)?;
    text.push_str(": ")?;
    text.push_str(line)?;
    Ok(text)
}

/// Makes the steps before the first name.
fn opened<D: Driver>(alloc: Global, opening: &Scenario<'_>) -> Result<Result<D, String>, NotMade> {
    make(alloc, D::start(alloc)?, &opening.steps)
}

impl<'a> Scenario<'a> {
    fn new(alloc: Global, name: &'a str) -> Scenario<'a> {
        Scenario {
            name,
            steps: Vec::new(alloc),
        }
    }

    /// Makes its steps after those before the first name.
    fn difference<D: Driver>(
        &self,
        alloc: Global,
        opening: &Scenario<'_>,
    ) -> Result<Option<String>, NotMade> {
        let driver = match opened::<D>(alloc, opening)? {
            Ok(driver) => driver,
            Err(line) => return Ok(Some(line)),
        };
        match make(alloc, driver, &self.steps)? {
            Ok(_driver) => Ok(None),
            Err(line) => Ok(Some(named(alloc, self.name, line.as_str())?)),
        }
    }
}

/// Makes the scenarios of texts that follow one another, each with a driver of its own, which first makes the steps before the first
/// name. Tells where the first that fails differs; texts that begin with an answer are none.
pub fn difference<D: Driver>(alloc: Global, texts: &[&str]) -> Result<Option<String>, NotMade> {
    let scenarios = scenarios_of(alloc, texts)?;
    let Some((opening, named)) = scenarios.split_first() else {
        return Err(NotMade);
    };
    if named.is_empty() {
        return Ok(opened::<D>(alloc, opening)?.err());
    }
    for scenario in named {
        let line = scenario.difference::<D>(alloc, opening)?;
        if line.is_some() {
            return Ok(line);
        }
    }
    Ok(None)
}

/// Fails where [`difference`] tells a line, with that line.
pub fn check<D: Driver>(alloc: Global, texts: &[&str]) -> Result<(), Fail> {
    match difference::<D>(alloc, texts)? {
        None => Ok(()),
        Some(line) => Err(Fail::new(line)),
    }
}
