//! What runs scenarios, on a driver that answers what it is handed.

use std::alloc::{AllocError, Global};
use std::test::Fail;
use wh_scenarios::{Driver, NotMade, Step, difference, push_line, push_number};

/// Answers a step with the lines that it is handed, and then `count` with how many steps were made before. `fail` isn't made.
#[derive(Drop)]
struct Echo {
    steps: u64,
}

impl Driver for Echo {
    fn start(_alloc: Global) -> Result<Echo, NotMade> {
        Ok(Echo { steps: 0 })
    }

    fn perform(
        self,
        _alloc: Global,
        step: &Step<'_>,
        answer: &mut String,
    ) -> Result<Echo, NotMade> {
        if step.words == "fail" {
            return Err(NotMade);
        }
        answer.push_str(step.handed.as_str())?;
        if step.words == "count" {
            push_number(answer, self.steps)?;
            push_line(answer, " steps")?;
        }
        Ok(Echo {
            steps: self.steps.saturating_add(1),
        })
    }
}

/// Scenarios, and what came of them.
const TOLD: [(&str, &str); 11] = [
    ("say\n> a\n>\n= a\n=\n\n# b\nsay\n> c d\n= c d\n", ""),
    (
        "say\n> a\n= a\n\nsay it\n> a\n> b\n= a\n= c\n",
        "line 5, say it: answers b, not c",
    ),
    (
        "say\n> a\n> b\n= a\n",
        "line 1, say: answers b, not nothing",
    ),
    (
        "say\n> a\n= a\n= b\n",
        "line 1, say: answers nothing, not b",
    ),
    ("fail\n= a\n", "line 1, fail: is not made"),
    ("fail\n", "line 1, fail: is not made"),
    ("= a\n", "no scenario"),
    (
        "say\n\nscenario one\ncount\n= 1 steps\n\nscenario two\nsay\ncount\n= 2 steps\n",
        "",
    ),
    (
        "scenario one\nsay\n> a\n= a\nscenario the other one\nsay\n> b\n= c\n",
        "the other one: line 6, say: answers b, not c",
    ),
    (
        "say\n> a\n= b\nscenario one\nsay\n",
        "line 1, say: answers a, not b",
    ),
    (
        "say\n>* a{8-10} b{08-10}\n= a8 b08\n= a9 b09\n= a10 b10\n\nsay\n> a1b\n> a2b\n=* a{1-3}b\n",
        "line 7, say: answers nothing, not a3b",
    ),
];

/// What went wrong in a scenario, empty where each step answers what it must.
fn difference_in(alloc: Global, scenario: &str) -> Result<String, AllocError> {
    match difference::<Echo>(alloc, &[scenario]) {
        Ok(None) => Ok(String::new(alloc)),
        Ok(Some(line)) => Ok(line),
        Err(NotMade) => String::from_str(alloc, "no scenario"),
    }
}

#[test]
fn differences_are_told(rt: HostRuntime) -> Result<(), Fail> {
    for (scenario, line) in TOLD {
        assert_eq!(rt; difference_in(rt.alloc(), scenario)?.as_str(), line);
    }
    Ok(())
}
