//! Command lines that are refused memory, one request after the other.

use crate::arguments::{USAGE, is_named, owned_strings};
use std::alloc::Global;
use tm_arguments::{Action, Plan, plan};
use tm_memory::{Answer, NOTHING_HELD, Turns, try_twice};
use tm_program::UsageFault;

const WORDS: [&str; 8] = [
    "packets",
    "--settings=s",
    "--report=r",
    "--checkpoint=c",
    "--stop-after=3",
    "--resume=b",
    "--strict",
    "x",
];

fn is_known(plan: &Plan) -> bool {
    plan.action == Action::Packets
        && is_named(&plan.settings, "s")
        && is_named(&plan.report, "r")
        && is_named(&plan.checkpoint, "c")
        && plan.stop_after == Some(3)
        && is_named(&plan.resume, "b")
        && plan.strict
        && is_named(&plan.recording, "x")
}

// Plans these arguments once, or the arguments that are kept.
fn plan_once(alloc: Global, kept: &mut Option<Vec<String>>) -> Answer {
    let Some(arguments) = kept.take().or_else(|| owned_strings(alloc, &WORDS)) else {
        return Answer::NotMade;
    };
    match plan(alloc, arguments) {
        Ok(plan) => Answer::right_if(is_known(&plan)),
        Err(UsageFault::NoMemory) => Answer::Refused,
        Err(_) => Answer::Wrong,
    }
}

#[test]
fn refused_plan(rt: HostRuntime) {
    // guards: when-plan-refuses-words
    let alloc = rt.alloc();
    let mut kept = try_twice(|| owned_strings(alloc, &WORDS));
    let mut turns = Turns::new(&rt).expect(&rt, NOTHING_HELD);
    for _ in 0..turns.most() {
        let answer = plan_once(alloc, &mut kept);
        if !turns.take(answer) {
            break;
        }
    }
    assert!(rt; turns.has_passed());
}

const WRONG_WORDS: [&str; 5] = ["frames", "--settings", "s", "a", "b"];

// Refuses wrong arguments once, or the arguments that are kept.
fn refuse_once(alloc: Global, kept: &mut Option<Vec<String>>) -> Answer {
    let Some(arguments) = kept.take().or_else(|| owned_strings(alloc, &WRONG_WORDS)) else {
        return Answer::NotMade;
    };
    match plan(alloc, arguments) {
        Err(UsageFault::Usage(text)) => Answer::right_if(text.as_slice() == USAGE.as_bytes()),
        Err(UsageFault::NoMemory) => Answer::Refused,
        _ => Answer::Wrong,
    }
}

#[test]
fn refused_usage(rt: HostRuntime) {
    // guards: when-plan-refuses-words
    let alloc = rt.alloc();
    let mut kept = try_twice(|| owned_strings(alloc, &WRONG_WORDS));
    let mut turns = Turns::new(&rt).expect(&rt, NOTHING_HELD);
    for _ in 0..turns.most() {
        let answer = refuse_once(alloc, &mut kept);
        if !turns.take(answer) {
            break;
        }
    }
    assert!(rt; turns.has_passed());
}
