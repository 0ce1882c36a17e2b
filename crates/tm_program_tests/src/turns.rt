//! Calls that are made in turn.

use tm_memory::{Answer, NOTHING_HELD, Turns, try_twice};

// How often a call is made that gives these octets, until all is right.
#[test]
fn one_request(rt: HostRuntime) {
    // guards: how-tests-refuse-memory
    let alloc = rt.alloc();
    let mut turns = Turns::new(&rt).expect(&rt, NOTHING_HELD);
    for _ in 0..turns.most() {
        let answer = match vec![in alloc; 7u8; 5000] {
            Ok(octets) => Answer::right_if(octets.len() == 5000 && octets.last() == Some(&7)),
            Err(_) => Answer::Refused,
        };
        if !turns.take(answer) {
            break;
        }
    }
    assert!(rt; turns.has_passed());
}

#[test]
fn calls_that_are_never_right(rt: HostRuntime) {
    // guards: how-tests-refuse-memory
    for answer in [Answer::Refused, Answer::Wrong, Answer::NotMade] {
        let mut turns = Turns::new(&rt).expect(&rt, NOTHING_HELD);
        for _ in 0..turns.most() {
            if !turns.take(answer) {
                break;
            }
        }
        assert!(rt; !turns.has_passed());
    }
    let nothing: Option<u8> = try_twice(|| None);
    assert_eq!(rt; nothing, None);
}
