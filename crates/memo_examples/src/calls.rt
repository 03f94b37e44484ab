// A table of calls, and one memo that they are made on.
use crate::weights::Heavy;
use closure_memo::{Kept, MemoCall, MemoState, What};
use std::process::Abort;

/// A call by a client with a key: a look or a publication, by the step of the history that it is. Its key has this number.
pub struct Call {
    pub client: u32,
    pub key: u32,
    pub what: What,
    pub number: u64,
}

pub const CALLS: &[Call] = &[
    Call {
        client: 0,
        key: 7,
        what: What::Miss,
        number: 0,
    },
    Call {
        client: 0,
        key: 7,
        what: What::New,
        number: 0,
    },
    Call {
        client: 1,
        key: 7,
        what: What::Already,
        number: 0,
    },
    Call {
        client: 1,
        key: 9,
        what: What::Full,
        number: 1,
    },
    Call {
        client: 1,
        key: 9,
        what: What::Miss,
        number: 1,
    },
    Call {
        client: 2,
        key: 7,
        what: What::Hit,
        number: 0,
    },
];

pub fn is_look(call: &Call) -> bool {
    call.what == What::Hit || call.what == What::Miss
}

/// The call as a step of a history, made by the client.
pub fn as_step(call: &Call, client: u32) -> MemoCall {
    MemoCall {
        client,
        key: call.number,
        what: call.what,
        weight: if is_look(call) { 0 } else { 3_000_000 },
    }
}

/// What a look found.
pub fn check_look(rt: &impl Abort, call: &Call, found: Option<u32>) {
    let want = match call.what {
        What::Hit => Some(call.key),
        _ => None,
    };
    assert!(rt; found == want, "{found:?}, and not {want:?}");
}

/// What a publication came to.
pub fn check_publication(rt: &impl Abort, call: &Call, kept: Kept) {
    let came_to = match kept {
        Kept::New => What::New,
        Kept::Already => What::Already,
        Kept::Full => What::Full,
    };
    let what = call.what;
    assert!(rt; came_to == what, "{came_to:?}, and not {what:?}");
}

fn check_call(rt: &impl Abort, memo: &mut MemoState<Heavy>, call: &Call) {
    if is_look(call) {
        let found = memo.look(call.client, &call.key).expect(rt, "no memory");
        check_look(rt, call, found);
    } else {
        let kept = memo
            .publish(call.client, call.key, call.key)
            .expect(rt, "no memory");
        check_publication(rt, call, kept);
    }
}

pub fn check_step(rt: &impl Abort, step: MemoCall, want: MemoCall) {
    assert!(rt; step == want, "{step:?}, and not {want:?}");
}

fn check_steps(rt: &impl Abort, steps: &[MemoCall]) {
    assert!(rt; steps.len() == CALLS.len(), "so many steps");
    for (step, call) in steps.iter().zip(CALLS) {
        check_step(rt, *step, as_step(call, call.client));
    }
}

#[test]
fn one_value_has_room(rt: HostRuntime) {
    let mut memo = MemoState::new(rt.alloc());
    for call in CALLS {
        check_call(&rt, &mut memo, call);
    }
    check_steps(&rt, memo.steps());
    assert!(&rt; memo.keys() == [7, 9].as_slice(), "other keys");
}
