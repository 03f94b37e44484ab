// Memos of several limits.
use crate::weights::Heavy;
use closure_memo::Kept::{self, Full, New};
use closure_memo::MemoState;
use std::alloc::Global;
use std::process::Abort;

// A limit, and what the publications of two values come to.
const LIMITS: &[(u64, Kept, Kept)] = &[
    (0, Full, Full),
    (2_999_999, Full, Full),
    (3_000_000, New, Full),
    (5_999_999, New, Full),
    (6_000_000, New, New),
    (u64::MAX, New, New),
];

fn check_limit(rt: &impl Abort, alloc: Global, limit: u64, want: (Kept, Kept)) {
    let mut memo = MemoState::<Heavy>::with_limit(alloc, limit);
    let first = memo.publish(0, 1, 1).expect(rt, "no memory");
    let second = memo.publish(0, 2, 2).expect(rt, "no memory");
    assert!(rt; (first, second) == want, "{limit}: {first:?}, {second:?}");
    let told = memo.limit();
    assert!(rt; told == limit, "{limit}: {told}");
}

#[test]
fn a_limit_is_reached_and_not_passed(rt: HostRuntime) {
    for (limit, first, second) in LIMITS {
        check_limit(&rt, rt.alloc(), *limit, (*first, *second));
    }
}
