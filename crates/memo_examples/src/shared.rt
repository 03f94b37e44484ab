// The table of calls by one client on a memo that is shared.
ghost use Rattle.std.specs.Prelude.{◌≡◌};

use crate::calls::{CALLS, Call, as_step, check_look, check_publication, check_step, is_look};
use crate::weights::Heavy;
use closure_memo::{MemoCall, Share, Shared};
use std::alloc::Global;
use std::marker::Brand;
use std::process::Abort;
use std::sync::Wait;
use std::sync::ledger::{Blank, Ledger};

fn check_call<L: Ledger, H: Ledger, P: Ledger, N: Ledger, F: Ledger, R: Wait + Abort>(
    rt: &R,
    memo: &Shared<Heavy, L, H, P, N, F>,
    share: &mut Share<L, H, P, N, F>,
    call: &Call,
) {
    if is_look(call) {
        let found = memo.look(rt, share, &call.key).expect(rt, "no memory");
        check_look(rt, call, found);
    } else {
        let kept = memo
            .publish(rt, share, call.key, call.key)
            .expect(rt, "no memory");
        check_publication(rt, call, kept);
    }
}

fn check_calls<L: Ledger, H: Ledger, P: Ledger, N: Ledger, F: Ledger, R: Wait + Abort>(
    rt: &R,
    memo: &Shared<Heavy, L, H, P, N, F>,
    share: &mut Share<L, H, P, N, F>,
) {
    for call in CALLS {
        check_call(rt, memo, share, call);
    }
}

fn check_steps(rt: &impl Abort, steps: &[MemoCall]) {
    assert!(rt; steps.len() == CALLS.len(), "so many steps");
    for (step, call) in steps.iter().zip(CALLS) {
        check_step(rt, *step, as_step(call, 0));
    }
}

fn check_one_client<L: Ledger, H: Ledger, P: Ledger, N: Ledger, F: Ledger, R: Wait + Abort>(
    rt: &R,
    alloc: Global,
    looks: Blank,
    hits: Blank,
    publications: Blank,
    news: Blank,
    fulls: Blank,
)
    requires looks { (looks.name ≡ L.name) × (looks.parts ≡ L.parts) × (looks.parts ≡ 1) }
    requires hits { (hits.name ≡ H.name) × (hits.parts ≡ H.parts) × (hits.parts ≡ 1) }
    requires publications { (publications.name ≡ P.name) × (publications.parts ≡ P.parts) × (publications.parts ≡ 1) }
    requires news { (news.name ≡ N.name) × (news.parts ≡ N.parts) × (news.parts ≡ 1) }
    requires fulls { (fulls.name ≡ F.name) × (fulls.parts ≡ F.parts) × (fulls.parts ≡ 1) }
{
    let made = Shared::<Heavy, L, H, P, N, F>::new(
        alloc,
        1,
        looks,
        hits,
        publications,
        news,
        fulls,
    );
    let (memo, mut shares) = made.expect(rt, "no memory");
    check_calls(rt, &memo, &mut shares[0]);
    check_steps(rt, memo.gather(shares).steps());
}

#[test]
fn one_client_shares_a_memo(rt: HostRuntime) {
    check_one_client::<Brand, Brand, Brand, Brand, Brand, HostRuntime>(
        &rt,
        rt.alloc(),
        Blank::new(1),
        Blank::new(1),
        Blank::new(1),
        Blank::new(1),
        Blank::new(1),
    );
}
