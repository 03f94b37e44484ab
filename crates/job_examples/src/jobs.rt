// The jobs of all tables.
use crate::checked::check_cases;
use crate::{chains, forced, links};
use std::test::Fail;

#[test]
fn jobs_have_their_outcomes(rt: HostRuntime) -> Result<(), Fail> {
    check_cases(&rt, rt.alloc(), &chains::CASES)?;
    check_cases(&rt, rt.alloc(), &forced::CASES)?;
    check_cases(&rt, rt.alloc(), &links::CASES)
}
