use crate::chain::{Size, run};
use ic_live::OpenGate;
use std::test::Fail;

#[test]
fn no_event_is_left(rt: HostRuntime) -> Result<(), Fail> {
    let size = Size {
        workers: 2,
        lane: 8,
        turns: 2_000,
    };
    let ended = run(&rt, rt.alloc(), &OpenGate, size)?;
    let mut done = Vec::new(rt.alloc());
    for progress in ended.progresses.as_slice() {
        assert_eq!(rt; progress.events().len(), progress.answers().len());
        done.push(progress.answers().len())?;
    }
    assert_eq!(rt; done.as_slice(), [10, 0, 0].as_slice());
    Ok(())
}
