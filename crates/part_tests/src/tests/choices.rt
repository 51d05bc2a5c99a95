use seq_sched::Scheduler;
use std::test::Fail;
use sync_core::{Judged, SyncCore};

#[test]
fn the_choice_follows_priority_number_waits_and_homes(rt: HostRuntime) -> Result<(), Fail> {
    // Stream 2 has the higher priority.
    let made = Scheduler::make(rt.alloc(), &[1, 0, 1]);
    let core = SyncCore::make(rt.alloc(), 3);
    assert!(rt; made.is_ok() && core.is_ok());
    if let (Ok(mut scheduler), Ok(mut core)) = (made, core) {
        assert!(rt; scheduler.pick(&core) == None);
        assert!(rt; core.order(1, &[]).is_ok());
        assert!(rt; core.order(3, &[]).is_ok());
        assert!(rt; scheduler.pick(&core) == Some(1));
        assert!(rt; core.order(2, &[]).is_ok());
        assert!(rt; scheduler.pick(&core) == Some(2));
        assert!(rt; core.front(2).is_some());
        assert!(rt; matches!(core.wait(2, 1, 5), Ok(Judged::Kept)));
        assert!(rt; scheduler.pick(&core) == Some(1));
        scheduler.take(1);
        assert!(rt; scheduler.pick(&core) == Some(3));
        core.release(1, 5);
        assert!(rt; scheduler.pick(&core) == Some(2));
        core.lose(2);
        core.lose(3);
        assert!(rt; scheduler.pick(&core) == None);
        scheduler.give_back(1);
        assert!(rt; scheduler.pick(&core) == Some(1));
    }
    Ok(())
}
