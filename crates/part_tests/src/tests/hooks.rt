use std::marker::Model;
use std::sync::Arc;
use std::sync::atomic::{AtomicU64, Ordering};
use std::test::Fail;
use sync_core::{Ending, How};
use wait_hooks::{Hook, Hooks, mark};

/// A callback that counts its calls. Seen as its base.
#[derive(Drop)]
struct Counting {
    base: u32,
    calls: Arc<AtomicU64>,
}

impl Model for Counting {
    ghost use Rattle.std.specs.Prelude.{ℕ};

    ghost Value = { ℕ };

    ghost view = { λ c. c.base };
}

impl Hook for Counting {
    ghost base = { λ c. c };

    fn base(&self) -> u32 {
        self.base
    }

    fn ended(&mut self, ending: Ending) -> u32 {
        self.calls.fetch_add(1, Ordering::SeqCst);
        mark(self.base, ending)
    }
}

fn ending(order: u32, how: How) -> Ending {
    Ending {
        stream: 1,
        order,
        target: 2,
        release: 5,
        how,
    }
}

#[test]
fn each_ending_calls_once_and_marks_wrap(rt: HostRuntime) -> Result<(), Fail> {
    let calls = Arc::new(rt.alloc(), AtomicU64::new(0))?;
    let counting = Counting {
        base: 4294967295,
        calls: calls.clone()?,
    };
    let mut hooks = Hooks::make(rt.alloc(), counting);
    hooks.reserve(3)?;
    let first = hooks.ended(ending(1, How::Guard));
    let once = calls.load(Ordering::SeqCst);
    let second = hooks.ended(ending(1, How::Release));
    let third = hooks.ended(ending(u32::MAX, How::Closed));
    let (_, marks) = hooks.into_marks();
    let all = calls.load(Ordering::SeqCst);
    assert!(rt; [first, second, third] == [4, 3, 4294967293]);
    assert!(rt; (once, all) == (1, 3));
    assert!(rt; marks.as_slice() == [first, second, third].as_slice());
    Ok(())
}
