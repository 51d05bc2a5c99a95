use gpu_cmd::{Name, Priority};
use gpu_plan::{Action, Plans, parse};
use std::alloc::Global;
use std::test::Fail;

/// Scripts, and the fences of the flush that is all their first stream does.
const FENCES: [(&[u8], &[(u32, u64)]); 2] = [
    (
        b"gpu-script\t2\r
# stream 9 9 low 16
stream 3 7 low 16
flush 0 1 18446744073709551615 5 003 7 6 256 1 7
stream 1 18446744073709551615 high 16",
        &[(2, 5), (1, 6), (0, 7)],
    ),
    (
        b"gpu-script 2
stream 1 1 low 16
flush 0 9 9 1 2 2 2 8 8 3 1 1 4
stream 2 2 low 16
flush 0 2 2 5 9 9 6 8 8 7
stream 8 8 low 16",
        &[(0, 1), (2, 2), (3, 3), (1, 4)],
    ),
];

// The plans of a script.
pub(super) fn plans_of(alloc: Global, text: &[u8]) -> Result<Plans, Fail> {
    if text.len() > 16_777_216 {
        return Err("a script".into());
    }
    Ok(parse(alloc, text).ok().ok_or("a script")?)
}

// Whether the one action of the first stream is a flush to 0 with these fences.
fn is_flush(plans: &Plans, wanted: &[(u32, u64)]) -> bool {
    if plans.count() == 0 {
        return false;
    }
    let plan = plans.plan(1);
    match plan.actions() {
        [Action::Flush { put: 0, .. }] => plan.fences_at(0) == wanted,
        _ => false,
    }
}

#[test]
fn fences_have_the_numbers_of_their_streams(rt: HostRuntime) -> Result<(), Fail> {
    for (text, wanted) in FENCES {
        let plans = plans_of(rt.alloc(), text)?;
        assert!(rt; is_flush(&plans, wanted));
    }
    Ok(())
}

#[test]
fn streams_have_their_names(rt: HostRuntime) -> Result<(), Fail> {
    let names = [
        (
            b"gpu-script 2\nstream 255 1 low 16\nstream 0 1 low 16".as_slice(),
            255,
            1,
        ),
        (
            b"gpu-script 1\nstream 1 low 16\nstream 2 low 16".as_slice(),
            0,
            1,
        ),
    ];
    for (text, namespace, id) in names {
        let plans = plans_of(rt.alloc(), text)?;
        let name = Name { namespace, id };
        assert!(rt; plans.count() == 2);
        assert!(rt; plans.name(1) == name);
        assert!(rt; plans.number(name) == 1);
        let nobody = Name { namespace: 1, id };
        assert!(rt; plans.number(nobody) == 0);
    }
    Ok(())
}

// Whether the action at a place of the list puts this value at this place.
fn puts(actions: &[Action], at: usize, place: u32, value: u32) -> bool {
    match actions.get(at) {
        Some(Action::Put { place: p, value: v }) => p.get() == place && *v == value,
        _ => false,
    }
}

#[test]
fn a_script_gives_its_plan(rt: HostRuntime) -> Result<(), Fail> {
    let text = b" # blanks, and a last line without a line feed
gpu-script\t1\r
stream 0000000001 normal 16
memory 15 65536
results 3 1
results 0 65535
 put 0\t20400004 A\r

fill 15 65535 fFfFfFfF
token 7
dump 0 65534
close";
    let plans = plans_of(rt.alloc(), text)?;
    assert!(rt; plans.count() == 1);
    let plan = plans.plan(1);
    assert!(rt; matches!(plan.priority(), Priority::Normal));
    assert!(rt; plan.areas().places() == 65_552);
    assert!(rt; plan.dumps() == [(4, 65_535)].as_slice());
    let actions = plan.actions();
    assert!(rt; actions.len() == 6);
    assert!(rt; puts(actions, 0, 0, 0x2040_0004));
    assert!(rt; puts(actions, 1, 1, 10));
    assert!(rt; puts(actions, 2, 65_551, u32::MAX));
    assert!(rt; matches!(actions.get(3), Some(Action::Token { token: 7 })));
    assert!(rt; matches!(actions.get(4), Some(Action::Finish)));
    assert!(rt; matches!(actions.get(5), Some(Action::Close)));
    Ok(())
}
