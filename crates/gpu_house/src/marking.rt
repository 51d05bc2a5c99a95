//! The marks follow the endings of the journal.
ghost use Rattle.std.specs.Prelude.{◌≡◌, ◌≤◌, ◌+◌, OnOk};
ghost use Rattle.gpu_house.specs.Marks.{AreMarked, MayBeMarked};

use gpu_word::Memory;
use house_core::Core;
use wait_hooks::{Hook, Hooks};

/// Takes room for a given number of marks more than there are pending waits, which have room.
pub(crate) fn take_room<H: Hook>(
    hooks: &mut Hooks<H>,
    waiting: usize,
    more: usize,
) -> Result<(), Memory>
    requires { waiting ≤ hooks.old.spare }
    ensures marks { hooks.new.marks ≡ hooks.old.marks }
    ensures base { hooks.new.base ≡ hooks.old.base }
    ensures grows { hooks.old.spare ≤ hooks.new.spare }
    ensures room { OnOk result (waiting + more ≤ hooks.new.spare) }
{
    let free = hooks.spare() - waiting;
    if free < more {
        return hooks.reserve(more - free);
    }
    Ok(())
}

/// Each ending that has no mark yet is passed to the callback, once and in order.
pub(crate) fn follow<H: Hook>(core: &Core, hooks: &mut Hooks<H>)
    requires { MayBeMarked core.now.plans hooks.old.base core.now.past hooks.old }
    ensures { AreMarked core.now.plans hooks.old.base core.now.past hooks.new }
{
    let endings = core.endings();
    for i in hooks.marks().len()..endings.len() {
        hooks.ended(endings[i]);
    }
}
