ghost use Rattle.std.specs.Prelude.{◌≡◌, ℕ, ◌<◌, ◌≤◌, ◌==◌, [], length, filter, false, Some, None, OnOk, IfOk};
ghost use Rattle.std.specs.List.{list_any};
ghost use Rattle.std.specs.List.Sorted.{IsStrictlySortedBy};
ghost use Rattle.std.specs.BTreeMap.{is_at};
ghost use Rattle.std.specs.BTreeSet.{insert_key};
ghost use Rattle.std.specs.Set.{remove_key};
ghost use Rattle.slab.specs.Slab.{get, HasRoomFor, Updates};
ghost use Rattle.sync_core.specs.declared.wait.Wait.{Wait};
ghost use Rattle.sync_core.specs.Keys.{wait_cmp};
ghost use Rattle.sync_core.specs.Records.{waits_of};
ghost use Rattle.sync_core.specs.Queues.{GoesLast, is_of_whose, is_other};

use crate::wait::Wait;
use crate::which::{Whose, is_of};
use slab::Slab;
use std::alloc::{AllocError, Global};
use std::marker::Model;

/// The records of the pending waits, which lie in a slab, and how many there are of each order
/// number.
#[derive(Drop)]
pub struct Records {
    slots: Slab<Wait>,
    counts: Vec<usize>,
}

impl Model for Records {
    ghost use Rattle.std.specs.Prelude.{length};
    ghost use Rattle.sync_core.specs.Records.{RecordsData, HoldRecords};

    ghost Value = { RecordsData };

    ghost view = { λ r. record { slab = r.slots; numbers = length r.counts.items } };

    ghost invariant = { λ r. HoldRecords r.slots r.counts.items };
}

impl Records {
    /// No waits.
    pub fn new(alloc: Global) -> Records
        ensures { result.slab.slots ≡ [] }
    {
        Records {
            slots: Slab::new(alloc),
            counts: Vec::new(alloc),
        }
    }

    /// How many waits there are.
    pub fn len(&self) -> usize
        ensures len { result ≡ length (waits_of self.now.slab) }
        ensures rising { IsStrictlySortedBy wait_cmp (waits_of self.now.slab) }
    {
        self.slots.len()
    }

    /// Whether a wait of an order number is there.
    pub fn has_of(&self, order: u32) -> bool
        ensures { result ≡ list_any (λ (w : Wait). w.order == order) (waits_of self.now.slab) }
    {
        match self.counts.get(order as usize) {
            Some(count) => 0 < *count,
            None => false,
        }
    }

    /// The wait in a slot.
    #[inline(always)]
    pub fn get(&self, slot: usize) -> Option<Wait>
        ensures { result ≡ get self.now.slab slot }
    {
        self.slots.get(slot).copied()
    }

    /// Takes room for a wait of an order number, and gives the slot into which it will go.
    pub fn reserve(&mut self, order: u32) -> Result<usize, AllocError>
        ensures room { OnOk result (HasRoomFor self.new.slab 1) }
        ensures counted { OnOk result (order < self.new.numbers) }
        ensures slot { IfOk result (λ slot. slot ≡ self.new.slab.vacant_key) }
        ensures same { self.new.slab.slots ≡ self.old.slab.slots }
        ensures grows { self.old.slab.capacity ≤ self.new.slab.capacity }
    {
        self.slots.reserve(1)?;
        while self.counts.len() <= order as usize {
            self.counts.push(0)?;
        }
        Ok(self.slots.vacant_key())
    }

    /// Puts a wait into the slot that is next.
    pub fn insert(&mut self, wait: Wait)
        requires room { HasRoomFor self.old.slab 1 }
        requires counted { wait.order < self.old.numbers }
        requires last { GoesLast wait (waits_of self.old.slab) }
        ensures vacant { get self.old.slab self.old.slab.vacant_key ≡ None }
        ensures updates { Updates self.old.slab self.new.slab self.old.slab.vacant_key (Some wait) }
        ensures waits { waits_of self.new.slab ≡ insert_key wait_cmp (waits_of self.old.slab) wait }
        ensures capacity { self.new.slab.capacity ≡ self.old.slab.capacity }
    {
        let _slot = self.slots.insert_reserved(wait);
        let _waiting = self.slots.len();
        self.counts[wait.order as usize] += 1;
    }

    /// Takes a wait out of its slot.
    pub fn remove(&mut self, slot: usize, wait: Wait)
        requires { get self.old.slab slot ≡ Some wait }
        ensures updates { Updates self.old.slab self.new.slab slot None }
        ensures waits { waits_of self.new.slab
            ≡ remove_key (is_at (wait_cmp wait)) (waits_of self.old.slab) }
        ensures capacity { self.new.slab.capacity ≡ self.old.slab.capacity }
    {
        let _wait = self.slots.remove(slot);
        self.counts[wait.order as usize] -= 1;
    }

    /// Takes the wait in a slot away, if there is one that goes.
    fn drop_in(&mut self, slot: usize, whose: Whose)
        ensures fewer { (i : ℕ) (w : Wait) → get self.new.slab i ≡ Some w → get self.old.slab i ≡ Some w }
        ensures gone { (w : Wait) → get self.new.slab slot ≡ Some w → is_of_whose whose w ≡ false }
        ensures others { filter (is_other whose) (waits_of self.new.slab)
            ≡ filter (is_other whose) (waits_of self.old.slab) }
        ensures capacity { self.new.slab.capacity ≡ self.old.slab.capacity }
    {
        if let Some(wait) = self.get(slot) {
            if is_of(whose, wait) {
                self.remove(slot, wait);
            }
        }
    }

    /// How many slots there are, which is above all slots that have a wait.
    pub fn bound(&self) -> usize
        ensures value { result ≡ self.now.slab.capacity }
        ensures above { (i : ℕ) (w : Wait) → get self.now.slab i ≡ Some w → i < result }
    {
        self.slots.capacity()
    }

    /// Takes all waits of an order number or of a stream away.
    pub fn drop_all(&mut self, whose: Whose)
        ensures fewer { (i : ℕ) (w : Wait) → get self.new.slab i ≡ Some w → get self.old.slab i ≡ Some w }
        ensures waits { waits_of self.new.slab ≡ filter (is_other whose) (waits_of self.old.slab) }
        ensures capacity { self.new.slab.capacity ≡ self.old.slab.capacity }
    {
        for slot in 0..self.bound() {
            self.drop_in(slot, whose);
        }
    }
}
