ghost use Rattle.std.specs.Prelude.{◌≡◌, ℕ, ◌<◌, ◌^◌, true, is_some, IfOk, OnOk, map};
ghost use Rattle.std.specs.List.{All};
ghost use Rattle.std.specs.List.Sorted.{IsStrictlyIncreasing};
ghost use Rattle.journal_verify.specs.Dumped.{is_dumped_in, last_with, is_from, IsWrittenTo, HasTakenUp, IsUntouched};

use crate::reach::number_at;
use gpu_plan::Plan;
use gpu_word::Memory;
use std::alloc::Global;
use std::collections::BTreeMap;
use std::marker::Model;

/// What the dumped result places of a stream have held:
/// - which places are dumped, and the value of each of them now
/// - of each place and each value that it no longer has, how many flushes were finished when it last had that
///
/// So the memory goes with the different values that dumped places have held, and a dump costs one look-up.
#[derive(Drop)]
pub(crate) struct Dumped {
    is_dumped: Vec<bool>,
    values: Vec<u32>,
    left: BTreeMap<(u32, u32), u32>,
}

impl Model for Dumped {
    ghost use Rattle.std.specs.Prelude.{◌≡◌, length};
    ghost use Rattle.journal_verify.specs.Dumped.{DumpedData, AreSmall};

    ghost Value = { DumpedData };

    ghost view = { λ d. record {
      is_dumped = d.is_dumped.items;
      values = d.values.items;
      left = d.left.entries;
    } };

    ghost invariant = { λ d. (length d.values.items ≡ length d.is_dumped.items) × AreSmall d.left.entries };
}

// How many places there are up to the greatest that is dumped.
fn places_in(dumps: &[(u32, u32)]) -> usize
    ensures { All (λ dump. dump.1 < result) dumps.now }
{
    let mut count = 0;
    for (_, place) in dumps {
        count = count.max(*place as usize + 1);
    }
    count
}

// Whether a number is there, and is at least this one.
fn is_from(least: u32, last: Option<u32>) -> bool
    ensures { result ≡ is_from least last }
{
    match last {
        Some(last) => least <= last,
        None => false,
    }
}

impl Dumped {
    /// Before any event.
    pub(crate) fn make(alloc: Global, plan: &Plan) -> Result<Dumped, Memory>
        ensures { IfOk result (λ dumped. IsUntouched plan.now dumped) }
    {
        let dumps = plan.dumps();
        let count = places_in(dumps);
        let mut is_dumped = vec![in alloc; false; count]?;
        let values = vec![in alloc; 0; count]?;
        for (_, place) in dumps {
            is_dumped[*place as usize] = true;
        }
        Ok(Dumped {
            is_dumped,
            values,
            left: BTreeMap::new(alloc),
        })
    }

    // Whether a place is dumped.
    fn has(&self, place: u32) -> bool
        ensures { result ≡ is_dumped_in self.now place }
    {
        match self.is_dumped.get(place as usize) {
            Some(dumped) => *dumped,
            None => false,
        }
    }

    // A value is written to a place while a given number of flushes is finished.
    fn write(&mut self, place: u32, value: u32, finished: u32) -> Result<(), Memory>
        ensures { OnOk result (IsWrittenTo place value finished self.old self.new) }
    {
        if !self.has(place) {
            return Ok(());
        }
        let at = place as usize;
        let last = self.values[at];
        self.left.insert((place, last), finished)?;
        self.values[at] = value;
        Ok(())
    }

    /// A step writes these while a given number of flushes is finished.
    pub(crate) fn take(&mut self, writes: &[(u32, u32)], finished: u32) -> Result<(), Memory>
        requires { IsStrictlyIncreasing (map (λ write. write.0) writes.now) }
        ensures { OnOk result (HasTakenUp writes.now finished self.old self.new) }
    {
        for (place, value) in writes {
            self.write(*place, *value, finished)?;
        }
        Ok(())
    }

    // How many flushes were finished when a place last had a value, where this number of them is finished now.
    fn last_with(&self, place: u32, value: u32, finished: u32) -> Option<u32>
        ensures told { result ≡ last_with self.now finished place value }
        ensures small { (other : ℕ) → is_some (last_with self.now finished place other) ≡ true
            → other < 2 ^ 32 }
    {
        let now = number_at(&self.values, place);
        if now == value {
            return Some(finished);
        }
        self.left.get(&(place, value)).copied()
    }

    /// Whether a dumped place had a value when at least a given number of flushes was finished, where this number of them is
    /// finished now. No greater value than one of 32 bits was there.
    pub(crate) fn had(&self, place: u32, least: u32, value: u32, finished: u32) -> bool
        ensures told { result ≡ is_from least (last_with self.now finished place value) }
        ensures small { (other : ℕ) → is_from least (last_with self.now finished place other) ≡ true
            → other < 2 ^ 32 }
    {
        is_from(least, self.last_with(place, value, finished))
    }
}
