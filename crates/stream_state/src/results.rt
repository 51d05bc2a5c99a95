ghost use Rattle.std.specs.Prelude.{◌≡◌, ◌≤◌, ◌++◌, ◌-◌, [], length, replicate, slice_index, OnOk, OnErr};
ghost use Rattle.stream_state.specs.Writes.{end_of_writes, after_writes};

use gpu_word::Memory;
use std::alloc::Global;
use std::marker::Model;

/// The values of a stream's result places, up to the greatest that was written. Places that no step wrote are 0.
#[derive(Drop)]
pub struct Results {
    values: Vec<u32>,
}

impl Model for Results {
    ghost use Rattle.std.specs.Prelude.{ℕ, List};

    ghost Value = { List ℕ };

    ghost view = { λ results. results.values.items };
}

// The place after the greatest that is written.
fn end_of(writes: &[(u32, u32)]) -> usize
    ensures { result ≡ end_of_writes writes.now }
{
    let mut end = 0;
    for (place, _) in writes {
        end = end.max(*place as usize + 1);
    }
    end
}

impl Results {
    /// Nothing written.
    pub fn make(alloc: Global) -> Results
        ensures { result ≡ [] }
    {
        Results {
            values: Vec::new(alloc),
        }
    }

    /// The value of a place: 0 where no step wrote it.
    pub fn value(&self, place: u32) -> u32
        ensures { result ≡ slice_index self.now place }
    {
        self.values.get(place as usize).copied().unwrap_or(0)
    }

    // Has values for all places below an end.
    fn grow(&mut self, end: usize) -> Result<(), Memory>
        ensures grown { OnOk result (self.new ≡ self.old ++ replicate (end - length self.old) 0) }
        ensures memory { OnErr result (self.new ≡ self.old) }
    {
        if end > self.values.len() {
            self.values.resize(end, 0)?;
        }
        Ok(())
    }

    // Writes values to places in order.
    fn set(&mut self, writes: &[(u32, u32)])
        requires { end_of_writes writes.now ≤ length self.old }
        ensures { self.new ≡ after_writes writes.now self.old }
    {
        for (place, value) in writes {
            self.values[*place as usize] = *value;
        }
    }

    /// Writes values to places in order.
    pub fn write(&mut self, writes: &[(u32, u32)]) -> Result<(), Memory>
        ensures written { OnOk result (self.new ≡ after_writes writes.now self.old) }
        ensures memory { OnErr result (self.new ≡ self.old) }
    {
        self.grow(end_of(writes))?;
        self.set(writes);
        Ok(())
    }
}
