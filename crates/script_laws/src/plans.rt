ghost use Rattle.std.specs.Prelude.{◌≡◌, ◌≤◌, Ok, IfOk};
ghost use Rattle.script_generator.specs.Generator.{generated};
ghost use Rattle.gpu_plan.specs.Script.{script_of};

use crate::generated::{generated_is_script, generated_is_short};
use gpu_plan::{Plans, ScriptFault, parse};
use gpu_word::Memory;
use script_generator::{MOST_SIZE, generate};
use std::alloc::Global;

/// The plans of the script that is generated from a size and a seed.
///
/// No line of it is refused, and it is within the limit of a script, so only memory may be wanted.
pub fn generated_plans(alloc: Global, size: u32, seed: u32) -> Result<Plans, Memory>
    requires first { 1 ≤ size }
    requires last { size ≤ MOST_SIZE }
    ensures { IfOk result (λ plans. script_of (generated size seed) ≡ Ok plans) }
{
    generated_is_script();
    generated_is_short();
    let text = generate(alloc, size, seed)?;
    match parse(alloc, &text) {
        Ok(plans) => Ok(plans),
        Err(ScriptFault::Memory(memory)) => Err(memory),
        Err(ScriptFault::Refused { .. }) => unreachable!(),
    }
}
