ghost use Rattle.std.specs.Prelude.{◌≡◌, ◌+◌, ◌≤◌, ◌^◌, IsErr};
ghost use Rattle.gpu_word.specs.Refused.{refused};

use std::alloc::{AllocError, AllocFailed, Global};

/// Out of memory: the library refused an allocation.
///
/// Its field is private, and it is neither `Clone` nor `Copy` nor `Default`. So each one was made from a refusal of the
/// library, by `From`. Whoever answers one was refused, or was handed one.
#[derive(Debug, Drop)]
pub struct Memory {
    _refusal: (),
}

impl Memory {
    /// The library's refusal of a list that no machine can hold, where a count would run over: so many are held, and so
    /// many more are asked for.
    ///
    /// No run comes to such a count within the limits of a script.
    pub fn of_too_many(alloc: Global, held: usize, more: usize) -> Memory
        requires { 2 ^ 32 ≤ held + more }
    {
        let _ = (held, more);
        match too_many(alloc) {
            Ok(()) => unreachable!(),
            Err(error) => Memory::from(error),
        }
    }
}

// Asks for a list that has one element and room for as many more as a number can say.
fn too_many(alloc: Global) -> Result<(), AllocError>
    ensures { IsErr result }
{
    let mut list = Vec::with_capacity(alloc, 1)?;
    list.push_reserved(0u8);
    list.reserve(usize::MAX)?;
    let _ = list.capacity();
    Ok(())
}

impl From<AllocError> for Memory {
    ghost from_gives = { λ _ memory. memory ≡ refused };

    fn from(_error: AllocError) -> Memory {
        Memory { _refusal: () }
    }
}

impl<T: Drop> From<AllocFailed<T>> for Memory {
    ghost from_gives = { λ _ memory. memory ≡ refused };

    fn from(_error: AllocFailed<T>) -> Memory {
        Memory { _refusal: () }
    }
}
