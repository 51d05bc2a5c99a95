ghost use Rattle.std.specs.Prelude.{◌≡◌, ◌<◌};
ghost use Rattle.script_generator.specs.Draws.{next_draw, below};

/// The state after a draw, which is also what the draw gives.
pub(crate) fn drawn(state: u32) -> u32
    ensures { result ≡ next_draw state }
{
    ((1_664_525 * u64::from(state) + 1_013_904_223) % (1 << 32)) as u32
}

/// A small draw below a bound.
pub(crate) fn below(bound: u32, draw: u32) -> u32
    requires { 0 < bound }
    ensures small { result < bound }
    ensures drawn { result ≡ below bound draw }
{
    draw / 65_536 % bound
}
