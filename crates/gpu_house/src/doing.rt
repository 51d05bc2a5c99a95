ghost use Rattle.std.specs.Prelude.{◌≡◌, length};
ghost use Rattle.sync_core.specs.Standing.{IsKnown};
ghost use Rattle.gpu_house.specs.Ending.{doing_of};

use crate::answers::Doing;
use house_core::Core;

/// What a stream is doing.
pub(crate) fn doing(core: &Core, stream: u32) -> Doing
    requires { IsKnown (length core.now.plans.plans) stream }
    ensures { result ≡ doing_of core.now.plans core.now.past stream }
{
    if core.is_lost(stream) {
        return Doing::Lost;
    }
    if core.is_closed(stream) {
        return Doing::Closed;
    }
    if core.is_done(stream) {
        return Doing::AllDone;
    }
    Doing::Open
}
