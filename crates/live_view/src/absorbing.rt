use crate::shown::Shown;
use crate::step::Step;
use left_right::Absorb;
use std::alloc::AllocError;

impl Absorb<Step> for Shown {
    ghost use Rattle.live_view.specs.Steps.{shown_after};

    type State = Shown;

    ghost state = { λ shown. shown };

    ghost applied = { shown_after };

    fn absorb_first(&mut self, step: &Step, _other: &Shown) -> Result<(), AllocError> {
        match step {
            Step::Draw(drawn) => match self.version.images.apply(drawn.op()) {
                Ok(_) => Ok(()),
                Err(_) => Err(AllocError),
            },
            Step::End(mark) => {
                self.version.events = mark.events;
                self.front = mark.front.again();
                Ok(())
            }
        }
    }
}
