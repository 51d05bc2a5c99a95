//! What viewers are shown of the journal, and the end.
ghost use Rattle.std.specs.Prelude.{◌≡◌, IfOk, IfSome, OnOk, OnErr};
ghost use Rattle.gpu_hall.specs.Views.{ShowsAll, IsOfSameView};

use crate::hall::Hall;
use crate::noting::{end_view, publish_all};
use crate::shown::Shown;
use gpu_house::{Naming, Report};
use gpu_word::Memory;
use std::sync::Wait;
use wait_hooks::Hook;

impl<N: Naming, H: Hook> Hall<N, H> {
    /// Publishes the whole journal in the view, where there is one. It waits for viewers that still read an earlier version.
    ///
    /// # Errors
    ///
    /// `Memory`: what is shown stays, and nothing is lost for it. A later call shows more.
    pub fn publish<R: Wait>(&mut self, rt: &R) -> Result<(), Memory>
        ensures past { self.new.past ≡ self.old.past }
        ensures outs { self.new.outs ≡ self.old.outs }
        ensures view { IsOfSameView self.old.view self.new.view }
        ensures all { OnOk result (ShowsAll N.plans self.new.past self.new.view) }
        ensures stays { OnErr result (self.new.view ≡ self.old.view) }
    {
        let Hall { house, view, .. } = self;
        match view {
            Some(writer) => publish_all(rt, house, writer),
            None => Ok(()),
        }
    }

    /// Publishes the whole journal in the view, where there is one, and ends the house. What comes out can tell viewers so.
    ///
    /// # Errors
    ///
    /// `Memory`: for the view, which is given up, as the report is.
    pub fn show<R: Wait>(self, rt: &R) -> Result<Shown, Memory>
        ensures plans { IfOk result (λ shown. shown.plans ≡ N.plans) }
        ensures base { IfOk result (λ shown. shown.base ≡ N.base) }
        ensures past { IfOk result (λ shown. shown.past ≡ self.past) }
        ensures view { IfOk result (λ shown. IsOfSameView self.view shown.view) }
        ensures named { IfOk result (λ shown. IfSome shown.view (λ told. told.view ≡ N.view)) }
    {
        let Hall {
            house,
            takers: _takers,
            view,
        } = self;
        let Some(writer) = view else {
            return Ok(Shown {
                report: house.report(),
                view: None,
            });
        };
        let mut writer = writer;
        match publish_all(rt, &house, &mut writer) {
            Ok(()) => Ok(Shown {
                report: house.report(),
                view: Some(writer),
            }),
            Err(memory) => {
                writer.end(rt);
                Err(memory)
            }
        }
    }

    /// What the house leaves. The view is given up, where there is one: from then on no look ends. It waits for viewers that are
    /// reading, and takes no memory.
    pub fn end<R: Wait>(self, rt: &R) -> Report
        ensures plans { result.plans ≡ N.plans }
        ensures base { result.base ≡ N.base }
        ensures past { result.past ≡ self.past }
    {
        let Hall {
            house,
            takers: _takers,
            view,
        } = self;
        end_view(rt, view);
        house.report()
    }
}
