ghost use Rattle.std.specs.Prelude.{◌≡◌, IfSome};
ghost use Rattle.gpu_hall.specs.Views.{ShowAll};

use crate::noting::end_view;
use gpu_house::Report;
use live_view::{Told, ViewWriter};
use std::marker::Model;
use std::sync::Wait;

/// What a hall leaves once its whole journal is shown: its report, and the writer of its view, where there is one.
///
/// It is not `Drop`: give it up by `end`.
///
/// Seen as the plans, the base and the journal of the report, and where there is a view, which one it is and its versions.
pub struct Shown {
    pub(crate) report: Report,
    pub(crate) view: Option<ViewWriter>,
}

impl Model for Shown {
    ghost use Rattle.std.specs.Prelude.{option_map, IfSome};
    ghost use Rattle.gpu_hall.specs.Views.{ShownData, ShowAll, view_front};

    ghost Value = { ShownData };

    ghost view = { λ s. record {
      plans = s.report.plans;
      base = s.report.base;
      past = s.report.past;
      view = option_map view_front s.view;
    } };

    ghost invariant = { λ s. IfSome s.view
        (λ writer. ShowAll s.report.plans s.report.past writer.versions) };
}

impl Shown {
    /// Tells which versions were published, where there is a view: each is of first events of the journal, and the last one is of all.
    /// They are the same at each call.
    pub fn tell(&mut self) -> Option<Told>
        ensures told { result ≡ self.old.view }
        ensures all { IfSome result (λ told. ShowAll self.old.plans self.old.past told.versions) }
        ensures same { self.new ≡ self.old }
    {
        match &mut self.view {
            Some(writer) => Some(writer.tell()),
            None => None,
        }
    }

    /// Gives the view up, where there is one: from then on no look ends. It waits for viewers that are reading, and takes no memory.
    pub fn end<R: Wait>(self, rt: &R) -> Report
        ensures plans { result.plans ≡ self.plans }
        ensures base { result.base ≡ self.base }
        ensures past { result.past ≡ self.past }
    {
        let Shown { report, view } = self;
        end_view(rt, view);
        report
    }
}
