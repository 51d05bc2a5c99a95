// The rule of the live view, and its kinds of step.

use crate::known::Known;
use crate::shown::Shown;
use crate::step::Step;
use atomic_table::{Join, Split};
use crossbeam_utils::rule::{Outcome, Protocol};
use left_right::reader::{Reader, Reading};
use left_right::writer::Writer;

/// The rule of the live view: the published version is the last version of a list that only grows.
pub struct Newest;

impl Protocol<Shown, Known> for Newest {
    ghost use Rattle.live_view.specs.Rule.{Holds, nothing};

    ghost holds = { Holds };

    ghost first = { nothing };
}

pub(crate) type Copies = Writer<Shown, Step, Known, Newest>;

pub(crate) type Seat = Reader<Shown, Known, Newest>;

pub(crate) type Open = Reading<Shown, Known, Newest>;

// A viewer looks.
pub(crate) struct Looks;

impl Outcome<Shown, Known> for Looks {
    ghost use Rattle.live_view.specs.Rule.{looks};

    ghost then = { looks };
}

// A viewer enters without a look, to learn what was reported.
pub(crate) struct Meets;

impl Outcome<Shown, Known> for Meets {
    ghost use Rattle.live_view.specs.Rule.{meets};

    ghost then = { meets };
}

// The writer publishes a version.
pub(crate) struct Publishes;

impl Outcome<Shown, Known> for Publishes {
    ghost use Rattle.live_view.specs.Rule.{publishes};

    ghost then = { publishes };
}

// A new viewer hears of the view.
pub(crate) struct Tells;

impl Split<Known> for Tells {
    ghost left = { λ known. known };

    ghost right = { λ known. known };
}

impl Join<Known> for Tells {
    ghost use Rattle.live_view.specs.Rule.{informed, nothing};

    ghost both = { informed };

    ghost spent = { nothing };
}
