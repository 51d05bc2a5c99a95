ghost use Rattle.std.specs.Prelude.{◌≡◌, ◌<◌, [], length, map, IfOk, IsTrue};
ghost use Rattle.std.specs.List.{All};
ghost use mathlib.Core.List.{IsPrefix};
ghost use Rattle.live_view.specs.Looks.{IsOf, AreLooks};
ghost use Rattle.thread_parts.specs.Watches.{HasNotLooked, HasWatched, HasLooked};

use gpu_io::{Gate, Place};
use gpu_word::Memory;
use live_view::{ALL_LOOKS, LOOKS, Look, Told, Viewer};
use std::alloc::Global;
use std::marker::Model;
use std::sync::Wait;

/// A viewer of a run, on a thread of its own, with its number, counted from 1, and what it saw.
///
/// Seen as its viewer.
#[derive(Drop)]
pub struct Watch {
    number: u32,
    viewer: Viewer,
    seen: Vec<Look>,
}

impl Model for Watch {
    ghost use Rattle.std.specs.Prelude.{vec_capacity};
    ghost use Rattle.live_view.specs.Seen.{ViewerData};
    ghost use Rattle.thread_parts.specs.Watches.{KeepsLooks};

    ghost Value = { ViewerData };

    ghost view = { λ watch. watch.viewer };

    ghost invariant = { λ watch. KeepsLooks watch.viewer watch.seen.items
        (vec_capacity watch.seen) };
}

impl Watch {
    /// A viewer that has not looked, with room for what it will see.
    ///
    /// # Errors
    ///
    /// `Memory`: for this room.
    pub fn make(alloc: Global, number: u32, viewer: Viewer) -> Result<Watch, Memory>
        requires { viewer.looks ≡ [] }
        ensures { IfOk result (λ watch. watch ≡ viewer) }
    {
        Ok(Watch {
            number,
            viewer,
            seen: Vec::with_capacity(alloc, ALL_LOOKS)?,
        })
    }

    /// Looks once.
    pub fn look<R: Wait>(&mut self, rt: &R)
        requires { length self.old.looks < ALL_LOOKS }
        ensures { HasLooked self.old self.new }
    {
        let look = self.viewer.look(rt);
        self.seen.push_reserved(look);
    }

    /// All looks that are done while the run goes on, each where the gate lets it.
    pub fn watch<R: Wait, G: Gate>(&mut self, rt: &R, gate: &G)
        requires { HasNotLooked self.old }
        ensures { HasWatched self.old.view LOOKS self.new }
    {
        for done in 0..LOOKS {
            gate.reach(Place::BeforeLook {
                viewer: self.number,
                look: done + 1,
            });
            self.look(rt);
        }
    }

    /// Takes in what the writer told, and says whether all looks were at versions that were reported.
    pub fn learn<R: Wait>(&mut self, rt: &R, told: Told) -> bool
        requires { told.view ≡ self.old.view }
        ensures view { self.new.view ≡ self.old.view }
        ensures told { IsPrefix told.versions self.new.versions }
        ensures looks { self.new.looks ≡ self.old.looks }
        ensures each { IsTrue result → All (IsOf told.versions) self.old.looks }
    {
        self.viewer.learn(rt, told)
    }

    /// What it saw.
    pub fn into_seen(self) -> Vec<Look>
        ensures seen { result.items ≡ map (λ sight. sight.look) self.looks }
        ensures kept { AreLooks self.versions self.looks }
    {
        let Watch { viewer, seen, .. } = self;
        viewer.shows_looks();
        seen
    }
}
