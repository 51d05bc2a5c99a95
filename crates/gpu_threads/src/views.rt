//! The viewers of a run: they look at its view beside the clients and the workers, and once more when it is over.
ghost use Rattle.std.specs.Prelude.{◌≡◌, ◌≤◌, [], length, vec_capacity, IfOk, IfSome};
ghost use Rattle.std.specs.List.{All};
ghost use Rattle.gpu_threads.specs.Viewers.{AreFreshViews};
ghost use Rattle.gpu_hall.specs.Looks.{AreViewerLooks};
ghost use Rattle.thread_parts.specs.Watches.{HasNotLooked, HasWatched, HaveWatched};
ghost use Rattle.gpu_threads.specs.Views.{AreAllLooks, IsViewerOf, IsViewTold, SawTold};

use gpu_hall::{Hall, Shown};
use gpu_house::{Naming, Report};
use gpu_io::Gate;
use gpu_word::Memory;
use live_view::{LOOKS, Look, MOST_VIEWERS, Told, ViewWriter, Viewer};
use std::alloc::Global;
use std::sync::Wait;
use std::thread;
use std::thread::Threads;
use thread_parts::Watch;
use wait_hooks::Hook;

/// The viewers of a run, and the writer of the view that they look at. Where there is no viewer, there is no writer.
///
/// It is not `Drop`, as no writer is.
pub(crate) struct Views {
    pub(crate) writer: Option<ViewWriter>,
    pub(crate) watches: Vec<Watch>,
}

// These viewers, numbered, each with room for what it will see.
fn watches_of(alloc: Global, viewers: Vec<Viewer>) -> Result<Vec<Watch>, Memory>
    requires few { length viewers.items ≤ MOST_VIEWERS }
    requires new { All (λ viewer. viewer.looks ≡ []) viewers.items }
    ensures { IfOk result (λ watches. watches.items ≡ viewers.items) }
{
    let mut watches = Vec::with_capacity(alloc, viewers.len())?;
    for viewer in viewers {
        let number = watches.len() as u32 + 1;
        watches.push(Watch::make(alloc, number, viewer)?)?;
    }
    Ok(watches)
}

impl Views {
    /// So many viewers of a view that shows nothing yet.
    ///
    /// # Errors
    ///
    /// `Memory`: for the view, or for what the viewers will see.
    pub(crate) fn make<R: Wait>(rt: &R, alloc: Global, count: u32) -> Result<Views, Memory>
        requires { count ≤ MOST_VIEWERS }
        ensures { IfOk result (AreFreshViews count) }
    {
        if count == 0 {
            return Ok(Views {
                writer: None,
                watches: Vec::new(alloc),
            });
        }
        let (writer, viewers) = live_view::make(rt, alloc, count)?;
        match watches_of(alloc, viewers) {
            Ok(watches) => Ok(Views {
                writer: Some(writer),
                watches,
            }),
            Err(memory) => {
                writer.end(rt);
                Err(memory)
            }
        }
    }
}

/// Each viewer looks, on a thread of its own where there is one.
pub(crate) fn watch_all<G: Gate + Sync, R: Threads + Wait + Sync>(
    rt: &R,
    gate: &G,
    watches: &mut [Watch],
)
    requires { All HasNotLooked watches.old }
    ensures { HaveWatched LOOKS watches.old watches.new }
{
    let threads = watches.len().max(1);
    thread::for_each_mut(
        rt,
        watches,
        threads,
        &|_, watch: &mut Watch|
            requires { HasNotLooked watch.now }
            ensures { HasWatched watch.entry.now.view LOOKS watch.exit.now }
        { watch.watch(rt, gate) },
    );
}

// What the writer tells. There is one, but no hall that comes out of a lock says so: it is asked until it answers.
fn tell<R: Wait>(rt: &R, shown: &mut Shown) -> Told
    ensures told { IsViewTold shown.old result }
    ensures same { shown.new ≡ shown.old }
{
    for _ in rt.forever() {
        if let Some(told) = shown.tell() {
            return told;
        }
    }
    unreachable!()
}

// Tells a viewer of the versions that were shown, until it answers that all its looks were at them.
fn confirm<R: Wait>(rt: &R, shown: &mut Shown, watch: &mut Watch)
    requires { IfSome shown.old.view (λ told. told.view ≡ watch.old.view) }
    ensures told { SawTold shown.old watch.new }
    ensures looks { watch.new.looks ≡ watch.old.looks }
    ensures same { shown.new ≡ shown.old }
{
    for _ in rt.forever() {
        let told = tell(rt, shown);
        if watch.learn(rt, told) {
            return;
        }
    }
    unreachable!()
}

// The last look of a viewer, at the last version that was shown, and then all that it saw.
fn look_last<R: Wait>(rt: &R, shown: &mut Shown, watch: Watch) -> Vec<Look>
    requires { IsViewerOf shown.old watch }
    ensures looks { AreViewerLooks shown.old.plans shown.old.past result.items }
    ensures same { shown.new ≡ shown.old }
{
    let mut watch = watch;
    let told = tell(rt, shown);
    watch.learn(rt, told);
    watch.look(rt);
    confirm(rt, shown, &mut watch);
    watch.into_seen()
}

// The same of each viewer, in a list that has room.
fn look_all<R: Wait>(
    rt: &R,
    shown: &mut Shown,
    watches: Vec<Watch>,
    seen: Vec<Vec<Look>>,
) -> Vec<Vec<Look>>
    requires viewers { All (IsViewerOf shown.old) watches.items }
    requires room { length watches.items ≤ vec_capacity seen }
    requires none { seen.items ≡ [] }
    ensures looks { AreAllLooks shown.old.plans shown.old.past (length watches.items) result.items }
    ensures same { shown.new ≡ shown.old }
{
    let mut seen = seen;
    for watch in watches {
        seen.push_reserved(look_last(rt, shown, watch));
    }
    seen
}

/// Shows the viewers the whole journal of a hall that is done with, and gives what it leaves, and what each viewer saw.
///
/// # Errors
///
/// `Memory`: for the last version of the view, or for the list of what was seen. The hall is ended.
pub(crate) fn show_all<N: Naming, H: Hook, R: Wait>(
    rt: &R,
    alloc: Global,
    hall: Hall<N, H>,
    watches: Vec<Watch>,
) -> Result<(Report, Vec<Vec<Look>>), Memory>
    requires { All (HasWatched N.view LOOKS) watches.items }
    ensures plans { IfOk result (λ ended. ended.0.plans ≡ N.plans) }
    ensures base { IfOk result (λ ended. ended.0.base ≡ N.base) }
    ensures past { IfOk result (λ ended. ended.0.past ≡ hall.past) }
    ensures looks { IfOk result
        (λ ended. AreAllLooks N.plans hall.past (length watches.items) ended.1.items) }
{
    let seen = match Vec::with_capacity(alloc, watches.len()) {
        Ok(seen) => seen,
        Err(error) => {
            hall.end(rt);
            return Err(Memory::from(error));
        }
    };
    let mut shown = hall.show(rt)?;
    let seen = look_all(rt, &mut shown, watches, seen);
    Ok((shown.end(rt), seen))
}
