ghost use Rattle.std.specs.Prelude.{[], ◌∷◌, ◌++◌, List, IfOk, OnOk};
ghost use Rattle.gpu_plan.specs.Plans.{PlanData};
ghost use Rattle.gpu_run.specs.Making.{AreFreshFor};

use crate::client::Client;
use gpu_books::{Book, Half};
use gpu_fetch::PlainPass;
use gpu_plan::{Plan, Plans};
use gpu_word::Memory;
use std::alloc::Global;

/// What the run on one thread is made of. Of each stream, in order: its client, the service's side of its words, its results,
/// and its book.
#[derive(Drop)]
pub(crate) struct Parts {
    pub(crate) clients: Vec<Client>,
    pub(crate) sides: Vec<PlainPass>,
    pub(crate) results: Vec<()>,
    pub(crate) books: Vec<(Book, Half, Half)>,
}

impl Parts {
    // Those of no stream, with room for a given number.
    fn none(alloc: Global, streams: usize) -> Result<Parts, Memory>
        ensures { IfOk result (AreFreshFor []) }
    {
        Ok(Parts {
            clients: Vec::with_capacity(alloc, streams)?,
            sides: Vec::with_capacity(alloc, streams)?,
            results: Vec::with_capacity(alloc, streams)?,
            books: Vec::with_capacity(alloc, streams)?,
        })
    }

    // Those of one stream more.
    fn push(&mut self, alloc: Global, plan: &Plan) -> Result<(), Memory>
        ensures { OnOk result ((plans : List PlanData) → AreFreshFor plans self.old
            → AreFreshFor (plans ++ plan.now ∷ []) self.new) }
    {
        // What is pushed at once does not end at the further `?`, and so takes no check there.
        let book = gpu_books::make(alloc)?;
        self.books.push(book)?;
        self.results.push(())?;
        let (client, side) = Client::make(alloc, plan)?;
        self.sides.push(side)?;
        self.clients.push(client)?;
        Ok(())
    }

    /// Those of the streams of a script, of which nothing is done.
    pub(crate) fn make(alloc: Global, plans: &Plans) -> Result<Parts, Memory>
        ensures { IfOk result (AreFreshFor plans.now.plans) }
    {
        let mut parts = Parts::none(alloc, plans.count() as usize)?;
        for done in 0..plans.count() {
            parts.push(alloc, plans.plan(done + 1))?;
        }
        Ok(parts)
    }
}
