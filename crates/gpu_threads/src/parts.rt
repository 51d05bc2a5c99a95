ghost use Rattle.std.specs.Prelude.{◌≡◌, ◌+◌, [], ◌∷◌, ◌++◌, length, List, IfOk, OnOk};
ghost use Rattle.gpu_cmd.specs.Spans.{words_in};
ghost use Rattle.gpu_plan.specs.Plans.{PlanData};
ghost use Rattle.gpu_threads.specs.Making.{HaveRoom, HaveDoneNothing};

use flush_queue::{FlushQueue, Taker};
use gpu_books::{Book, Half};
use gpu_cmd::words_in;
use gpu_hall::FullPass;
use gpu_plan::{Plan, Plans};
use gpu_word::Memory;
use result_words::{ResultWords, ResultWriter};
use shm_words::SharedWords;
use std::alloc::Global;
use std::sync::Wait;
use thread_parts::Client;

/// What the hall of a run on threads is made of. Of each stream, in order: the service's side of its words, the writer of its results, its
/// book, and the end of its queue at which flushes are taken.
#[derive(Drop)]
pub(crate) struct Service {
    pub(crate) sides: Vec<FullPass>,
    pub(crate) results: Vec<ResultWriter>,
    pub(crate) books: Vec<(Book, Half, Half)>,
    pub(crate) takers: Vec<Taker>,
}

/// What a run on threads is made of. Of each stream, in order: the words and the result words that it shares with its client, the queue of
/// its flushes, the client, and what the hall has of it.
#[derive(Drop)]
pub(crate) struct Parts {
    pub(crate) words: Vec<(SharedWords, ResultWords)>,
    pub(crate) queues: Vec<FlushQueue>,
    pub(crate) clients: Vec<Client>,
    pub(crate) service: Service,
}

// How many result places a plan has.
fn result_places(plan: &Plan) -> u32
    ensures { result ≡ words_in plan.now.areas.results }
{
    words_in(&plan.areas().results) as u32
}

impl Parts {
    // Those of no stream.
    fn none(alloc: Global) -> Parts
        ensures { HaveDoneNothing [] result }
    {
        Parts {
            words: Vec::new(alloc),
            queues: Vec::new(alloc),
            clients: Vec::new(alloc),
            service: Service {
                sides: Vec::new(alloc),
                results: Vec::new(alloc),
                books: Vec::new(alloc),
                takers: Vec::new(alloc),
            },
        }
    }

    // Takes room for one stream more.
    fn reserve(&mut self) -> Result<(), Memory>
        ensures { OnOk result (HaveRoom self.old self.new) }
    {
        self.words.reserve(1)?;
        self.queues.reserve(1)?;
        self.clients.reserve(1)?;
        self.service.sides.reserve(1)?;
        self.service.results.reserve(1)?;
        self.service.books.reserve(1)?;
        self.service.takers.reserve(1)?;
        Ok(())
    }

    // Those of one stream more, which has this number.
    fn push<R: Wait>(
        &mut self,
        rt: &R,
        alloc: Global,
        stream: u32,
        plan: &Plan,
    ) -> Result<(), Memory>
        ensures { OnOk result ((plans : List PlanData) → stream ≡ length plans + 1
            → HaveDoneNothing plans self.old
            → HaveDoneNothing (plans ++ plan.now ∷ []) self.new) }
    {
        // What is pushed at once does not end at the further `?`, and so takes no check there.
        self.reserve()?;
        let book = gpu_books::make(alloc)?;
        self.service.books.push_reserved(book);
        let (words, pass, side) = shm_words::make(alloc, plan)?;
        self.service.sides.push_reserved(FullPass { pass: side });
        let (queue, poster, taker, pass) = flush_queue::make(rt, alloc, pass)?;
        self.queues.push_reserved(queue);
        self.service.takers.push_reserved(taker);
        let (results, writer, reader) = result_words::make(alloc, result_places(plan))?;
        self.service.results.push_reserved(writer);
        self.words.push_reserved((words, results));
        let client = Client::make(alloc, stream, plan, pass, poster, reader)?;
        self.clients.push_reserved(client);
        Ok(())
    }

    /// Those of the streams of a script, of which nothing is done.
    pub(crate) fn make<R: Wait>(rt: &R, alloc: Global, plans: &Plans) -> Result<Parts, Memory>
        ensures { IfOk result (HaveDoneNothing plans.now.plans) }
    {
        let mut parts = Parts::none(alloc);
        for done in 0..plans.count() {
            parts.push(rt, alloc, done + 1, plans.plan(done + 1))?;
        }
        Ok(parts)
    }
}
