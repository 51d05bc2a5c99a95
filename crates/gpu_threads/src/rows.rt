//! What belongs to one stream, among that of all.
ghost use Rattle.std.specs.Prelude.{◌≡◌, length};
ghost use Rattle.sync_core.specs.Standing.{IsKnown};
ghost use Rattle.gpu_house.specs.Names.{table_at};
ghost use Rattle.gpu_hall.specs.Words.{AreWordsAt};
ghost use Rattle.gpu_threads.specs.Rows.{AreWordsOf};

use flush_queue::FlushQueue;
use gpu_house::Naming;
use result_words::ResultWords;
use shm_words::SharedWords;

/// The words of a stream.
pub(crate) fn words_of<'a, N: Naming>(
    words: &'a [(SharedWords, ResultWords)],
    stream: u32,
) -> &'a (SharedWords, ResultWords)
    requires known { IsKnown (length N.plans.plans) stream }
    requires words { AreWordsOf N.plans N.words N.result_words words.now }
    ensures { AreWordsAt N.words N.result_words stream result.now }
{
    &words[stream as usize - 1]
}

/// The queue of a stream.
pub(crate) fn queue_of<'a>(queues: &'a [FlushQueue], stream: u32) -> &'a FlushQueue
    requires { IsKnown (length queues.now) stream }
    ensures { result.now ≡ table_at queues.now stream }
{
    &queues[stream as usize - 1]
}
