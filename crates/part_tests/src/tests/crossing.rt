//! What crosses threads may do so. Nothing of this is run.

use flush_queue::{FlushQueue, Full, Poster, Taker};
use gpu_books::Half;
use live_view::{Look, Told, ViewWriter, Viewer};
use result_words::{ResultReader, ResultWords, ResultWriter};
use shm_words::Note;

fn sent<T: Send>() {}

fn shared<T: Send + Sync>() {}

fn queues_cross() {
    shared::<FlushQueue>();
    sent::<Poster>();
    sent::<Taker>();
    sent::<Note>();
    sent::<Full>();
}

fn results_and_books_cross() {
    shared::<ResultWords>();
    sent::<ResultWriter>();
    sent::<ResultReader>();
    sent::<Half>();
}

fn views_cross() {
    sent::<ViewWriter>();
    sent::<Viewer>();
    sent::<Told>();
    sent::<Look>();
}
