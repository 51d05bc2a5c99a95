// The kinds of step on the words, each with what it tells.

ghost use Rattle.shm_words.specs.Views.{stores_data, stores_mark, loads_finish, loads_token, loads_mark, fetches, stores_finish, stores_token, client_part, service_part, note_part, note_met};
ghost use Rattle.shm_words.specs.declared.view.View.TheVariants.{Note, Spent};

use crate::view::View;
use atomic_table::{Join, Play, Split};

// The client stores the value of a put.
pub(crate) struct StoresData;

impl Play<(), View> for StoresData {
    ghost then = { stores_data };
}

// The client stores the mark of a flush.
pub(crate) struct StoresMark;

impl Play<(), View> for StoresMark {
    ghost then = { stores_mark };
}

// The client loads the finish word.
pub(crate) struct LoadsFinish;

impl Play<(), View> for LoadsFinish {
    ghost then = { loads_finish };
}

// The client loads the token word.
pub(crate) struct LoadsToken;

impl Play<(), View> for LoadsToken {
    ghost then = { loads_token };
}

// The service loads the flush mark.
pub(crate) struct LoadsMark;

impl Play<(), View> for LoadsMark {
    ghost then = { loads_mark };
}

// The service loads the word of a place.
pub(crate) struct Fetches;

impl Play<(), View> for Fetches {
    ghost then = { fetches };
}

// The service stores the finish word.
pub(crate) struct StoresFinish;

impl Play<(), View> for StoresFinish {
    ghost then = { stores_finish };
}

// The service stores the token word.
pub(crate) struct StoresToken;

impl Play<(), View> for StoresToken {
    ghost then = { stores_token };
}

// The first seat is cut into the client's and the service's.
pub(crate) struct Parts;

impl Split<View> for Parts {
    ghost left = { client_part };

    ghost right = { service_part };
}

// A note of the latest flush leaves the client, and the service meets it.
pub(crate) struct Notes;

impl Split<View> for Notes {
    ghost left = { λ v. v };

    ghost right = { note_part };
}

impl Join<View> for Notes {
    ghost both = { note_met };

    ghost spent = { Spent };
}

// A note of no flush leaves the client.
pub(crate) struct Blanks;

impl Split<View> for Blanks {
    ghost left = { λ v. v };

    ghost right = { λ _. Note 0 };
}
