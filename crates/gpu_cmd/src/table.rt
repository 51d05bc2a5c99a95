ghost use Rattle.std.specs.Prelude.{◌≡◌, ◌<◌, length, take, IfSome, IsSomeAnd, IsTrue};
ghost use Rattle.std.specs.Option.{option_map};
ghost use Rattle.gpu_word.specs.Bytes.{values_of};
ghost use Rattle.gpu_cmd.specs.Table.{row_of, fits, ring_words_of, argument, command_said};

use crate::command::Command;
use crate::{arguments, ids};
use gpu_word::split;

// Whether a command of this id may have a given number of entries, or `None` where no command has this id.
#[tactic(auto, unfolding(crate::specs::Table::row_of))]
#[inline(always)]
pub(crate) fn fits(id: u32, size: u32) -> Option<bool>
    ensures { result ≡ option_map (λ row. fits row size) (row_of id) }
{
    let fits = match id {
        ids::NOOP => size >= 1,
        ids::SET_TOKEN => size == 2,
        ids::SET_BUCKET_SIZE => size == 3,
        ids::SET_BUCKET_DATA => size == 6,
        ids::SET_BUCKET_DATA_IMMEDIATE => size >= 4,
        ids::GET_BUCKET_START => size == 7,
        ids::GET_BUCKET_DATA => size == 6,
        ids::INSERT_FENCE => size == 3,
        ids::WAIT_TOKEN => size == 4,
        ids::CREATE_IMAGE => size == 4,
        ids::DELETE_IMAGE => size == 2,
        ids::CLEAR_RECT => size == 7,
        ids::COPY_RECT => size == 9,
        ids::UPLOAD_RECT => size == 9,
        ids::UPLOAD_BUCKET => size == 8,
        ids::CREATE_BUFFER => size == 3,
        ids::DELETE_BUFFER => size == 2,
        ids::BUFFER_DATA => size == 6,
        ids::UPLOAD_BUFFER => size == 9,
        ids::WAIT_SYNC_TOKEN => size == 6,
        _ => return None,
    };
    Some(fits)
}

// How many of a given number of entries are fetched: of a Noop its header alone, of every other command all.
pub(crate) fn ring_words(id: u32, size: u32) -> u32
    ensures { result ≡ ring_words_of id size }
{
    if id == ids::NOOP { 1 } else { size }
}

// The command of an id that a command has, by its ring words.
#[tactic(auto, unfolding(crate::specs::Table::row_of))]
#[inline(always)]
pub(crate) fn command(id: u32, words: &[(u32, u32)]) -> Command
    requires { IsSomeAnd (row_of id) (λ row. IsTrue (fits row (length words.now))) }
    ensures { IfSome (row_of id) (λ row. result ≡ row.command (argument (values_of words.now))) }
{
    match id {
        ids::NOOP => Command::Noop,
        ids::SET_TOKEN => Command::SetToken { token: words[1].1 },
        ids::SET_BUCKET_SIZE => arguments::set_bucket_size(words),
        ids::SET_BUCKET_DATA => arguments::set_bucket_data(words),
        ids::SET_BUCKET_DATA_IMMEDIATE => arguments::set_bucket_data_immediate(words),
        ids::GET_BUCKET_START => arguments::get_bucket_start(words),
        ids::GET_BUCKET_DATA => arguments::get_bucket_data(words),
        ids::INSERT_FENCE => arguments::insert_fence(words),
        ids::WAIT_TOKEN => arguments::wait_token(words),
        ids::CREATE_IMAGE => arguments::create_image(words),
        ids::DELETE_IMAGE => Command::DeleteImage { image: words[1].1 },
        ids::CLEAR_RECT => arguments::clear_rect(words),
        ids::COPY_RECT => arguments::copy_rect(words),
        ids::UPLOAD_RECT => arguments::upload_rect(words),
        ids::UPLOAD_BUCKET => arguments::upload_bucket(words),
        ids::CREATE_BUFFER => arguments::create_buffer(words),
        ids::DELETE_BUFFER => Command::DeleteBuffer { buffer: words[1].1 },
        ids::BUFFER_DATA => arguments::buffer_data(words),
        ids::UPLOAD_BUFFER => arguments::upload_buffer(words),
        ids::WAIT_SYNC_TOKEN => arguments::wait_sync_token(words),
        _ => unreachable!(),
    }
}

// The first words, up to a given number, or all where there are fewer.
fn first(words: &[(u32, u32)], count: usize) -> &[(u32, u32)]
    ensures { result.now ≡ take count words.now }
{
    if words.len() <= count {
        return words;
    }
    let (front, _) = words.split_at(count);
    front
}

/// The command that words say by the header and the arguments that they begin with, without a check on these:
/// - words after its ring words are not looked at
/// - `None`: no command has the header's id, or none of that id has a given number of ring words
pub fn command_of(words: &[(u32, u32)]) -> Option<Command>
    requires { 0 < length words.now }
    ensures { result ≡ command_said (values_of words.now) }
{
    let header = split(words[0].1);
    let ring = first(words, ring_words(header.id, header.size) as usize);
    match fits(header.id, ring.len() as u32) {
        Some(true) => Some(command(header.id, ring)),
        _ => None,
    }
}
