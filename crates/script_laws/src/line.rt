ghost use Rattle.std.specs.Prelude.{◌≡◌, IfOk};
ghost use Rattle.script_laws.specs.Trials.{line_text};

use crate::counts::loss_count;
use crate::digits::{push_count, push_number};
use gpu_journal::Journal;
use gpu_store::{Images, texel_sum};
use gpu_word::Memory;
use journal_text::spaced_hex;
use std::alloc::Global;
use sync_core::Ending;

/// The line of a trial: the size and the seed of its script, how many events, lost streams, images and endings its run
/// left, and the sum of all texels.
pub fn trial_text(
    alloc: Global,
    size: u32,
    seed: u32,
    journal: &Journal,
    images: &Images,
    endings: &[Ending],
) -> Result<Vec<u8>, Memory>
    ensures { IfOk result (λ text. text.items
        ≡ line_text size seed journal.now.events images.now endings.now) }
{
    let mut text = Vec::new(alloc);
    push_count(&mut text, b"trial", size as usize)?;
    push_number(&mut text, seed as usize)?;
    push_count(&mut text, b" events", journal.count())?;
    push_count(&mut text, b" lost", loss_count(journal))?;
    push_count(&mut text, b" images", images.count() as usize)?;
    push_count(&mut text, b" endings", endings.len())?;
    text.extend_from_slice(b" sum ")?;
    text.extend_from_slice(&spaced_hex(texel_sum(images))[1..])?;
    text.push(b'\n')?;
    Ok(text)
}
