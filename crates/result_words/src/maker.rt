ghost use Rattle.std.specs.Prelude.{◌≡◌, IfOk};
ghost use Rattle.result_words.specs.Seen.{writer_at, reader_at};

use crate::plays::Readers;
use crate::reader::ResultReader;
use crate::words::ResultWords;
use crate::writer::ResultWriter;
use atomic_table::Table;
use gpu_word::Memory;
use std::alloc::Global;

/// The result words of a given number of places, all 0, with their writer and their reader, which have done nothing.
///
/// # Errors
///
/// `Memory`: for the words, 8 bytes each.
pub fn make(alloc: Global, places: u32) -> Result<(ResultWords, ResultWriter, ResultReader), Memory>
    ensures writer { IfOk result (λ made. made.1 ≡ writer_at made.0 places) }
    ensures reader { IfOk result (λ made. made.2 ≡ reader_at made.0 places) }
{
    let zeros = vec![in alloc; 0u64; 1 + places as usize]?;
    let (table, mut seat) = Table::of_words(alloc, zeros.as_slice(), &u64::from(places))?;
    let reader = table.shared.split_seat::<Readers>(&mut seat);
    Ok((
        ResultWords { table },
        ResultWriter::of(seat),
        ResultReader::of(reader),
    ))
}
