ghost use Rattle.std.specs.Prelude.{◌≡◌, ◌≤◌, IfSome};

use result_words::{ResultReader, ResultWords, ResultWriter, make};
use std::test::Fail;
use std::thread;
use std::thread::Threads;

/// How often the writer writes both places and counts a finish.
const ROUNDS: u32 = 100_000;

/// How often the reader reads both places, at the least.
const READS: u32 = 100_000;

/// How many turns the reader takes before it gives up.
const TURNS: u32 = 10_000_000;

#[test]
fn results_are_read_back_once_as_much_is_finished(rt: HostRuntime) -> Result<(), Fail> {
    let (words, mut writer, mut reader) = make(rt.alloc(), 3)?;
    let unwritten = reader.read(&words, 2, 0);
    writer.write(&words, 2, 7);
    writer.write(&words, 0, u32::MAX);
    let early = [reader.read(&words, 2, 0), reader.read(&words, 2, 1)];
    writer.finish(&words);
    let once = [
        reader.read(&words, 2, 1),
        reader.read(&words, 0, 1),
        reader.read(&words, 1, 1),
    ];
    let more = [reader.read(&words, 2, 2), reader.read(&words, 0, u32::MAX)];
    writer.write(&words, 2, 8);
    let late = reader.read(&words, 2, 1);
    writer.finish(&words);
    let twice = reader.read(&words, 2, 2);
    writer.settle(&words, reader);
    assert!(rt; [unwritten, late, twice] == [Some(0), Some(8), Some(8)]);
    assert!(rt; early == [Some(7), None]);
    assert!(rt; once == [Some(7), Some(u32::MAX), Some(0)]);
    assert!(rt; more == [None, None]);
    Ok(())
}

// Writes the number of each round to both places, and counts its finish after that.
fn write_all(writer: &mut ResultWriter, words: &ResultWords)
    requires table { words.now ≡ writer.old.table }
    requires places { writer.old.places ≡ 2 }

    ensures table { words.now ≡ writer.new.table }
{
    for round in 1..=ROUNDS {
        writer.write(words, 0, round);
        writer.write(words, 1, round);
        writer.finish(words);
    }
}

// A later read than that of round `found`, or of it again. It is the round in the second place, or `None` where the
// values are not what the writer wrote:
// - the finish of round `found` may be still to come, but that of the round before it was counted
// - each value is the number of a round, of the last one asked for or of a later one
// - the first place is written first, so its value is no older than that of the second
fn read_round(reader: &mut ResultReader, words: &ResultWords, found: u32) -> Option<u32>
    requires table { words.now ≡ reader.old.table }
    requires places { reader.old.places ≡ 2 }
    requires found { found ≤ ROUNDS }

    ensures table { words.now ≡ reader.new.table }
    ensures places { reader.new.places ≡ 2 }
    ensures round { IfSome result (λ round. round ≤ ROUNDS) }
{
    let (asked, least, second) = match reader.read(words, 1, found + 1) {
        Some(second) => (found + 1, found + 1, second),
        None => {
            thread::yield_now();
            let asked = found.saturating_sub(1);
            (asked, found, reader.read(words, 1, asked)?)
        }
    };
    let first = reader.read(words, 0, asked)?;
    if second < least || first < second || first > ROUNDS {
        return None;
    }
    Some(second)
}

// How many rounds were read, and which was the last, or `None` where a read was wrong:
// - it goes on until there were enough reads and the last round was among them, or until there are no more turns
// - a value read before the first round counts for nothing
fn read_all(reader: &mut ResultReader, words: &ResultWords) -> Option<(u32, u32)>
    requires table { words.now ≡ reader.old.table }
    requires places { reader.old.places ≡ 2 }

    ensures table { words.now ≡ reader.new.table }
{
    let mut found = 0;
    let mut reads = 0u32;
    for _ in 0..TURNS {
        found = read_round(reader, words, found)?;
        if found > 0 {
            reads = reads.saturating_add(1);
        }
        if reads >= READS && found == ROUNDS {
            break;
        }
    }
    Some((reads, found))
}

// Both threads at work on the same words.
fn race<R: Threads>(
    rt: &R,
    words: &ResultWords,
    writer: ResultWriter,
    reader: ResultReader,
) -> (ResultWriter, (ResultReader, Option<(u32, u32)>))
    requires writer { (words.now ≡ writer.table) × (writer.places ≡ 2) }
    requires reader { (words.now ≡ reader.table) × (reader.places ≡ 2) }

    ensures writer { words.now ≡ result.0.table }
    ensures reader { words.now ≡ result.1.0.table }
{
    thread::join(
        rt,
        move ||
            requires { (words.now ≡ writer.table) × (writer.places ≡ 2) }
            ensures { words.entry.now ≡ result.table }
        {
            let mut writer = writer;
            write_all(&mut writer, words);
            writer
        },
        move ||
            requires { (words.now ≡ reader.table) × (reader.places ≡ 2) }
            ensures { words.entry.now ≡ result.0.table }
        {
            let mut reader = reader;
            let all = read_all(&mut reader, words);
            (reader, all)
        },
    )
}

#[test]
fn a_reader_sees_what_a_writer_on_another_thread_writes(rt: HostRuntime) -> Result<(), Fail> {
    let (words, writer, reader) = make(rt.alloc(), 2)?;
    let (mut writer, (mut reader, all)) = race(&rt, &words, writer, reader);
    let (reads, last) = all.unwrap_or((0, 0));
    assert!(rt; reads >= READS && last == ROUNDS);
    assert!(rt; reader.read(&words, 0, ROUNDS) == Some(ROUNDS));
    assert!(rt; reader.read(&words, 1, ROUNDS + 1).is_none());
    writer.settle(&words, reader);
    Ok(())
}
