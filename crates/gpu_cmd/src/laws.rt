ghost use Rattle.gpu_cmd.specs.Laws.{PutOutOfRange, HeaderRefused, EntriesRefused, CommandCopied, WordsOfMemory, MemoryCopied, PlacesRise, PlacesAreThere, AcceptedLeavesRoom};

/// The law of copied words: what was read as `head` and `decode` say is what must be fetched, and the verdict on it is
/// theirs, at each point where a fetch can stop.
pub fn copied_words()
    ensures put { PutOutOfRange }
    ensures header { HeaderRefused }
    ensures entries { EntriesRefused }
    ensures command { CommandCopied }
{}

/// The law of words of a memory: the words to be fetched depend on the memory alone.
pub fn fetched_words()
    ensures words { WordsOfMemory }
    ensures memory { MemoryCopied }
{}

/// The law of places: each place is fetched once, and is one of the stream's.
pub fn command_places()
    ensures rise { PlacesRise }
    ensures there { PlacesAreThere }
{}

/// The law of accepted commands: the facts that follow one are lawful again.
pub fn accepted_commands()
    ensures { AcceptedLeavesRoom }
{}
