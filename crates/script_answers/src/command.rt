ghost use Rattle.std.specs.Prelude.{◌≡◌, ◌≤◌, ◌+◌, Some, map, string_bytes, option_map, IfSome};
ghost use Rattle.script_lines.specs.Numbers.{decimal_of};
ghost use Rattle.script_answers.specs.declared.command.Command.TheVariants.{Generate, Trial};
ghost use Rattle.script_answers.specs.Commands.{size_said, with_both, digit_in, workers_in, behind_equals, run_with, views_in, viewed_with, of_one, of_verify, of_two, of_workers, of_three, of_views, of_five, command_of, is_plain, IsSized};
ghost use Rattle.script_answers.specs.Says.{reads, most_bytes};

use gpu_plan::MOST_BYTES;
use live_view::MOST_VIEWERS;
use script_generator::MOST_SIZE;
use script_lines::decimal_u32;
use verify_input::MOST_WHOLE_BYTES;

/// The most workers that a run may have.
pub const MOST_WORKERS: u32 = 8;

/// What the words of the command line ask for.
#[derive(Clone, Copy)]
pub enum Command {
    /// Runs the script on standard input on one thread, and writes the output.
    Run,
    /// Runs the script on standard input on threads, with 1 to 8 workers and up to 4 viewers, and writes the output.
    RunOnThreads { workers: u32, views: u32 },
    /// Reads a script, and writes how much it has.
    Check,
    /// Writes the generated script of a size, from 1 to 2000, and a seed.
    Generate { size: u32, seed: u32 },
    /// Runs the generated script of a size and a seed, and writes one line of what comes of it.
    Trial { size: u32, seed: u32 },
    /// Reads a script and a journal, and judges the journal.
    Verify,
    /// Reads a script and a whole output, and judges all of it.
    VerifyWhole,
}

impl Command {
    /// Whether it reads its input.
    pub(crate) fn reads(self) -> bool
        ensures { result ≡ reads (Some self) }
    {
        matches!(
            self,
            Command::Run
                | Command::RunOnThreads { .. }
                | Command::Check
                | Command::Verify
                | Command::VerifyWhole
        )
    }

    /// The most bytes that its input may have.
    pub(crate) fn most_bytes(self) -> usize
        ensures most { result ≡ most_bytes (Some self) }
        ensures few { result ≤ MOST_WHOLE_BYTES }
    {
        match self {
            Command::VerifyWhole => MOST_WHOLE_BYTES,
            _ => MOST_BYTES,
        }
    }
}

// The size that a word says, from 1 to 2000.
fn size_in(word: &str) -> Option<u32>
    ensures size { result ≡ size_said (decimal_of word.now) }
    ensures range { IfSome result (λ size. (1 ≤ size) × (size ≤ MOST_SIZE)) }
{
    let size = decimal_u32(word.as_bytes())?;
    if size < 1 || size > MOST_SIZE {
        return None;
    }
    Some(size)
}

// The size and the seed that two words say.
fn both_in(size: &str, seed: &str) -> Option<(u32, u32)>
    ensures generate { with_both Generate (size_said (decimal_of size.now)) (decimal_of seed.now)
        ≡ option_map (λ both. Generate both.0 both.1) result }
    ensures trial { with_both Trial (size_said (decimal_of size.now)) (decimal_of seed.now)
        ≡ option_map (λ both. Trial both.0 both.1) result }
    ensures range { IfSome result (λ both. (1 ≤ both.0) × (both.0 ≤ MOST_SIZE)) }
{
    Some((size_in(size)?, decimal_u32(seed.as_bytes())?))
}

fn of_one(name: &str) -> Option<Command>
    ensures command { result ≡ of_one name.now }
    ensures sized { IfSome result IsSized }
{
    match name {
        "run" => Some(Command::Run),
        "check" => Some(Command::Check),
        "verify" => Some(Command::Verify),
        _ => None,
    }
}

// The number that a word of one digit says, from one digit to another.
fn digit_in(word: &[u8], least: u8, most: u8) -> Option<u32>
    requires { 48 ≤ least }
    ensures number { result ≡ digit_in least most word.now }
    ensures range { IfSome result (λ number. 48 + number ≤ most) }
{
    let [digit] = word else {
        return None;
    };
    if *digit < least || *digit > most {
        return None;
    }
    Some(u32::from(*digit - b'0'))
}

// The number of workers that a word says, from 0 to 8.
fn workers_in(word: &[u8]) -> Option<u32>
    ensures workers { result ≡ workers_in word.now }
    ensures range { IfSome result (λ workers. workers ≤ MOST_WORKERS) }
{
    digit_in(word, b'0', b'8')
}

// What stands after `--workers=` in a word.
fn behind_equals(word: &[u8]) -> Option<&[u8]>
    ensures { option_map (λ rest. rest.now) result ≡ behind_equals word.now }
{
    word.strip_prefix(b"--workers=")
}

// The run with the workers that a word says; with none it is on one thread.
fn run_with(word: &[u8]) -> Option<Command>
    ensures command { result ≡ option_map run_with (workers_in word.now) }
    ensures sized { IfSome result IsSized }
{
    let workers = workers_in(word)?;
    if workers == 0 {
        return Some(Command::Run);
    }
    Some(Command::RunOnThreads { workers, views: 0 })
}

// The command that a word after `verify` makes.
fn of_verify(word: &str) -> Option<Command>
    ensures command { result ≡ of_verify word.now }
    ensures sized { IfSome result IsSized }
{
    match word {
        "--whole" => Some(Command::VerifyWhole),
        _ => None,
    }
}

fn of_two(name: &str, word: &str) -> Option<Command>
    ensures command { result ≡ of_two name.now word.now }
    ensures sized { IfSome result IsSized }
{
    if name == "verify" {
        return of_verify(word);
    }
    if name != "run" {
        return None;
    }
    run_with(behind_equals(word.as_bytes())?)
}

fn of_workers(first: &str, second: &str) -> Option<Command>
    ensures command { result ≡ of_workers first.now second.now }
    ensures sized { IfSome result IsSized }
{
    if first != "--workers" {
        return None;
    }
    run_with(second.as_bytes())
}

fn of_three(name: &str, first: &str, second: &str) -> Option<Command>
    ensures command { result ≡ of_three name.now first.now second.now }
    ensures sized { IfSome result IsSized }
{
    if name == "run" {
        return of_workers(first, second);
    }
    if name == "generate" {
        let (size, seed) = both_in(first, second)?;
        return Some(Command::Generate { size, seed });
    }
    if name == "trial" {
        let (size, seed) = both_in(first, second)?;
        return Some(Command::Trial { size, seed });
    }
    None
}

// The number of viewers that a word says, from 1 to 4.
fn views_in(word: &[u8]) -> Option<u32>
    ensures views { result ≡ views_in word.now }
    ensures range { IfSome result (λ views. views ≤ MOST_VIEWERS) }
{
    digit_in(word, b'1', b'4')
}

// The run with the workers and the viewers that two words say; with no worker there is none.
fn viewed_with(workers: &[u8], views: &[u8]) -> Option<Command>
    ensures command { result ≡ viewed_with (workers_in workers.now) (views_in views.now) }
    ensures sized { IfSome result IsSized }
{
    let workers = workers_in(workers)?;
    let views = views_in(views)?;
    if workers == 0 {
        return None;
    }
    Some(Command::RunOnThreads { workers, views })
}

fn of_views(first: &str, second: &str, third: &str, fourth: &str) -> Option<Command>
    ensures command { result ≡ of_views first.now second.now third.now fourth.now }
    ensures sized { IfSome result IsSized }
{
    if first != "--workers" || third != "--views" {
        return None;
    }
    viewed_with(second.as_bytes(), fourth.as_bytes())
}

fn of_five(name: &str, first: &str, second: &str, third: &str, fourth: &str) -> Option<Command>
    ensures command { result ≡ of_five name.now first.now second.now third.now fourth.now }
    ensures sized { IfSome result IsSized }
{
    if name != "run" {
        return None;
    }
    of_views(first, second, third, fourth)
}

/// The command that the words of the command line are, or `None` where they are none.
pub fn command_of(words: &[String]) -> Option<Command>
    ensures command { result ≡ command_of (map string_bytes words.now) }
    ensures sized { IfSome result IsSized }
{
    match words {
        [name] => of_one(name.as_str()),
        [name, word] => of_two(name.as_str(), word.as_str()),
        [name, first, second] => of_three(name.as_str(), first.as_str(), second.as_str()),
        [name, first, second, third, fourth] => of_five(
            name.as_str(),
            first.as_str(),
            second.as_str(),
            third.as_str(),
            fourth.as_str(),
        ),
        _ => None,
    }
}

/// Whether words are plain, so that `plain_top` does what they ask for: they are not those of `run` with 1 to 8 workers.
pub fn is_plain(words: &[String]) -> bool
    ensures { result ≡ is_plain (command_of (map string_bytes words.now)) }
{
    !matches!(command_of(words), Some(Command::RunOnThreads { .. }))
}
