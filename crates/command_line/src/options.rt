ghost use Rattle.std.specs.Prelude.{◌≡◌, ◌≤◌, ◌&&◌, nat_le, decimal, option_map, IfSome};
ghost use Rattle.script_model.specs.Words.{is_word};
ghost use Rattle.command_line.specs.Options.{IsShake, favour_given, favour_named, has_all, has_no_flag, has_no_number, is_bare, is_set, number_named};
ghost use Rattle.command_line.specs.Options.{options_of, pace_given, seed_given, shake_given, size_given, step_given, steps_given, wide_given, work_given};

use itoa::Buffer;
use task_base::MOST_MICROSECONDS;

/// The most tasks of a script that is made from a number.
pub const MOST_SIZE: u32 = 8192;

/// How many tasks it has where nothing is said.
pub const USUAL_SIZE: u32 = 16;

/// The most microseconds that a shaken run pauses at once.
pub const MOST_SHAKE: u64 = 1_000_000;

/// The most nanoseconds that each task of the pool works in a benchmark.
pub const MOST_WORK: u64 = 1_000_000_000;

/// The most steps of a search for an order.
pub const MOST_STEPS: u64 = 1_000_000_000_000;

/// How many steps it takes at most where nothing is said.
pub const USUAL_STEPS: u64 = 10_000_000;

/// How a run is shaken (this project's own).
#[derive(Clone, Copy, Debug, PartialEq, Eq)]
pub struct Shake {
    /// How many microseconds a pause has at most: 1 to 1,000,000.
    pub most: u64,
    /// The seed of the pauses.
    pub seed: u64,
}

/// Whom the draws of a simulated run favour (this project's own).
#[derive(Clone, Copy, Debug, PartialEq, Eq)]
pub enum Favour {
    /// The driver, so that much is posted before it is taken.
    Driver,
    /// The workers, so that what is posted is taken soon.
    Workers,
    /// Nobody: all seats are alike.
    Nobody,
}

/// What a wide script has besides tasks, runners and their posts (this project's own).
#[derive(Clone, Copy, Debug, PartialEq, Eq)]
pub struct Wide {
    /// Jobs.
    pub jobs: bool,
    /// Main queues, with their tasks and all that changes them.
    pub main: bool,
    /// Delays of posts, and ticks.
    pub delays: bool,
    /// Blocking scopes.
    pub scopes: bool,
    /// A shutdown, and posts after it.
    pub shutdown: bool,
}

/// The options as they were given: the word of each that has a value, and of each other whether it is there.
#[derive(Clone, Copy)]
pub(crate) struct Given<'a> {
    pub(crate) step: Option<&'a str>,
    pub(crate) json: bool,
    pub(crate) prefix: bool,
    pub(crate) number: Option<&'a str>,
    pub(crate) size: Option<&'a str>,
    pub(crate) replies: bool,
    pub(crate) nest: bool,
    pub(crate) full: bool,
    pub(crate) seed: Option<&'a str>,
    pub(crate) favour: Option<&'a str>,
    pub(crate) jump: bool,
    pub(crate) shake: Option<&'a str>,
    pub(crate) work: Option<&'a str>,
    pub(crate) wide: bool,
    pub(crate) parts: Wide,
    pub(crate) most: Option<&'a str>,
    pub(crate) is_open: bool,
}

/// Whether no option is there.
pub(crate) fn is_bare(given: Given<'_>) -> bool
    ensures { result ≡ is_bare (options_of given.entry) }
{
    has_no_flag(given) && has_no_number(given) && given.favour.is_none() && has_all(given.parts)
}

fn has_no_flag(given: Given<'_>) -> bool
    ensures { result ≡ has_no_flag (options_of given.entry) }
{
    !(given.json
        || given.prefix
        || given.replies
        || given.nest
        || given.full
        || given.jump
        || given.wide
        || given.is_open)
}

fn has_no_number(given: Given<'_>) -> bool
    ensures { result ≡ has_no_number (options_of given.entry) }
{
    given.step.is_none()
        && given.number.is_none()
        && given.size.is_none()
        && given.seed.is_none()
        && given.shake.is_none()
        && given.work.is_none()
        && given.most.is_none()
}

/// Whether nothing is left out.
fn has_all(parts: Wide) -> bool
    ensures { result ≡ has_all parts }
{
    parts.jobs && parts.main && parts.delays && parts.scopes && parts.shutdown
}

/// The step that may be left out.
pub(crate) fn step_given(word: Option<&str>) -> Option<Option<u64>>
    ensures { result ≡ step_given (option_map (λ s. s.now) word.entry) }
{
    match word {
        Some(word) => Some(Some(number_named(1, MOST_MICROSECONDS, word)?)),
        None => Some(None),
    }
}

/// The step of a simulated run, or none where it jumps.
pub(crate) fn pace_given(step: Option<&str>, jump: bool) -> Option<Option<u64>>
    ensures { result ≡ pace_given (option_map (λ s. s.now) step.entry) jump }
{
    if jump && step.is_some() {
        return None;
    }
    step_given(step)
}

/// The number that a script is made from, or a seed. It may be left out.
pub(crate) fn seed_given(word: Option<&str>) -> Option<u64>
    ensures { result ≡ seed_given (option_map (λ s. s.now) word.entry) }
{
    match word {
        Some(word) => number_named(0, u64::MAX, word),
        None => Some(0),
    }
}

/// The number of tasks that a script is to have. It may be left out.
pub(crate) fn size_given(word: Option<&str>) -> Option<u32>
    ensures size { result ≡ size_given (option_map (λ s. s.now) word.entry) }
    ensures some { IfSome result (λ size. 1 ≤ size) }
    ensures few { IfSome result (λ size. size ≤ MOST_SIZE) }
{
    match word {
        Some(word) => Some(number_named(1, u64::from(MOST_SIZE), word)? as u32),
        None => Some(USUAL_SIZE),
    }
}

/// How many nanoseconds each task of the pool works. It may be left out.
pub(crate) fn work_given(word: Option<&str>) -> Option<u64>
    ensures work { result ≡ work_given (option_map (λ s. s.now) word.entry) }
    ensures few { IfSome result (λ work. work ≤ MOST_WORK) }
{
    match word {
        Some(word) => number_named(0, MOST_WORK, word),
        None => Some(0),
    }
}

/// How many steps a search for an order takes at most. It may be left out.
pub(crate) fn steps_given(word: Option<&str>) -> Option<u64>
    ensures steps { result ≡ steps_given (option_map (λ s. s.now) word.entry) }
    ensures some { IfSome result (λ steps. 1 ≤ steps) }
    ensures few { IfSome result (λ steps. steps ≤ MOST_STEPS) }
{
    match word {
        Some(word) => number_named(1, MOST_STEPS, word),
        None => Some(USUAL_STEPS),
    }
}

/// How a run is shaken, by the most microseconds of a pause and a seed. Both may be left out, and the seed alone.
pub(crate) fn shake_given(most: Option<&str>, seed: Option<&str>) -> Option<Option<Shake>>
    ensures shake { result ≡ shake_given (option_map (λ s. s.now) most.entry) (option_map (λ s. s.now) seed.entry) }
    ensures within { IfSome result IsShake }
{
    match (most, seed) {
        (Some(most), seed) => Some(Some(Shake {
            most: number_named(1, MOST_SHAKE, most)?,
            seed: seed_given(seed)?,
        })),
        (None, None) => Some(None),
        (None, Some(_)) => None,
    }
}

/// What a wide script has, if one is asked for: only of a wide one may something be left out.
pub(crate) fn wide_given(wide: bool, parts: Wide) -> Option<Option<Wide>>
    ensures { result ≡ wide_given wide parts }
{
    if wide {
        Some(Some(parts))
    } else if has_all(parts) {
        Some(None)
    } else {
        None
    }
}

/// Whom the draws of a simulated run favour. It may be left out.
pub(crate) fn favour_given(word: Option<&str>) -> Option<Favour>
    ensures { result ≡ favour_given (option_map (λ s. s.now) word.entry) }
{
    match word {
        Some(word) => favour_named(word),
        None => Some(Favour::Nobody),
    }
}

fn favour_named(word: &str) -> Option<Favour>
    ensures { result ≡ favour_named word.now }
{
    match word {
        "driver" => Some(Favour::Driver),
        "workers" => Some(Favour::Workers),
        "none" => Some(Favour::Nobody),
        _ => None,
    }
}

/// The number from low to high that the word writes without a sign and without zeros in front.
fn number_named(low: u64, high: u64, word: &str) -> Option<u64>
    ensures number { result ≡ number_named low high word.now }
    ensures above { IfSome result (λ number. low ≤ number) }
    ensures below { IfSome result (λ number. number ≤ high) }
{
    let number = word.parse::<u64>().ok()?;
    is_number(low, high, word, number).then_some(number)
}

/// Whether the number is from low to high, and the word is its decimal form.
fn is_number(low: u64, high: u64, word: &str, number: u64) -> bool
    ensures { result ≡ (is_word (decimal number) word.now && nat_le low number && nat_le number high) }
{
    Buffer::new().format(number) == word && number >= low && number <= high
}

/// Whether the flag was given: its text is `true` then.
pub(crate) fn is_set(flag: Option<&str>) -> bool
    ensures { result ≡ is_set (option_map (λ s. s.now) flag.entry) }
{
    match flag {
        Some(text) => text == "true",
        None => false,
    }
}
