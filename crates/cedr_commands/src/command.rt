ghost use Rattle.std.specs.Prelude.{◌≡◌, ◌<◌, ◌≤◌, ◌+◌, ◌-◌, ◌*◌, ◌^◌, IfSome, option_map, map};
ghost use Rattle.std.specs.Int.{IsInRange};
ghost use Rattle.std.specs.Option.{SomeIff};
ghost use Rattle.std.specs.String.{string_bytes};
ghost use Rattle.cedr_text.specs.Numbers.{whole_number};
ghost use Rattle.cedr_commands.specs.Commands.{Command, IsNumbered, checkpoint_job, command_of, job_of, number_up_to};

/// What a command does.
#[derive(Clone, Copy, PartialEq, Eq, Debug)]
pub enum Job {
    /// Writes the canonical history of an event file.
    History,
    /// Writes the nodes of a plan and their types.
    Check,
    /// Writes the answer of a plan, on one thread.
    Serial,
    /// Writes the answer of a plan.
    Run,
    /// The same, with so many threads for all nodes of the plan.
    Pool(u64),
    /// The same, by so many parts of the keys, where the plan keeps one.
    Parts(u64),
    /// Writes the changes of a plan's answer as they come.
    Stream,
    /// Writes the answer of a plan and what its ports forgot.
    Audit,
    /// Plays a script over a plan.
    Live,
    /// Writes the summary of the answer to a workload of so many events a source.
    Make(u64),
    /// Writes the checkpoint to which a script comes.
    Save,
    /// Plays a script over a plan, from a checkpoint.
    Resume,
    /// Follows a script over a plan, and writes the messages of the answer as they come.
    Follow,
    /// The same, from a checkpoint.
    FollowFrom,
}

/// The command of a word, which takes one file.
fn named_job(word: &str) -> Option<Job>
    ensures { result ≡ job_of word.now }
{
    match word {
        "history" => Some(Job::History),
        "check" => Some(Job::Check),
        "serial" => Some(Job::Serial),
        "run" => Some(Job::Run),
        "stream" => Some(Job::Stream),
        "audit" => Some(Job::Audit),
        _ => None,
    }
}

/// The command of a word, which takes a plan, a checkpoint and a script.
fn job_from_checkpoint(word: &str) -> Option<Job>
    ensures { result ≡ checkpoint_job word.now }
{
    match word {
        "resume" => Some(Job::Resume),
        "follow" => Some(Job::FollowFrom),
        _ => None,
    }
}

/// The number that digits spell, up to this last one. Leading zeros are accepted.
fn number(last: u64, digits: &[u8]) -> Option<u64>
    ensures value { result ≡ whole_number last digits.now }
    ensures most { IfSome result (λ value. value ≤ last) }
{
    if digits.is_empty() {
        return None;
    }
    let mut value = 0u64;
    for digit in digits {
        if !digit.is_ascii_digit() {
            return None;
        }
        value = push_digit(value, *digit)?;
    }
    if value <= last { Some(value) } else { None }
}

/// The number with one more digit, where it fits 64 bits.
fn push_digit(value: u64, digit: u8) -> Option<u64>
    requires { IsInRange 48 57 digit }
    ensures { SomeIff result (value * 10 + (digit - 48) < 2 ^ 64) (value * 10 + (digit - 48)) }
{
    value.checked_mul(10)?.checked_add(u64::from(digit - b'0'))
}

/// A number from 1 to this last one, of at most so many digits.
fn count(digits: usize, last: u64, word: &[u8]) -> Option<u64>
    ensures value { result ≡ number_up_to digits last word.now }
    ensures least { IfSome result (λ count. 0 < count) }
    ensures most { IfSome result (λ count. count ≤ last) }
{
    if word.len() > digits {
        return None;
    }
    let count = number(last, word)?;
    if count > 0 { Some(count) } else { None }
}

/// The command that the words name, its file, its checkpoint and its script.
pub fn named_command(words: &[String]) -> Option<(Job, &str, &str, &str)>
    ensures named { option_map (λ named. record { job = named.0; file = named.1.now; checkpoint = named.2.now; script = named.3.now }) result ≡ command_of (map string_bytes words.now) }
    ensures numbered { IfSome result (λ named. IsNumbered named.0) }
{
    match words {
        [word, events] if word.as_str() == "make" => {
            let events = count(6, 100_000, events.as_bytes())?;
            Some((Job::Make(events), "", "", ""))
        }
        [word, file] => {
            let job = named_job(word.as_str())?;
            Some((job, file.as_str(), "", ""))
        }
        [word, first, second] => match word.as_str() {
            "live" => Some((Job::Live, first.as_str(), "", second.as_str())),
            "save" => Some((Job::Save, first.as_str(), "", second.as_str())),
            "follow" => Some((Job::Follow, first.as_str(), "", second.as_str())),
            "pool" => {
                let threads = count(2, 16, first.as_bytes())?;
                Some((Job::Pool(threads), second.as_str(), "", ""))
            }
            "parts" => {
                let parts = count(2, 16, first.as_bytes())?;
                Some((Job::Parts(parts), second.as_str(), "", ""))
            }
            _ => None,
        },
        [word, plan, checkpoint, script] => {
            let job = job_from_checkpoint(word.as_str())?;
            Some((job, plan.as_str(), checkpoint.as_str(), script.as_str()))
        }
        _ => None,
    }
}
