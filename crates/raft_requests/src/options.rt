//! The options of SET.

ghost use Rattle.std.specs.Prelude.{◌≡◌, ◌≤◌, length, IfSome};
ghost use Rattle.std.specs.Option.{option_map};
ghost use Rattle.raft_requests.specs.Options.{flag_of, form_of, option_at, clashes, said, added, unsaid, drafted, expiry_of, options};
ghost use Rattle.raft_requests.specs.Refusals.{Gives};

use crate::command_name::CommandName;
use crate::refusal::{ParseError, Refusal};
use crate::times::TimeForm;
use crate::words::is_same_word;
use raft_machine::{Condition, Expiry, SetOptions, SetReply, numbers};
use raft_state::Items;

/// An option of SET.
#[derive(Clone, Copy, Debug)]
pub(crate) enum SetOption {
    /// NX
    IfAbsent,

    /// XX
    IfPresent,

    /// GET
    Get,

    /// KEEPTTL
    KeepTtl,

    /// EX, PX, EXAT or PXAT, and the number that follows, if it is one.
    Time(TimeForm, Option<i64>),
}

/// When a value is to expire, before it is known whether what tells a time is a number.
#[derive(Clone, Copy, Debug)]
pub(crate) enum DraftExpiry {
    Never,
    Keep,
    Time(TimeForm, Option<i64>),
}

/// What options said.
#[derive(Clone, Copy, Debug)]
pub(crate) struct Draft {
    condition: Condition,
    reply: SetReply,
    expiry: DraftExpiry,
}

/// The option that a word is, in any case, if no word follows such an option.
#[tactic(auto, unfolding(crate::specs::Options::flag_of))]
fn flag(word: &[u8]) -> Option<SetOption>
    ensures { result ≡ flag_of word.now }
{
    if is_same_word(word, b"nx") {
        Some(SetOption::IfAbsent)
    } else if is_same_word(word, b"xx") {
        Some(SetOption::IfPresent)
    } else if is_same_word(word, b"get") {
        Some(SetOption::Get)
    } else if is_same_word(word, b"keepttl") {
        Some(SetOption::KeepTtl)
    } else {
        None
    }
}

/// How the number that follows a word tells a time.
#[tactic(auto, unfolding(crate::specs::Options::form_of))]
fn form(word: &[u8]) -> Option<TimeForm>
    ensures { result ≡ form_of word.now }
{
    if is_same_word(word, b"ex") {
        Some(TimeForm::Seconds)
    } else if is_same_word(word, b"px") {
        Some(TimeForm::Milliseconds)
    } else if is_same_word(word, b"exat") {
        Some(TimeForm::UnixSeconds)
    } else if is_same_word(word, b"pxat") {
        Some(TimeForm::UnixMilliseconds)
    } else {
        None
    }
}

impl Draft {
    /// No options.
    fn new() -> Self
        ensures { result ≡ unsaid }
    {
        Draft {
            condition: Condition::Always,
            reply: SetReply::Status,
            expiry: DraftExpiry::Never,
        }
    }

    /// Whether an option contradicts what was said.
    fn clashes(self, option: SetOption) -> bool
        ensures { result ≡ clashes self option }
    {
        match option {
            SetOption::IfAbsent => self.condition == Condition::IfPresent,
            SetOption::IfPresent => self.condition == Condition::IfAbsent,
            SetOption::Get => false,
            SetOption::KeepTtl => matches!(self.expiry, DraftExpiry::Time(..)),
            SetOption::Time(form, _) => match self.expiry {
                DraftExpiry::Never => false,
                DraftExpiry::Keep => true,
                DraftExpiry::Time(before, _) => before != form,
            },
        }
    }

    /// What was said, and an option.
    fn with(self, option: SetOption) -> Self
        ensures { result ≡ said self option }
    {
        let Draft {
            condition,
            reply,
            expiry,
        } = self;
        match option {
            SetOption::IfAbsent => Draft {
                condition: Condition::IfAbsent,
                reply,
                expiry,
            },
            SetOption::IfPresent => Draft {
                condition: Condition::IfPresent,
                reply,
                expiry,
            },
            SetOption::Get => Draft {
                condition,
                reply: SetReply::Old,
                expiry,
            },
            SetOption::KeepTtl => Draft {
                condition,
                reply,
                expiry: DraftExpiry::Keep,
            },
            SetOption::Time(form, number) => Draft {
                condition,
                reply,
                expiry: DraftExpiry::Time(form, number),
            },
        }
    }

    /// What was said, and an option that doesn't contradict it.
    fn add(self, option: SetOption) -> Option<Self>
        ensures { result ≡ added self option }
    {
        if self.clashes(option) {
            None
        } else {
            Some(self.with(option))
        }
    }
}

/// The option that words begin with, a word and those after it, and what follows the option.
#[tactic(auto, unfolding(crate::specs::Options::option_at))]
fn option_at<'a>(word: &[u8], after: &'a [Items<u8>]) -> Option<(SetOption, &'a [Items<u8>])>
    ensures option { option_map (λ p. (p.0, p.1.now)) result ≡ option_at word.now after.now }
    ensures shorter { IfSome result (λ p. length p.1.now ≤ length after.now) }
{
    if let Some(option) = flag(word) {
        return Some((option, after));
    }
    let form = form(word)?;
    let (number, after) = after.split_first()?;
    let number = numbers::integer(number.as_slice());
    Some((SetOption::Time(form, number), after))
}

/// What the options say that words spell, none of which contradicts another.
fn drafted(words: &[Items<u8>]) -> Option<Draft>
    ensures { result ≡ drafted words.now }
{
    let mut draft = Draft::new();
    let mut rest = words;
    while let Some((word, after)) = rest.split_first() {
        let (option, after) = option_at(word.as_slice(), after)?;
        draft = draft.add(option)?;
        rest = after;
    }
    Some(draft)
}

/// When a value expires: at a moment after the Unix epoch, if at one.
fn expiry(draft: DraftExpiry, now: u64) -> Result<Expiry, ParseError>
    ensures { Gives result (expiry_of draft now) }
{
    match draft {
        DraftExpiry::Never => Ok(Expiry::Never),
        DraftExpiry::Keep => Ok(Expiry::Keep),
        DraftExpiry::Time(_, None) => Err(ParseError::Refused(Refusal::NotAnInteger)),
        DraftExpiry::Time(form, Some(number)) => {
            let at = if number > 0 {
                form.moment(now, number)
            } else {
                None
            };
            match at {
                Some(at) => Ok(Expiry::At(at)),
                None => Err(ParseError::Refused(Refusal::InvalidExpireTime(CommandName::Set))),
            }
        }
    }
}

/// The options that words spell. Times count from now.
#[tactic(auto, unfolding(crate::specs::Options::options))]
pub(crate) fn options(words: &[Items<u8>], now: u64) -> Result<SetOptions, ParseError>
    ensures { Gives result (options now words.now) }
{
    let Some(draft) = drafted(words) else {
        return Err(ParseError::Refused(Refusal::Syntax));
    };
    Ok(SetOptions {
        condition: draft.condition,
        expiry: expiry(draft.expiry, now)?,
        reply: draft.reply,
    })
}
