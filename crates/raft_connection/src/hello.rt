//! The words of HELLO.

ghost use Rattle.std.specs.Prelude.{◌≡◌};
ghost use Rattle.raft_connection.specs.Hello.{version, unsaid, with_login, with_name, option_at, options, hello_request};
ghost use Rattle.raft_connection.specs.Stops.{Gives};

use crate::refusal::{Refusal, Stop};
use crate::secret::is_login;
use crate::words::{is_name, is_same_word, told};
use raft_machine::numbers;
use raft_resp::Protocol;
use raft_state::Items;
use std::alloc::Global;

/// What options of HELLO said.
#[derive(Debug, Drop)]
pub(crate) struct HelloOptions {
    /// AUTH: whether the user's word is right.
    pub(crate) login: Option<bool>,
    /// SETNAME: what the client calls itself.
    pub(crate) name: Option<Items<u8>>,
}

/// A version, and options.
#[derive(Debug, Drop)]
pub(crate) struct HelloRequest {
    /// The version that the client will speak, if it says so.
    pub(crate) protocol: Option<Protocol>,
    pub(crate) options: HelloOptions,
}

/// The version that a word is.
fn version(word: &[u8]) -> Result<Protocol, Stop>
    ensures { Gives (λ p. p) result (version word.now) }
{
    match numbers::integer(word) {
        None => Err(Stop::Refused(Refusal::NoVersion)),
        Some(2) => Ok(Protocol::Resp2),
        Some(3) => Ok(Protocol::Resp3),
        Some(_) => Err(Stop::Refused(Refusal::UnsupportedVersion)),
    }
}

/// What was said, and SETNAME with a word.
fn with_name(options: HelloOptions, word: &Items<u8>) -> Result<HelloOptions, Stop>
    ensures { Gives (λ o. o) result (with_name options word.now) }
{
    if !is_name(word.as_slice()) {
        return Err(Stop::Refused(Refusal::ClientName));
    }
    let HelloOptions { login, name: _ } = options;
    Ok(HelloOptions {
        login,
        name: Some(word.copy()?),
    })
}

/// What was said, and AUTH with two words.
fn with_login(
    secret: &Option<Items<u8>>,
    options: HelloOptions,
    user: &[u8],
    word: &[u8],
) -> HelloOptions
    ensures { result ≡ with_login secret.now options user.now word.now }
{
    let HelloOptions { login: _, name } = options;
    HelloOptions {
        login: Some(is_login(secret, user, word)),
        name,
    }
}

/// An option: its name, and the words behind it, of which it takes the first ones.
fn option_at<'a>(
    alloc: Global,
    secret: &Option<Items<u8>>,
    options: HelloOptions,
    name: &[u8],
    after: &'a [Items<u8>],
) -> Result<(HelloOptions, &'a [Items<u8>]), Stop>
    ensures { Gives (λ x. (x.0, x.1.now)) result (option_at secret.now options name.now after.now) }
{
    match after {
        [user, word, rest @ ..] if is_same_word(name, b"auth") => {
            Ok((
                with_login(secret, options, user.as_slice(), word.as_slice()),
                rest,
            ))
        }
        [word, rest @ ..] if is_same_word(name, b"setname") => {
            Ok((with_name(options, word)?, rest))
        }
        _ => Err(Stop::Refused(Refusal::HelloOption(told(alloc, name)?))),
    }
}

/// The options that words spell.
fn options(
    alloc: Global,
    secret: &Option<Items<u8>>,
    words: &[Items<u8>],
) -> Result<HelloOptions, Stop>
    ensures { Gives (λ o. o) result (options secret.now unsaid words.now) }
{
    let mut said = HelloOptions {
        login: None,
        name: None,
    };
    let mut rest = words;
    while let Some((name, after)) = rest.split_first() {
        let (more, behind) = option_at(alloc, secret, said, name.as_slice(), after)?;
        said = more;
        rest = behind;
    }
    Ok(said)
}

/// What HELLO's words spell.
pub(crate) fn hello_request(
    alloc: Global,
    secret: &Option<Items<u8>>,
    words: &[Items<u8>],
) -> Result<HelloRequest, Stop>
    ensures { Gives (λ r. r) result (hello_request secret.now words.now) }
{
    match words.split_first() {
        None => Ok(HelloRequest {
            protocol: None,
            options: HelloOptions {
                login: None,
                name: None,
            },
        }),
        Some((word, rest)) => {
            let protocol = version(word.as_slice())?;
            let options = options(alloc, secret, rest)?;
            Ok(HelloRequest {
                protocol: Some(protocol),
                options,
            })
        }
    }
}
