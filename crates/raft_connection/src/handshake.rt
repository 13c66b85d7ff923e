//! Commands that change what a connection knows of its client: HELLO, AUTH, CLIENT, RESET and QUIT.

ghost use Rattle.std.specs.Prelude.{◌≡◌, IfOk};
ghost use Rattle.raft_connection.specs.Handshake.{greeted, hello, logged_in, auth, set_name, get_name, get_id, set_info, client_at};
ghost use Rattle.raft_connection.specs.Handshake.{client, reset, quit, flag};

use crate::hello::{HelloRequest, hello_request};
use crate::own_command::OwnCommand;
use crate::refusal::{Refusal, Stop};
use crate::response::{Response, Status};
use crate::secret::is_login;
use crate::session::{Session, Transaction};
use crate::words::{is_name, is_same_word, told};
use raft_resp::Protocol;
use raft_state::Items;
use std::alloc::{AllocError, Global};

fn wrong_number(command: OwnCommand) -> Response
    ensures { result ≡ Response.Refused (Refusal.WrongNumberOfArguments command) }
{
    Response::Refused(Refusal::WrongNumberOfArguments(command))
}

/// HELLO, once its words are read.
fn greeted(session: &mut Session, request: HelloRequest) -> Response
    ensures { (session.new, result) ≡ greeted session.old request }
{
    let HelloRequest { protocol, options } = request;
    if options.login == Some(false) {
        return Response::Refused(Refusal::WrongSecret);
    }
    if !session.is_authenticated && options.login.is_none() {
        return Response::Refused(Refusal::NotAuthenticatedHello);
    }
    session.is_authenticated = true;
    if let Some(protocol) = protocol {
        session.protocol = protocol;
    }
    if let Some(name) = options.name {
        session.name = name;
    }
    Response::Greeting(session.id)
}

/// HELLO.
pub(crate) fn hello(
    alloc: Global,
    secret: &Option<Items<u8>>,
    session: &mut Session,
    args: &[Items<u8>],
) -> Result<Response, AllocError>
    ensures { IfOk result (λ response. (session.new, response) ≡ hello secret.now session.old args.now) }
{
    match hello_request(alloc, secret, args) {
        Ok(request) => Ok(greeted(session, request)),
        Err(Stop::Refused(refusal)) => Ok(Response::Refused(refusal)),
        Err(Stop::OutOfMemory) => Err(AllocError),
    }
}

/// What a login comes to.
fn logged_in(session: &mut Session, is_right: bool) -> Response
    ensures { (session.new, result) ≡ logged_in session.old is_right }
{
    if is_right {
        session.is_authenticated = true;
        Response::Status(Status::Done)
    } else {
        Response::Refused(Refusal::WrongSecret)
    }
}

/// AUTH.
pub(crate) fn auth(
    secret: &Option<Items<u8>>,
    session: &mut Session,
    args: &[Items<u8>],
) -> Response
    ensures { (session.new, result) ≡ auth secret.now session.old args.now }
{
    match args {
        [] => wrong_number(OwnCommand::Auth),
        [word] => match secret {
            None => Response::Refused(Refusal::NoSecret),
            Some(_) => logged_in(session, is_login(secret, b"default", word.as_slice())),
        },
        [user, word] => logged_in(session, is_login(secret, user.as_slice(), word.as_slice())),
        _ => Response::Refused(Refusal::Syntax),
    }
}

/// CLIENT SETNAME.
fn set_name(session: &mut Session, args: &[Items<u8>]) -> Result<Response, AllocError>
    ensures { IfOk result (λ response. (session.new, response) ≡ set_name session.old args.now) }
{
    let [name] = args else {
        return Ok(wrong_number(OwnCommand::ClientSetName));
    };
    if !is_name(name.as_slice()) {
        return Ok(Response::Refused(Refusal::ClientName));
    }
    session.name = name.copy()?;
    Ok(Response::Status(Status::Done))
}

/// CLIENT GETNAME.
fn get_name(session: &Session, args: &[Items<u8>]) -> Result<Response, AllocError>
    ensures { IfOk result (λ response. response ≡ get_name session.now args.now) }
{
    if !args.is_empty() {
        return Ok(wrong_number(OwnCommand::ClientGetName));
    }
    if session.name.is_empty() {
        return Ok(Response::Nothing);
    }
    Ok(Response::Bytes(session.name.copy()?))
}

/// CLIENT ID.
fn get_id(session: &Session, args: &[Items<u8>]) -> Response
    ensures { result ≡ get_id session.now args.now }
{
    match args {
        [] => Response::Number(session.id),
        _ => wrong_number(OwnCommand::ClientId),
    }
}

/// A subcommand that switches something on or off, which makes no difference here.
fn flag(command: OwnCommand, args: &[Items<u8>]) -> Response
    ensures { result ≡ flag command args.now }
{
    match args {
        [word] => {
            if is_same_word(word.as_slice(), b"on") || is_same_word(word.as_slice(), b"off") {
                Response::Status(Status::Done)
            } else {
                Response::Refused(Refusal::Syntax)
            }
        }
        _ => wrong_number(command),
    }
}

/// CLIENT SETINFO: a client's library and its version, which nobody asks for.
fn set_info(args: &[Items<u8>]) -> Response
    ensures { result ≡ set_info args.now }
{
    match args {
        [_, _] => Response::Status(Status::Done),
        _ => wrong_number(OwnCommand::ClientSetInfo),
    }
}

/// CLIENT with a subcommand and what is behind it.
#[tactic(auto, unfolding(crate::specs::Handshake::client_at))]
fn client_at(
    alloc: Global,
    session: &mut Session,
    name: &[u8],
    args: &[Items<u8>],
) -> Result<Response, AllocError>
    ensures { IfOk result (λ response. (session.new, response) ≡ client_at session.old name.now args.now) }
{
    if is_same_word(name, b"id") {
        Ok(get_id(session, args))
    } else if is_same_word(name, b"getname") {
        get_name(session, args)
    } else if is_same_word(name, b"setname") {
        set_name(session, args)
    } else if is_same_word(name, b"setinfo") {
        Ok(set_info(args))
    } else if is_same_word(name, b"no-evict") {
        Ok(flag(OwnCommand::ClientNoEvict, args))
    } else if is_same_word(name, b"no-touch") {
        Ok(flag(OwnCommand::ClientNoTouch, args))
    } else {
        let told = told(alloc, name)?;
        Ok(Response::Refused(Refusal::UnknownSubcommand(OwnCommand::Client, told)))
    }
}

/// CLIENT.
pub(crate) fn client(
    alloc: Global,
    session: &mut Session,
    args: &[Items<u8>],
) -> Result<Response, AllocError>
    ensures { IfOk result (λ response. (session.new, response) ≡ client session.old args.now) }
{
    match args.split_first() {
        None => Ok(wrong_number(OwnCommand::Client)),
        Some((name, args)) => client_at(alloc, session, name.as_slice(), args),
    }
}

/// RESET.
pub(crate) fn reset(
    alloc: Global,
    secret: &Option<Items<u8>>,
    session: &mut Session,
    args: &[Items<u8>],
) -> Response
    ensures { (session.new, result) ≡ reset secret.now session.old args.now }
{
    if !args.is_empty() {
        return wrong_number(OwnCommand::Reset);
    }
    session.protocol = Protocol::Resp2;
    session.name = Items::new(alloc);
    session.is_authenticated = secret.is_none();
    session.transaction = Transaction::Outside;
    Response::Status(Status::Reset)
}

/// QUIT.
pub(crate) fn quit(session: &mut Session) -> Response
    ensures { (session.new, result) ≡ quit session.old }
{
    session.is_closing = true;
    Response::Status(Status::Done)
}
