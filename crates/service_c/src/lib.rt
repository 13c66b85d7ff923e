//! The key-value service for C, and for all that calls C: five functions, which `service.h` declares.
#![tactic(auto)]

ghost use Rattle.std.specs.Prelude.{◌≡◌, ◌≤◌, length};
ghost use Rattle.std.specs.Borrow.{full_share};
ghost use Rattle.std.specs.Ptr.{lies_at};
ghost use types.Logic.{sem};
ghost use Rattle.service_host.specs.contracts.host.Host.{the_row};
ghost use Rattle.service_host.specs.declared.host.Host.{Host as HostValue};

use service_host::Host;
use std::alloc::Global;

/// The version of these functions, of the settings' form, and of what is put out.
const VERSION: u32 = 5;

/// Hands an input to a host.
fn call(host: &mut Host, input: u32, first: u64, second: u64, bytes: &[u8]) -> u32
    ensures { result ≤ 10 }
{
    host.call(input, first, second, bytes)
}

/// Reads what a host put out.
fn read(host: &mut Host, room: &mut [u8]) -> usize
    ensures { result ≤ length room.old }
{
    host.read(room)
}

/// Closes a host's service.
fn close(host: &mut Host) -> u32
    ensures { result ≡ 0 }
{
    host.close();
    0
}

/// A host without a service, on the heap; none if out of memory.
fn make_host(alloc: Global) -> Option<Box<Host>> {
    match Box::new(alloc, Host::new(alloc)) {
        Ok(host) => Some(host),
        Err(_) => None,
    }
}

/// The version of the library's functions.
#[unsafe(no_mangle)]
pub extern "C" fn wachelpo_version() -> u32 {
    VERSION
}

/// Makes a node without a service: writes where it is, and returns 0; or returns 1 and writes nothing, if out of memory.
///
/// The node stays valid until the program ends.
#[unsafe(no_mangle)]
pub extern "C" fn wachelpo_node(alloc: Global, node: &mut *mut u8) -> u32 {
    match make_host(alloc) {
        Some(host) => {
            *node = Box::into_raw(host).cast();
            0
        }
        None => 1,
    }
}

/// Hands an input to a node, and returns 0, or the code of the refusal, which is at most 10.
///
/// The node is one of `wachelpo_node`, and is given to one call at a time.
#[unsafe(no_mangle)]
pub unsafe extern "C" fn wachelpo_call(
    node: *mut u8,
    input: u32,
    first: u64,
    second: u64,
    bytes: &[u8],
) -> u32
    ghost host: { HostValue }
    requires* { sem 𝓛 (lies_at the_row full_share node host) }
    ensures* { ∃ₛ (λ (h : HostValue). sem 𝓛 (lies_at the_row full_share node h) ∗ ⌜ result ≤ 10 ⌝) }
{
    call(&mut *node.cast(), input, first, second, bytes)
}

/// Reads the next bytes of what the last call put out into a buffer, and returns how many: 0 at the end.
///
/// The node is one of `wachelpo_node`, and is given to one call at a time.
#[unsafe(no_mangle)]
pub unsafe extern "C" fn wachelpo_read(node: *mut u8, room: &mut [u8]) -> usize
    ghost host: { HostValue }
    requires* { sem 𝓛 (lies_at the_row full_share node host) }
    ensures* { ∃ₛ (λ (h : HostValue). sem 𝓛 (lies_at the_row full_share node h) ∗ ⌜ result ≤ length room.old ⌝) }
{
    read(&mut *node.cast(), room)
}

/// Closes the service of a node, if it has one, and frees all of its memory but for the node itself, which can be used again.
///
/// The node is one of `wachelpo_node`, and is given to one call at a time.
#[unsafe(no_mangle)]
pub unsafe extern "C" fn wachelpo_close(node: *mut u8) -> u32
    ghost host: { HostValue }
    requires* { sem 𝓛 (lies_at the_row full_share node host) }
    ensures* { ∃ₛ (λ (h : HostValue). sem 𝓛 (lies_at the_row full_share node h) ∗ ⌜ result ≡ 0 ⌝) }
{
    close(&mut *node.cast())
}
