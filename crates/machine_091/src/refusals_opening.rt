//! The places of the order of refusals that ask of a method before the connection runs: the one
//! that is expected, and what it says.

ghost use Rattle.std.specs.Prelude.{◌≡◌, ◌≢◌, true, false, Ok};
ghost use Rattle.std.specs.Str.{bytes_eq};
ghost use Rattle.methods_091.specs.View.{kind_of, args_of, parts_of};
ghost use Rattle.machine_091.specs.RefusalsOpening.{is_expected, expected_order, is_login};
ghost use Rattle.machine_091.specs.RefusalsOpening.{opening_refusal};

use crate::ids::{CONNECTION_OPEN, CONNECTION_START_OK, CONNECTION_TUNE_OK, is_method};
use crate::limits::{RESPONSE_MAX, is_agreed};
use crate::state::{Connection, Phase91};
use crate::unit::Ruling;
use close_translate::{COMMAND_INVALID, NOT_ALLOWED};
use methods_091::Method91;
use wire_base::ByteText;

/// Whether a method is the expected one.
pub(crate) fn is_expected(conn: &Connection, method: &Method91) -> bool
    ensures { result ≡ is_expected conn.now (kind_of method.now) }
{
    match conn.phase {
        Phase91::Start => is_method(method, CONNECTION_START_OK),
        Phase91::Tune => is_method(method, CONNECTION_TUNE_OK),
        Phase91::Open => !conn.asked && is_method(method, CONNECTION_OPEN),
        Phase91::Header | Phase91::Running | Phase91::Closing | Phase91::Closed => false,
    }
}

/// A method other than the expected one.
pub(crate) fn expected_order(conn: &Connection, method: &Method91) -> Option<Ruling>
    ensures { result ≡ expected_order conn.now (Ok (parts_of method.now)) }
{
    if is_expected(conn, method) {
        None
    } else {
        Some(Ruling::Refused(COMMAND_INVALID))
    }
}

fn is_named(text: &ByteText, name: &[u8]) -> bool
    ensures { result ≡ bytes_eq text.now name.now }
{
    text.as_slice() == name
}

fn is_login(mechanism: &ByteText, response: &ByteText) -> bool
    ensures { result ≡ is_login mechanism.now response.now }
{
    (is_named(mechanism, b"PLAIN") || is_named(mechanism, b"ANONYMOUS"))
        && response.as_slice().len() <= RESPONSE_MAX
}

/// What the expected method itself is refused for: another login, other limits, or another virtual
/// host.
pub(crate) fn opening_refusal(conn: &Connection, method: &Method91) -> Option<Ruling>
    requires { is_expected conn.now (kind_of method.now) ≡ true }
    ensures { result ≡ opening_refusal conn.now (args_of method.now) }
{
    let accepted = match method {
        Method91::ConnectionStartOk {
            mechanism,
            response,
            ..
        } => is_login(mechanism, response),
        Method91::ConnectionTuneOk {
            channel_max,
            frame_max,
            ..
        } => is_agreed(*channel_max, *frame_max),
        Method91::ConnectionOpen { virtual_host } => is_named(virtual_host, conn.vhost.as_slice()),
        _ => true,
    };
    if accepted {
        None
    } else {
        Some(Ruling::Refused(NOT_ALLOWED))
    }
}
