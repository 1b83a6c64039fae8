//! A list of exchanges as text: parts `NAME=ADDRESS`, with a comma between each two.

ghost use Rattle.std.specs.Prelude.{◌≡◌, [], IfOk, option_copied, option_map, unwrap_or};
ghost use Rattle.std.specs.List.{list_any};
ghost use Rattle.gate_model.specs.Setup.{is_named};
ghost use Rattle.gate_command.specs.Reading.{is_route, is_sized, route_of, routes_in, routes_of};

use crate::options::cut_of;
use gate_model::{Route, Routes};
use std::alloc::Global;
use wire_base::{ByteText, Memory};

/// The most bytes of an exchange and of an address.
const MOST_BYTES: usize = 255;

/// The exchange of a part and its address, which is empty where there is no `=`.
fn route_of(part: &str) -> (&str, &str)
    ensures exchange { result.0.now ≡ (route_of part.now).exchange }
    ensures address { result.1.now ≡ (route_of part.now).address }
{
    let (exchange, address) = cut_of(part);
    (exchange, address.unwrap_or(""))
}

/// Whether an exchange or an address may have so many bytes.
fn is_sized(text: &str) -> bool
    ensures { result ≡ is_sized text.now }
{
    !text.is_empty() && text.len() <= MOST_BYTES
}

/// Whether a part may stand in a list.
fn is_route(part: &str) -> bool
    ensures { result ≡ is_route (route_of part.now) }
{
    let (exchange, address) = route_of(part);
    is_sized(exchange) && is_sized(address) && !address.as_bytes().contains(&b'=')
}

/// Whether a list names this exchange.
fn has_exchange(list: &str, exchange: &str) -> bool
    ensures { result ≡ list_any (is_named exchange.now) (routes_of list.now) }
{
    list.split(',').any(|part| route_of(part).0 == exchange)
}

/// A list whose parts are in form, and that names no exchange twice.
pub fn exchanges_of(list: &str) -> Option<&str>
    ensures { option_map routes_of (option_copied result) ≡ routes_in list.now }
{
    let mut rest = list;
    while let Some((part, after)) = rest.split_once(',') {
        if !is_route(part) || has_exchange(after, route_of(part).0) {
            return None;
        }
        rest = after;
    }
    if is_route(rest) { Some(list) } else { None }
}

/// A copy of the exchanges that a list names.
fn routes_of(alloc: Global, list: &str) -> Result<Routes, Memory>
    ensures { IfOk result (λ routes. routes ≡ routes_of list.now) }
{
    let mut routes = Routes::empty(alloc);
    for part in list.split(',') {
        let (exchange, address) = route_of(part);
        routes.push(Route {
            exchange: ByteText::copy_of(alloc, exchange.as_bytes())?,
            address: ByteText::copy_of(alloc, address.as_bytes())?,
        })?;
    }
    Ok(routes)
}

/// The same, or none where there is no list.
pub fn routes_for(alloc: Global, list: Option<&str>) -> Result<Routes, Memory>
    ensures { IfOk result (λ routes. routes
        ≡ unwrap_or (option_map routes_of (option_copied list.entry)) []) }
{
    match list {
        Some(list) => routes_of(alloc, list),
        None => Ok(Routes::empty(alloc)),
    }
}
