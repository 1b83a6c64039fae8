//! The lines of the report: what became of publishes and deliveries that were given up.

ghost use Rattle.std.specs.Prelude.{◌≡◌, ◌++◌, false, codes, decimal};
ghost use Rattle.std.specs.Bool.{OnFalse};
ghost use Rattle.gate_model.specs.Paths.{lines_in, lines_of_life, lines_on};
ghost use Rattle.gate_model.specs.Spelling.{fate_name, line_text, lines_text, what_name};
ghost use Rattle.gate_relay.specs.Entries.{is_empty};
ghost use Rattle.consume_path.specs.Offers.{line_of as delivery_line};
ghost use Rattle.consume_path.specs.Offers.{lines_of as delivery_lines};
ghost use Rattle.publish_path.specs.Offers.{line_of, lines_of};
ghost use Rattle.session_path.specs.Due.{lines};
ghost use Rattle.bridge_core.specs.Reports.{Writes, text_of_line};

use crate::paths::{PathSlot, Paths};
use consume_path::Delivery;
use gate_outside::{Sink, write_all};
use itoa::Buffer;
use open_items::{LostItem, LostKind};
use publish_path::Publish;
use session_path::SessionPath;

/// What a message is.
fn what_name(kind: LostKind) -> &'static [u8]
    ensures { result.now ≡ what_name kind }
{
    match kind {
        LostKind::PublishLost | LostKind::PublishUnknown => b" publish ",
        LostKind::DeliveryLeft | LostKind::DeliveryLost => b" delivery ",
    }
}

/// What became of it, and the end of the line.
fn fate_name(kind: LostKind) -> &'static [u8]
    ensures { result.now ≡ fate_name kind }
{
    match kind {
        LostKind::PublishLost | LostKind::DeliveryLost => b" lost\n",
        LostKind::PublishUnknown => b" unknown\n",
        LostKind::DeliveryLeft => b" left\n",
    }
}

/// Writes a text. `false` comes only if the sink's count of faults rose; a front part was then
/// taken.
fn tell_text<K: Sink>(report: &mut K, text: &[u8]) -> bool
    ensures { Writes result (K.faults report.old) (K.faults report.new) (K.held report.old)
        (K.held report.new) text.now }
{
    write_all(report, text)
}

/// Writes a text and a number in decimal.
fn tell_number<K: Sink>(report: &mut K, before: &[u8], number: u64) -> bool
    ensures { Writes result (K.faults report.old) (K.faults report.new) (K.held report.old)
        (K.held report.new) (before.now ++ decimal number) }
{
    if !tell_text(report, before) {
        return false;
    }
    let mut buffer = Buffer::new();
    tell_text(report, buffer.format(number).as_bytes())
}

/// Writes the line of one message.
fn tell_line<K: Sink>(report: &mut K, pair: u32, item: LostItem) -> bool
    ensures { Writes result (K.faults report.old) (K.faults report.new) (K.held report.old)
        (K.held report.new) (line_text pair item) }
{
    if !tell_number(report, b"pair ", u64::from(pair)) {
        return false;
    }
    if !tell_number(report, b" life ", item.life) {
        return false;
    }
    if !tell_number(report, what_name(item.kind), item.number) {
        return false;
    }
    tell_text(report, fate_name(item.kind))
}

/// Writes the line of a publish, if it owes one.
fn tell_publish<K: Sink>(report: &mut K, pair: u32, life: u64, publish: &Publish) -> bool
    ensures { Writes result (K.faults report.old) (K.faults report.new) (K.held report.old)
        (K.held report.new) (text_of_line pair (line_of life publish.now)) }
{
    match publish.line {
        None => true,
        Some(kind) => {
            let item = LostItem {
                life,
                number: publish.number,
                kind,
            };
            tell_line(report, pair, item)
        }
    }
}

/// Writes the lines of publishes of one life.
fn tell_publishes<K: Sink>(report: &mut K, pair: u32, life: u64, publishes: &[Publish]) -> bool
    ensures { Writes result (K.faults report.old) (K.faults report.new) (K.held report.old)
        (K.held report.new) (lines_text pair (lines_of life publishes.now)) }
{
    for publish in publishes {
        if !tell_publish(report, pair, life, publish) {
            return false;
        }
    }
    true
}

/// Writes the line of a delivery, if it owes one.
fn tell_delivery<K: Sink>(report: &mut K, pair: u32, life: u64, delivery: &Delivery) -> bool
    ensures { Writes result (K.faults report.old) (K.faults report.new) (K.held report.old)
        (K.held report.new) (text_of_line pair (delivery_line life delivery.now)) }
{
    match delivery.line {
        None => true,
        Some(kind) => {
            let item = LostItem {
                life,
                number: u64::from(delivery.id),
                kind,
            };
            tell_line(report, pair, item)
        }
    }
}

/// Writes the lines of deliveries of one life.
fn tell_deliveries<K: Sink>(report: &mut K, pair: u32, life: u64, deliveries: &[Delivery]) -> bool
    ensures { Writes result (K.faults report.old) (K.faults report.new) (K.held report.old)
        (K.held report.new) (lines_text pair (delivery_lines life deliveries.now)) }
{
    for delivery in deliveries {
        if !tell_delivery(report, pair, life, delivery) {
            return false;
        }
    }
    true
}

/// Writes the lines that a channel owes.
fn tell_path<K: Sink>(report: &mut K, pair: u32, path: &SessionPath) -> bool
    ensures { Writes result (K.faults report.old) (K.faults report.new) (K.held report.old)
        (K.held report.new) (lines_text pair (lines path.now)) }
{
    let life = path.life();
    if !tell_publishes(report, pair, life, path.publishes()) {
        return false;
    }
    tell_deliveries(report, pair, path.delivery_life(), path.deliveries())
}

/// Writes those that it owes if this life is in progress there.
fn tell_slot<K: Sink>(report: &mut K, pair: u32, life: u64, slot: &PathSlot) -> bool
    ensures { Writes result (K.faults report.old) (K.faults report.new) (K.held report.old)
        (K.held report.new) (lines_text pair (lines_on life slot.now)) }
{
    match slot.path() {
        Some(path) if path.life() == life => tell_path(report, pair, path),
        _ => true,
    }
}

/// Writes the lines of one life.
fn tell_life<K: Sink>(report: &mut K, pair: u32, life: u64, slots: &[PathSlot]) -> bool
    ensures { Writes result (K.faults report.old) (K.faults report.new) (K.held report.old)
        (K.held report.new) (lines_text pair (lines_of_life life slots.now)) }
{
    for slot in slots {
        if !tell_slot(report, pair, life, slot) {
            return false;
        }
    }
    true
}

/// Writes the lines of the lives up to the last one, by their numbers.
pub fn tell_lines<K: Sink>(report: &mut K, pair: u32, paths: &Paths, last: u64) -> bool
    ensures text { Writes result (K.faults report.old) (K.faults report.new) (K.held report.old)
        (K.held report.new) (lines_text pair (lines_in paths.now last)) }
    ensures some { OnFalse result (is_empty (lines_text pair (lines_in paths.now last)) ≡ false) }
{
    let mut told = 0;
    while let Some(life) = paths.next_owing(told, last) {
        if !tell_life(report, pair, life, paths.slots()) {
            return false;
        }
        told = life;
    }
    true
}
