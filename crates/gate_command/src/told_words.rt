//! Words as one text.

ghost use Rattle.std.specs.Prelude.{◌≡◌, map, IfOk};
ghost use Rattle.std.specs.String.{string_bytes};
ghost use Rattle.gate_command.specs.Command.{words_of};

use std::alloc::Global;
use wire_base::Memory;

/// The words that a text tells after `serve`.
pub fn words_of(alloc: Global, text: &str) -> Result<Vec<String>, Memory>
    ensures { IfOk result (λ words. map string_bytes words.items ≡ words_of text.now) }
{
    let mut words = Vec::new(alloc);
    words.push(String::from_str(alloc, "serve")?)?;
    if text.is_empty() {
        return Ok(words);
    }
    let mut rest = text;
    while let Some((line, after)) = rest.split_once('\n') {
        words.push(String::from_str(alloc, line)?)?;
        rest = after;
    }
    words.push(String::from_str(alloc, rest)?)?;
    Ok(words)
}
