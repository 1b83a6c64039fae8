//! The options of `serve`, read word by word.

ghost use Rattle.std.specs.Prelude.{◌≡◌, ◌≤◌, ℕ, List, IfSome, option_map, option_copied};
ghost use Rattle.gate_command.specs.Command.{nothing_given};
ghost use Rattle.gate_command.specs.Reading.{is_free, cut, option_named, text_in, short_in};
ghost use Rattle.gate_command.specs.Reading.{name_in, host_in, number_in, set_in, option_in, step};
ghost use Rattle.gate_command.specs.Reading.{word_in, ended};
ghost use Rattle.gate_command.specs.View.{settings_of, state_of, answer_of};

use crate::exchanges::exchanges_of;
use crate::words::Misplaced;

/// Turns are at most 2^47.
pub const MOST_TURNS: u64 = 140_737_488_355_328;

/// Pairs are at most 2^32 - 1.
const MOST_PAIRS: u64 = 4_294_967_295;

/// The most bytes of a name.
const MOST_NAME: usize = 100;

/// The most bytes of a host.
const MOST_HOST: usize = 200;

/// The most bytes of a virtual host.
const MOST_VHOST: usize = 255;

/// An option's name.
#[derive(Clone, Copy, Debug, PartialEq, Eq)]
pub enum OptionName {
    Listen,
    Upstream,
    Name,
    Host,
    Vhost,
    Exchange,
    Pairs,
    Turns,
    Capture,
}

/// What the options say that were read.
#[derive(Clone, Copy, Debug)]
pub struct Gathered<'a> {
    pub listen: Option<&'a str>,
    pub upstream: Option<&'a str>,
    pub name: Option<&'a str>,
    pub host: Option<&'a str>,
    pub vhost: Option<&'a str>,
    pub exchange: Option<&'a str>,
    pub pairs: Option<u32>,
    pub turns: Option<u64>,
    pub capture: Option<&'a str>,
}

/// Where the reading stands: between options, or after an option's name, whose value is the next
/// word.
#[derive(Clone, Copy, Debug)]
pub enum Progress<'a> {
    Between(Gathered<'a>),
    Awaiting(OptionName, Gathered<'a>),
}

/// The option with this name.
#[tactic(auto, unfolding(crate::specs::Reading::option_named))]
fn option_of(text: &str) -> Option<OptionName>
    ensures { result ≡ option_named text.now }
{
    if text == "--listen" {
        Some(OptionName::Listen)
    } else if text == "--upstream" {
        Some(OptionName::Upstream)
    } else if text == "--name" {
        Some(OptionName::Name)
    } else if text == "--host" {
        Some(OptionName::Host)
    } else if text == "--vhost" {
        Some(OptionName::Vhost)
    } else if text == "--exchange" {
        Some(OptionName::Exchange)
    } else if text == "--pairs" {
        Some(OptionName::Pairs)
    } else if text == "--turns" {
        Some(OptionName::Turns)
    } else if text == "--capture" {
        Some(OptionName::Capture)
    } else {
        None
    }
}

/// What stands before the first `=` of a word, and what stands after it, where there is one.
pub fn cut_of(word: &str) -> (&str, Option<&str>)
    ensures front { result.0.now ≡ (cut word.now).0 }
    ensures back { option_copied result.1 ≡ (cut word.now).1 }
{
    match word.split_once('=') {
        Some((front, back)) => (front, Some(back)),
        None => (word, None),
    }
}

/// A text, which isn't empty.
fn text_of(text: &str) -> Option<&str>
    ensures { option_copied result ≡ text_in text.now }
{
    if text.is_empty() { None } else { Some(text) }
}

/// A text of at most so many bytes, which isn't empty.
#[tactic(auto, unfolding(crate::specs::Reading::short_in))]
fn short_of(text: &str, most: usize) -> Option<&str>
    ensures { option_copied result ≡ short_in most text.now }
{
    if text.len() <= most {
        text_of(text)
    } else {
        None
    }
}

/// A name by which containers know the gateway.
fn name_of(text: &str) -> Option<&str>
    ensures { option_copied result ≡ name_in text.now }
{
    if text.is_ascii() {
        short_of(text, MOST_NAME)
    } else {
        None
    }
}

/// A host that containers are asked for.
fn host_of(text: &str) -> Option<&str>
    ensures { option_copied result ≡ host_in text.now }
{
    short_of(text, MOST_HOST)
}

/// The number from 1 to `most` that these digits write, without leading zero.
fn number_of(text: &str, most: u64) -> Option<u64>
    ensures number { result ≡ number_in most text.now }
    ensures within { IfSome result (λ n. n ≤ most) }
{
    // Neither a sign nor a leading zero, both of which `parse` would take.
    let first = text.as_bytes().first()?;
    if *first <= b'0' {
        return None;
    }
    let number = text.parse::<u64>().ok()?;
    if number <= most { Some(number) } else { None }
}

impl<'a> Gathered<'a> {
    /// Nothing is read yet.
    pub fn none() -> Gathered<'a>
        ensures { settings_of result ≡ nothing_given }
    {
        Gathered {
            listen: None,
            upstream: None,
            name: None,
            host: None,
            vhost: None,
            exchange: None,
            pairs: None,
            turns: None,
            capture: None,
        }
    }

    /// Whether the option isn't given yet.
    fn is_free(&self, name: OptionName) -> bool
        ensures { result ≡ is_free name (settings_of self.now) }
    {
        match name {
            OptionName::Listen => self.listen.is_none(),
            OptionName::Upstream => self.upstream.is_none(),
            OptionName::Name => self.name.is_none(),
            OptionName::Host => self.host.is_none(),
            OptionName::Vhost => self.vhost.is_none(),
            OptionName::Exchange => self.exchange.is_none(),
            OptionName::Pairs => self.pairs.is_none(),
            OptionName::Turns => self.turns.is_none(),
            OptionName::Capture => self.capture.is_none(),
        }
    }

    /// The same and this option's value, if it is in form.
    #[tactic(auto, unfolding(crate::specs::Reading::set_in))]
    fn with(mut self, name: OptionName, value: &'a str) -> Option<Gathered<'a>>
        ensures { option_map settings_of result ≡ set_in name value.now (settings_of self.entry) }
    {
        match name {
            OptionName::Listen => self.listen = Some(text_of(value)?),
            OptionName::Upstream => self.upstream = Some(text_of(value)?),
            OptionName::Name => self.name = Some(name_of(value)?),
            OptionName::Host => self.host = Some(host_of(value)?),
            OptionName::Vhost => self.vhost = Some(short_of(value, MOST_VHOST)?),
            OptionName::Exchange => self.exchange = Some(exchanges_of(value)?),
            OptionName::Pairs => self.pairs = Some(number_of(value, MOST_PAIRS)? as u32),
            OptionName::Turns => self.turns = Some(number_of(value, MOST_TURNS)?),
            OptionName::Capture => self.capture = Some(text_of(value)?),
        }
        Some(self)
    }

    /// After an option's first word, which may have its value too.
    #[tactic(auto, unfolding(crate::specs::Reading::option_in))]
    fn after_option(self, word: &'a str) -> Option<Progress<'a>>
        ensures { option_map state_of result ≡ option_in word.now (settings_of self.entry) }
    {
        let (front, back) = cut_of(word);
        let name = option_of(front)?;
        if !self.is_free(name) {
            return None;
        }
        match back {
            None => Some(Progress::Awaiting(name, self)),
            Some(value) => Some(Progress::Between(self.with(name, value)?)),
        }
    }
}

impl<'a> Progress<'a> {
    /// After a word, which may be an option's or a value; `None` where it can't stand.
    fn step(self, word: &'a str) -> Option<Progress<'a>>
        ensures { option_map state_of result ≡ step (state_of self.entry) word.now }
    {
        match self {
            Progress::Between(gathered) => gathered.after_option(word),
            Progress::Awaiting(_, _) if word.starts_with('-') => None,
            Progress::Awaiting(name, gathered) => Some(Progress::Between(gathered.with(
                name, word,
            )?)),
        }
    }

    /// The same, where line feeds, and more bytes than there is room for, can't stand.
    #[tactic(auto, unfolding(crate::specs::Reading::word_in))]
    pub fn after(self, word: &'a str, room: usize) -> Option<Progress<'a>>
        ensures { option_map state_of result ≡ word_in room (state_of self.entry) word.now }
    {
        if word.as_bytes().contains(&b'\n') || word.len() > room {
            return None;
        }
        self.step(word)
    }

    /// At the end of the words.
    pub fn ended(self) -> Result<Gathered<'a>, Misplaced>
        ensures { answer_of result ≡ ended (state_of self.entry) }
    {
        match self {
            Progress::Between(gathered) => Ok(gathered),
            Progress::Awaiting(_, _) => Err(Misplaced::End),
        }
    }
}
