//! The sending links of a channel (AMQP 1.0 2.6), by their numbers and their addresses.

ghost use Rattle.std.specs.Prelude.{◌≡◌, List, [], ◌∷◌, ◌++◌, map, find, true, OnOk, OnErr, IsSome};
ghost use Rattle.std.specs.Prelude.{option_copied};
ghost use Rattle.std.specs.Option.{option_map};
ghost use Rattle.publish_path.specs.declared.send_links.SendingLink.{SendingLink};
ghost use Rattle.publish_path.specs.Links.{has_number, has_address, link_of, link_to, address_of};
ghost use Rattle.publish_path.specs.Links.{can_send, asked_link, now_attached, flowed, drained};
ghost use Rattle.publish_path.specs.Links.{begun_on, link_changed, without};

use links_10::SendLink;
use std::alloc::Global;
use std::marker::Model;
use wire_base::{ByteText, Memory};

/// A sending link of a channel.
#[derive(Drop)]
pub struct SendingLink {
    /// Its number on the channel.
    pub link: u32,
    /// The address of its target.
    pub address: ByteText,
    /// The container's attach was read.
    pub attached: bool,
    /// Its delivery-count and its credit.
    pub state: SendLink,
}

/// The sending links of a channel. Contracts see their list. No call takes memory but `add`.
#[derive(Drop)]
pub struct SendLinks {
    links: Vec<SendingLink>,
}

impl Model for SendLinks {
    ghost use Rattle.std.specs.Prelude.{List};
    ghost use Rattle.publish_path.specs.declared.send_links.SendingLink.{SendingLink};

    ghost Value = { List SendingLink };

    ghost view = { λ a. a.links.items };
}

/// What happens to a link.
#[derive(Clone, Copy, Debug)]
pub enum LinkChange {
    Attached,
    Flowed(Option<u32>, u32),
    Drained,
    Begun,
}

fn has_number(this: &SendingLink, link: u32) -> bool
    ensures { result ≡ has_number link this.now }
{
    this.link == link
}

fn has_address(this: &SendingLink, address: &[u8]) -> bool
    ensures { result ≡ has_address address.now this.now }
{
    this.address.as_slice() == address
}

fn with_number(links: &[SendingLink], link: u32) -> Option<&SendingLink>
    ensures { option_copied result ≡ link_of links.now link }
{
    links.iter().find(|this| has_number(this, link))
}

fn with_address<'a>(links: &'a [SendingLink], address: &[u8]) -> Option<&'a SendingLink>
    ensures { option_copied result ≡ link_to links.now address.now }
{
    links.iter().find(|this| has_address(this, address))
}

fn attach_one(this: &mut SendingLink, link: u32)
    ensures { this.new ≡ now_attached link this.old }
{
    if has_number(this, link) {
        this.attached = true;
    }
}

fn flow_one(this: &mut SendingLink, link: u32, count: Option<u32>, credit: u32)
    ensures { this.new ≡ flowed link count credit this.old }
{
    if has_number(this, link) {
        this.state.flow(count, credit);
    }
}

fn drain_one(this: &mut SendingLink, link: u32)
    ensures { this.new ≡ drained link this.old }
{
    if has_number(this, link) {
        this.state.drain();
    }
}

fn begin_one(this: &mut SendingLink, link: u32)
    ensures { this.new ≡ begun_on link this.old }
{
    if has_number(this, link) && this.state.credit() >= 1 {
        this.state.begun();
    }
}

fn change_one(this: &mut SendingLink, link: u32, change: LinkChange)
    ensures { this.new ≡ link_changed link change this.old }
{
    match change {
        LinkChange::Attached => attach_one(this, link),
        LinkChange::Flowed(count, credit) => flow_one(this, link, count, credit),
        LinkChange::Drained => drain_one(this, link),
        LinkChange::Begun => begin_one(this, link),
    }
}

/// Changes the link with this number.
fn change_each(links: &mut Vec<SendingLink>, link: u32, change: LinkChange)
    ensures { links.new.items ≡ map (link_changed link change) links.old.items }
{
    for this in links.iter_mut() {
        change_one(this, link, change);
    }
}

impl SendLinks {
    /// No links. It takes the allocator that later growth uses, and no memory.
    pub fn new(alloc: Global) -> SendLinks
        ensures { result ≡ [] }
    {
        SendLinks {
            links: Vec::new(alloc),
        }
    }

    /// A link to this address is needed, under this number; its attach isn't answered yet.
    pub fn add(&mut self, link: u32, address: ByteText) -> Result<(), Memory>
        requires number { link_of self.old link ≡ None }
        requires address { link_to self.old address ≡ None }
        ensures ok { OnOk result (self.new ≡ self.old ++ asked_link link address ∷ []) }
        ensures err { OnErr result (self.new ≡ self.old) }
    {
        self.links.push(SendingLink {
            link,
            address,
            attached: false,
            state: SendLink::new(),
        })?;
        Ok(())
    }

    /// The number of the link to this address.
    pub fn find(&self, address: &[u8]) -> Option<u32>
        ensures { result ≡ option_map (λ l. l.link) (link_to self.now address.now) }
    {
        match with_address(self.links.as_slice(), address) {
            Some(this) => Some(this.link),
            None => None,
        }
    }

    /// The address of this link's target, which its attach states (AMQP 1.0 3.5.4); empty where
    /// there is no such link.
    pub fn address(&self, link: u32) -> &[u8]
        ensures { result.now ≡ address_of self.now link }
    {
        match with_number(self.links.as_slice(), link) {
            Some(this) => this.address.as_slice(),
            None => &[],
        }
    }

    /// The delivery-count and the credit of this link.
    pub fn get(&self, link: u32) -> Option<&SendLink>
        ensures { option_copied result ≡ option_map (λ l. l.state) (link_of self.now link) }
    {
        match with_number(self.links.as_slice(), link) {
            Some(this) => Some(&this.state),
            None => None,
        }
    }

    /// A transfer may begin on this link: it is attached and has credit.
    pub fn can_send(&self, link: u32) -> bool
        ensures { result ≡ can_send (link_of self.now link) }
    {
        match with_number(self.links.as_slice(), link) {
            Some(this) => this.attached && this.state.credit() >= 1,
            None => false,
        }
    }

    /// The container's attach of this link was read.
    pub fn attached(&mut self, link: u32)
        requires { IsSome (link_of self.old link) }
        ensures { self.new ≡ map (now_attached link) self.old }
    {
        change_each(&mut self.links, link, LinkChange::Attached);
    }

    /// A flow of the container came for this link, with this delivery-count and link-credit (AMQP
    /// 1.0 2.7.4). An absent count stands for 0.
    pub fn flow(&mut self, link: u32, count: Option<u32>, credit: u32)
        requires { IsSome (link_of self.old link) }
        ensures { self.new ≡ map (flowed link count credit) self.old }
    {
        change_each(&mut self.links, link, LinkChange::Flowed(count, credit));
    }

    /// A flow of this link that answers a drain was sent: its credit is given up.
    pub fn drain(&mut self, link: u32)
        requires { IsSome (link_of self.old link) }
        ensures { self.new ≡ map (drained link) self.old }
    {
        change_each(&mut self.links, link, LinkChange::Drained);
    }

    /// The first frame of a transfer was sent on this link.
    pub(crate) fn begun(&mut self, link: u32)
        requires { can_send (link_of self.old link) ≡ true }
        ensures { self.new ≡ map (begun_on link) self.old }
    {
        change_each(&mut self.links, link, LinkChange::Begun);
    }

    /// This link is no more.
    pub fn remove(&mut self, link: u32)
        requires { IsSome (link_of self.old link) }
        ensures { self.new ≡ without link self.old }
    {
        self.links.retain(|this| !has_number(this, link));
    }
}
