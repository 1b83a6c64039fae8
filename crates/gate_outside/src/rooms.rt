//! The rooms of a script: what writes take.

ghost use Rattle.std.specs.Prelude.{◌≡◌, ◌<◌, Some, IfOk, position};
ghost use Rattle.std.specs.List.{find};
ghost use Rattle.gate_outside.specs.Ends.{TakesSome};
ghost use Rattle.gate_outside.specs.Script.{is_room_of, room_answer, rooms_after};

use crate::ports::{End, Put};
use std::alloc::Global;
use std::marker::Model;
use wire_base::{ItemList, Memory};

/// What one write to an end takes: at most `most` bytes, or none at all where that is 0.
#[derive(Clone, Copy, Debug)]
pub struct Room {
    pub pair: u32,
    pub end: End,
    pub most: u32,
}

/// A list of rooms.
pub type Rooms = ItemList<Room>;

/// The rooms of a script that are not used yet.
#[derive(Debug, Drop)]
pub struct RoomsLeft {
    rooms: Vec<Room>,
}

impl Model for RoomsLeft {
    ghost use Rattle.std.specs.Prelude.{List};
    ghost use Rattle.gate_outside.specs.declared.rooms.Room.{Room};

    ghost Value = { List Room };

    ghost view = { λ a. a.rooms.items };
}

impl RoomsLeft {
    /// All of the rooms.
    pub fn new(alloc: Global, rooms: &Rooms) -> Result<RoomsLeft, Memory>
        ensures { IfOk result (λ left. left ≡ rooms.now) }
    {
        let mut copies = Vec::new(alloc);
        for k in 0..rooms.len() {
            if let Some(room) = rooms.get(k) {
                copies.push(*room)?;
            }
        }
        Ok(RoomsLeft { rooms: copies })
    }

    /// Answers a write of so many bytes to an end.
    pub fn write(&mut self, pair: u32, end: End, offered: usize) -> Put
        requires { 0 < offered }
        ensures answer { result ≡ room_answer offered (find (is_room_of pair end) self.old) }
        ensures goes { self.new ≡ rooms_after pair end self.old }
        ensures taken { TakesSome result offered }
    {
        match self.first(pair, end) {
            Some(at) => taken_by(self.rooms.remove(at), offered),
            None => Put::Took(offered),
        }
    }

    fn first(&self, pair: u32, end: End) -> Option<usize>
        ensures { result ≡ position (is_room_of pair end) self.now }
    {
        self.rooms
            .iter()
            .position(|room| is_room_of(room, pair, end))
    }
}

fn is_room_of(room: &Room, pair: u32, end: End) -> bool
    ensures { result ≡ is_room_of pair end room.now }
{
    room.pair == pair && room.end == end
}

fn taken_by(room: Room, offered: usize) -> Put
    requires { 0 < offered }
    ensures answer { result ≡ room_answer offered (Some room) }
    ensures taken { TakesSome result offered }
{
    if room.most == 0 {
        Put::NotYet
    } else {
        Put::Took(offered.min(room.most as usize))
    }
}
