// What the program was asked for: the ring's size, the packets' size, the moods.
use crate::moods::Moods;
use defs::limits;
use std::env::FillError;
use std::rt::Runtime;
use std::{fmt, str};

// The largest ring that there is storage for, whatever a ring may be.
pub const MAX_RING: u32 = 65536;

const USUAL_PACKET: u32 = 4096;

// The program's own name and its three arguments.
const MOST: usize = 4;

#[derive(Clone, Copy)]
pub struct Wishes<'a> {
    pub size: u32,
    pub packet: usize,
    pub moods: Moods<'a>,
}

// What is wrong with the arguments, the first of several.
#[derive(Clone, Copy)]
pub enum Objection {
    Ring,
    Packet,
    Moods,
    TooMany,
}

impl fmt::Display for Objection {
    fn fmt<W: fmt::Write>(&self, f: &mut fmt::Formatter<W>) -> fmt::Result {
        f.write_str(match self {
            Objection::Ring => "RING is not a ring's size",
            Objection::Packet => "PACKET is not a packet's size",
            Objection::Moods => "MOODS is not a script of moods",
            Objection::TooMany => "there is an argument too many",
        })
    }
}

// The script of moods is read into the room for it.
pub fn wished<'a, R: Runtime>(rt: &R, room: &'a mut [u8]) -> Result<Wishes<'a>, Objection> {
    let size = number(rt, 1, MAX_RING)
        .filter(|size| limits::is_ring_size(*size) && *size <= MAX_RING)
        .ok_or(Objection::Ring)?;
    let packet = number(rt, 2, USUAL_PACKET)
        .map(|packet| packet as usize)
        .filter(|packet| limits::is_packet_length(*packet) && *packet != 0)
        .ok_or(Objection::Packet)?;
    let moods = script(rt, room).ok_or(Objection::Moods)?;
    if !is_missing(rt, MOST) {
        return Err(Objection::TooMany);
    }
    Ok(Wishes {
        size,
        packet,
        moods,
    })
}

fn is_missing<R: Runtime>(rt: &R, i: usize) -> bool {
    matches!(rt.arg(i, &mut []), Err(FillError::NotPresent))
}

fn script<'a, R: Runtime>(rt: &R, room: &'a mut [u8]) -> Option<Moods<'a>> {
    let n = match rt.arg(3, room) {
        Ok(n) => n,
        Err(FillError::NotPresent) => 0,
        Err(FillError::TooLong) => return None,
    };
    Moods::new(text::front(room, n))
}

// The number that an argument says; `usual` where there is no argument.
fn number<R: Runtime>(rt: &R, i: usize, usual: u32) -> Option<u32> {
    let mut digits = [0u8; 64];
    match rt.arg(i, &mut digits) {
        Ok(n) => decimal(text::front(&digits, n)),
        Err(FillError::NotPresent) => Some(usual),
        Err(FillError::TooLong) => None,
    }
}

// Digits alone: `parse` takes a sign before them too.
fn decimal(digits: &[u8]) -> Option<u32> {
    let text = str::from_utf8(digits).ok()?;
    if text.starts_with('+') {
        return None;
    }
    text.parse().ok()
}
