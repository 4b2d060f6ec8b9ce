// The window machine as it crosses to C: the types, what they mean (specs/), and the laws of calls on images (proofs/). No
// code: images are read and written in embed_slots, and the calls are in embed_machine.
//
// An enum cannot cross, so an entry crosses as a slot: its instruction's four numbers, its index and what became of it. With the
// instruction in the slot a call lent another program is refused as 01 says, and no program is needed to read an image.
#![tactic(auto)]

use machine_model::REGISTERS;
use table::{STAGES, Table};

// A window entry. `executed` is 0 of one that waits; any other number reads as executed.
#[repr(C)]
#[derive(Clone, Copy)]
pub struct Slot {
    pub code: u8,
    pub d: u8,
    pub s: u8,
    pub executed: u8,
    pub imm: u32,
    pub index: u32,
    pub value: u32,
    pub address: u32,
    pub distance: u32,
}

// A machine, its slots by stage. No byte is padding, so that an image handed back unchanged is so byte for byte.
#[repr(C)]
#[derive(Clone, Copy)]
pub struct Image {
    pub table: Table,
    pub window: [Slot; STAGES],
    pub registers: [u32; REGISTERS],
    pub count: u32,
    pub next: u32,
}

// An answer: a refusal's number, 0 where the call was accepted, and what it carries under its name, 0 for what it lacks.
#[repr(C)]
#[derive(Clone, Copy)]
pub struct Numbers {
    pub position: usize,
    pub commits: usize,
    pub refusal: u32,
    pub squashed: u32,
    pub index: u32,
    pub code: u32,
    pub target: u32,
    pub value: u32,
    pub distance: u32,
}

#[repr(C)]
#[derive(Clone, Copy)]
pub struct Answered {
    pub image: Image,
    pub numbers: Numbers,
}
