//! Parsing the section of rooms.

ghost use Rattle.std.specs.Prelude.{codes};
ghost use Rattle.ctt_text.specs.Places.{after};
ghost use Rattle.ctt_text.specs.declared.fault.ReadFault.TheVariants.{Expected};
ghost use Rattle.ctt_text.specs.Forms.{times};
ghost use Rattle.ctt_text.specs.InstancePlaces.{GivesRead, reads, room, no_rooms};

use crate::fault::ReadFault;
use crate::instance::header::Header;
use crate::instance::instance_words::{read_fixed, read_new_name, read_number};
use crate::reader::Reader;
use ctt_problem::Names;
use std::alloc::Global;
use std::marker::Model;

/// The rooms parsed so far.
#[derive(Drop)]
pub(crate) struct RoomSection {
    pub(crate) names: Names,
    pub(crate) capacities: Vec<u32>,
}

impl Model for RoomSection {
    ghost use Rattle.ctt_text.specs.InstancePlaces.{Rooms};

    ghost Value = { Rooms };

    ghost view = { λ s. record { names = s.names; capacities = s.capacities.items } };
}

/// Parses one room, and appends it to the section.
#[tactic(auto, using(crate::proofs::Steps::read_bind, crate::proofs::Steps::read_done), unfolding(crate::specs::InstancePlaces::room))]
fn read_one_room(
    alloc: Global,
    reader: &mut Reader,
    section: &mut RoomSection,
) -> Result<(), ReadFault>
    ensures { GivesRead (λ _. (section.new, reader.new)) result
        (reads (room section.old) reader.old) }
{
    let name = read_new_name(reader, &section.names)?;
    let capacity = read_number(reader)?;
    section.names.add(alloc, name)?;
    section.capacities.push(capacity)?;
    Ok(())
}

/// Parses `count` rooms.
fn read_rooms(alloc: Global, reader: &mut Reader, count: u32) -> Result<RoomSection, ReadFault>
    ensures { GivesRead (λ section. (section, reader.new)) result
        (reads (times room count no_rooms) reader.old) }
{
    let mut section = RoomSection {
        names: Names::new(alloc),
        capacities: Vec::new(alloc),
    };
    for _ in 0..count {
        read_one_room(alloc, reader, &mut section)?;
    }
    Ok(section)
}

/// Parses the section: its heading, and as many rooms as the header states.
#[tactic(auto, using(crate::proofs::Steps::read_bind))]
pub(crate) fn read_room_section(
    alloc: Global,
    reader: &mut Reader,
    header: &Header,
) -> Result<RoomSection, ReadFault>
    ensures { GivesRead (λ section. (section, reader.new)) result
        (reads (after Expected (codes "ROOMS:") (times room header.now.rooms no_rooms))
        reader.old) }
{
    read_fixed(reader, "ROOMS:")?;
    read_rooms(alloc, reader, header.rooms)
}
