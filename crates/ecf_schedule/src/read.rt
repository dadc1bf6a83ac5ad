//! Reads the events of a source.

ghost use Rattle.std.specs.Prelude.{◌≡◌, ◌<◌, length, All, IfOk, OnErr};
ghost use Rattle.ecf_edge.specs.Source.{GaveSome};
ghost use Rattle.ecf_events.specs.Laws.{HasActor};
ghost use Rattle.ecf_schedule.specs.Reading.{first_state, IsReading};
ghost use Rattle.ecf_schedule.specs.Said.{said_by, AreSaid, ReadsSchedule};

use crate::reader::EventReader;
use ecf_core::event::Event;
use ecf_edge::{Failed, Source};
use ecf_events::laws::events_have_actors;
use ecf_lang::receipt::Stop;
use ecf_stream::READ_BYTES;
use std::alloc::{AllocError, Global};

/// Reads the events of a source to its end or to the first stop, which says where and why the reading stopped. Nothing is read
/// behind a stop. After want of memory bytes may have been read, and they are lost.
pub fn read_events<S: Source>(
    alloc: Global,
    source: &mut S,
) -> Result<(Vec<Event>, Option<Stop>), AllocError>
    // Whatever comes of the source behind what was read, it says these events and this stop.
    ensures reads { IfOk result (λ r.
        ReadsSchedule (S.left source.old) (S.left source.new) (S.faults source.old) (S.faults source.new) (said_by r.0.items r.1)) }
    // So they are what all of it says, where no read failed and it tells what it had; and else what it gave before.
    ensures said { IfOk result (λ r. AreSaid (S.left source.old) (S.left source.new) (said_by r.0.items r.1)) }
    ensures actors { IfOk result (λ r. All HasActor r.0.items) }

    ensures lost { OnErr result (GaveSome (S.left source.old) (S.left source.new)) }
    ensures lost_no_fault { OnErr result (S.faults source.new ≡ S.faults source.old) }
{
    events_have_actors();
    let mut reader = EventReader::new(alloc)?;
    let mut buffer = read_buffer(alloc)?;
    let stop = read_through(&mut reader, buffer.as_mut_slice(), source)?;
    Ok((reader.into_events(), stop))
}

// Room for what one read gives.
fn read_buffer(alloc: Global) -> Result<Vec<u8>, AllocError>
    ensures { IfOk result (λ buffer. 0 < length buffer.items) }
{
    vec![in alloc; 0; READ_BYTES]
}

// Reads a source through a buffer to its end or to the first stop.
fn read_through<S: Source>(
    reader: &mut EventReader,
    buffer: &mut [u8],
    source: &mut S,
) -> Result<Option<Stop>, AllocError>
    requires fresh { reader.old ≡ first_state }
    requires reading { IsReading reader.old }
    requires room { 0 < length buffer.old }
    ensures reads { IfOk result (λ stop.
        ReadsSchedule (S.left source.old) (S.left source.new) (S.faults source.old) (S.faults source.new) (said_by reader.new.events stop)) }
    ensures lost { OnErr result (GaveSome (S.left source.old) (S.left source.new)) }
    ensures lost_no_fault { OnErr result (S.faults source.new ≡ S.faults source.old) }
{
    'reads: loop {
        match source.read(buffer) {
            Ok(0) => return reader.end(),
            Ok(count) => {
                if let Some(stop) = reader.feed(&buffer[..count])? {
                    return Ok(Some(stop));
                }
            }
            Err(Failed) => return Ok(Some(reader.fail())),
        }
    }
}
