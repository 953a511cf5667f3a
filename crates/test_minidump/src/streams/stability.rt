use crate::streams::files::read_in;
use minidump::{Endian, Error, ProcessState, StabilityReport, Steps, SystemMemoryState};
use std::alloc::Global;

// The report that a stream of these bytes holds.
fn read(alloc: Global, bytes: &[u8]) -> Result<StabilityReport, Error> {
    read_in(alloc, bytes, bytes, Endian::Little, &mut Steps::new())
}

// Streams, and the processes of their reports, each an id, or nothing: unknown fields, which are
// skipped; a process for each payload; a length of more bytes than it needs; and a negative number.
#[rattlefmt::skip]
const PROCESSES: &[(&[u8], &[Option<i64>])] = &[
    (&[], &[]),
    (&[0x18, 1], &[]),
    (&[0x1a, 2, 0xff, 0xff], &[]),
    (&[0x12, 2, 0x18, 5, 0x12, 0], &[Some(5), None]),
    (&[0x92, 0x80, 0, 0x80, 0], &[None]),
    (&[0x12, 0x0b, 0x18, 255, 255, 255, 255, 255, 255, 255, 255, 255, 1], &[Some(-1)]),
];

fn are_the_processes(states: &[ProcessState], ids: &[Option<i64>]) -> bool {
    let is_it = |(state, id): (&ProcessState, &Option<i64>)| {
        *state
            == ProcessState {
                process_id: *id,
                memory_state: None,
                file_system_state: None,
            }
    };
    states.len() == ids.len() && states.iter().zip(ids).all(is_it)
}

fn has_processes(alloc: Global, row: &(&[u8], &[Option<i64>])) -> Result<bool, Error> {
    let report = read(alloc, row.0)?;
    Ok(are_the_processes(&report.process_states, row.1) && report.system_memory_state.is_none())
}

// A message of no payload is there, and has nothing.
fn has_an_empty_system(alloc: Global) -> Result<bool, Error> {
    let report = read(alloc, &[0x3a, 0])?;
    let empty = SystemMemoryState {
        windows_memory: None,
    };
    Ok(report.process_states.is_empty() && report.system_memory_state == Some(empty))
}

#[test]
fn fields_are_read_by_the_wire_format(rt: HostRuntime) {
    for row in PROCESSES {
        assert!(rt; has_processes(rt.alloc(), row) == Ok(true), "{:?}", row.0);
    }
    assert!(rt; has_an_empty_system(rt.alloc()) == Ok(true));
}
