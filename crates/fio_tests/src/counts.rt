//! Large numbers. The most events of a script, and long texts, are tested by `tests/scripts.py`, `tests/shows.py` and
//! `tests/transcripts.py`.
use fio_text::{Hexadecimal, read_octets};
use fio_tool::{Line, Verdict, check_trace, read_trace};
use fio_world::{Event, World};
use std::alloc::{AllocError, Global};

/// More frames each way, and more events, than sixteen bits can count.
const FRAMES: usize = 131_073;

const EVENTS: usize = 200_003;

/// Delivers and answers `count` polls, delivers the last answer, and returns whether all is done.
fn poll(world: &mut World, count: usize) -> bool {
    for index in 1..=count {
        if world.step(&Event::Poll).is_err() || world.step(&Event::ToModule(index)).is_err() {
            return false;
        }
    }
    world.step(&Event::ToCpu(count)).is_ok()
}

/// Whether `count` frames are sent each way, and the last one is heard as block 0.
fn has_polled(world: &World, count: usize) -> bool {
    world.sent_to_module() == count
        && world.sent_to_cpu() == count
        && world.last_to_cpu() == count
        && world.poller().number() == 1
}

/// Whether `count` polls in a new world are all done.
fn polls_are_done(alloc: Global, count: usize) -> bool {
    match World::new(alloc, 2, 0) {
        Ok(mut world) => poll(&mut world, count) && has_polled(&world, count),
        Err(_) => false,
    }
}

#[test]
fn many_frames_each_way(rt: HostRuntime) {
    assert!(rt; polls_are_done(rt.alloc(), FRAMES));
}

/// `count` scans of ones. It has no contract, so that no proof of a test writes out what it makes.
fn scans(alloc: Global, count: usize) -> Result<Vec<Event>, AllocError> {
    let mut events = Vec::new(alloc);
    for _ in 0..count {
        events.push(Event::Scan(u64::MAX))?;
    }
    Ok(events)
}

/// Whether the counter is as expected after these events at once.
fn counts(alloc: Global, events: &[Event], expected: u32) -> bool {
    match World::run(alloc, 2, 0, events) {
        Ok(world) => world.module().counter() == expected,
        Err(_) => false,
    }
}

/// Whether `count` scans at once are counted.
fn scans_are_counted(alloc: Global, count: usize, expected: u32) -> bool {
    match scans(alloc, count) {
        Ok(events) => counts(alloc, events.as_slice(), expected),
        Err(_) => false,
    }
}

#[test]
fn many_events_at_once(rt: HostRuntime) {
    assert!(rt; scans_are_counted(rt.alloc(), EVENTS, 200_003));
}

/// `count` digits 3.
fn digits(alloc: Global, count: usize) -> Result<Vec<u8>, AllocError> {
    vec![in alloc; b'3'; count]
}

/// Whether there are `count` octets, each 0x33.
fn are_threes(octets: &[u8], count: usize) -> bool {
    for octet in octets {
        if *octet != 0x33 {
            return false;
        }
    }
    octets.len() == count
}

/// Whether a word of digits 3 spells half that number of octets 0x33.
fn spells_threes(alloc: Global, word: &[u8]) -> bool {
    match read_octets(alloc, word) {
        Ok(Some(octets)) => are_threes(octets.as_slice(), word.len() / 2),
        _ => false,
    }
}

/// Whether a word of `count` digits 3 does.
fn digits_are_read(alloc: Global, count: usize) -> bool {
    match digits(alloc, count) {
        Ok(word) => word.len() == count && spells_threes(alloc, word.as_slice()),
        Err(_) => false,
    }
}

#[test]
fn a_word_of_many_digits(rt: HostRuntime) {
    assert!(rt; digits_are_read(rt.alloc(), 65_536));
    assert!(rt; digits_are_read(rt.alloc(), 4_194_306));
}

/// The text of `count` frames that the CPU sent.
fn frames(alloc: Global, count: usize) -> Result<Vec<u8>, AllocError> {
    let mut text = Vec::new(alloc);
    for _ in 0..count {
        text.extend_from_slice(b"> 34\n")?;
    }
    Ok(text)
}

/// Whether lines are good. It has no contract, so that no proof of a test has to deal with verdicts.
fn is_good(lines: &[Line], count: usize) -> bool {
    matches!(check_trace(lines), Verdict::Good { frames } if frames == count)
}

/// Whether `count` frames are that many lines, and good.
fn are_counted(alloc: Global, count: usize) -> bool {
    let Ok(text) = frames(alloc, count) else {
        return false;
    };
    match read_trace(alloc, text.as_slice()) {
        Ok(lines) => lines.len() == count && is_good(lines.as_slice(), count),
        Err(_) => false,
    }
}

#[test]
fn many_lines(rt: HostRuntime) {
    assert!(rt; are_counted(rt.alloc(), 65_536) && are_counted(rt.alloc(), 300_001));
}

/// Whether `count` octets 0x33 are displayed as twice that number of digits 3.
fn has_threes(alloc: Global, count: usize) -> bool {
    let Ok(octets) = vec![in alloc; 0x33; count] else {
        return false;
    };
    let digits = Hexadecimal(octets.as_slice());
    match format!(in alloc; "{digits}") {
        Ok(digits) => digits.len() == 2 * count
            && digits.as_bytes().iter().all(|digit| *digit == b'3'),
        Err(_) => false,
    }
}

#[test]
fn many_octets_as_digits(rt: HostRuntime) {
    assert!(rt; has_threes(rt.alloc(), 100_003));
}
