//! A module whose waiting entries are in slots of the caller.
ghost use Rattle.std.specs.Prelude.{◌≡◌, ◌<◌, ◌∷◌, length};
ghost use Rattle.fio_message.specs.Views.{command_of};
ghost use Rattle.fio_module.specs.Settings.{Settings};
ghost use Rattle.fio_module.specs.Life.{Commanded, History, Life, Scan};
ghost use Rattle.fio_module.specs.Replies.{answer_to};
ghost use Rattle.fio_module.specs.Rings.{ring_in};
ghost use Rattle.fio_module.specs.State.{IsAfter, IsAfterHistory};
ghost use Rattle.fio_flat.specs.Module.{with_errors};
ghost use Rattle.fio_flat.specs.Written.{WritesAnswer};

use crate::written::write_front;
use fio_flat::ErrorCounts;
use fio_message::{CommandView, EntryOctets};
use fio_module::{MemoryRing, ModuleState, RingPlace};

/// Takes a sample of each input.
pub(crate) fn scan(
    state: &mut ModuleState,
    place: &mut RingPlace,
    slots: &mut [EntryOctets],
    raw: u64,
)
    requires { length slots.old < 65536 }
    ensures { (settings : Settings) (history : History)
        → IsAfterHistory settings state.old (ring_in place.old slots.old) history
        → IsAfterHistory settings state.new (ring_in place.new slots.new) (Scan raw ∷ history) }
{
    state.scan(&mut MemoryRing::new(slots, place), raw);
}

/// Carries out a command, writes the octets of the answer, with these error counts, to the front of
/// `out`, and returns how many they are, or 0 if there is no answer.
pub(crate) fn answer(
    state: &mut ModuleState,
    place: &mut RingPlace,
    slots: &mut [EntryOctets],
    errors: &ErrorCounts,
    command: CommandView<'_>,
    out: &mut [u8],
) -> usize
    requires { length slots.old < 65536 }
    ensures carried { (settings : Settings) (life : Life)
        → IsAfter settings state.old (ring_in place.old slots.old) life
        → IsAfter settings state.new (ring_in place.new slots.new)
        (Commanded (command_of command.entry) ∷ life) }
    ensures answer { (settings : Settings) (life : Life)
        → IsAfter settings state.old (ring_in place.old slots.old) life
        → WritesAnswer (with_errors errors.now (answer_to settings life (command_of command.entry)))
        out.old out.new result }
{
    let mut ring = MemoryRing::new(slots, place);
    match command {
        CommandView::Poll { block } => {
            state.poll(&mut ring, block);
            write_front(state.block(), out)
        }
        other => obey(state, &mut ring, errors, other, out),
    }
}

/// Carries out any command, and writes the answer.
// Not inlined: a poll needs no room for a short answer.
#[inline(never)]
fn obey(
    state: &mut ModuleState,
    ring: &mut MemoryRing<'_>,
    errors: &ErrorCounts,
    command: CommandView<'_>,
    out: &mut [u8],
) -> usize
    ensures carried { (settings : Settings) (life : Life)
        → IsAfter settings state.old (ring_in ring.old.place.now ring.old.entries.now) life
        → IsAfter settings state.new (ring_in ring.new.place.now ring.new.entries.now)
        (Commanded (command_of command.entry) ∷ life) }
    ensures answer { (settings : Settings) (life : Life)
        → IsAfter settings state.old (ring_in ring.old.place.now ring.old.entries.now) life
        → WritesAnswer (with_errors errors.now (answer_to settings life (command_of command.entry)))
        out.old out.new result }
    ensures same_memory { ring.new.place.ghost_name ≡ ring.old.place.ghost_name
        × ring.new.entries.ghost_name ≡ ring.old.entries.ghost_name }
{
    match command {
        CommandView::Status { clear } => {
            let answer = state.clear_flags(clear, errors.receive, errors.transmit);
            write_front(answer.as_slice(), out)
        }
        other => {
            let reply = state.carry_out(ring, other);
            match state.octets_of(&reply) {
                Some(octets) => write_front(octets, out),
                None => 0,
            }
        }
    }
}
