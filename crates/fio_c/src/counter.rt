//! The millisecond counter in memory of the caller, and times in 32 bits.
ghost use Rattle.std.specs.Prelude.{◌≡◌, List, [], ◌∷◌};
ghost use Rattle.fio_input.specs.Counter.{CounterEvent, Tick, AskLoad, LineSync, IsCounterAfter, counter as counter_after, counter_at_start};
ghost use Rattle.fio_input.specs.Widening.{wide_time_of};

use fio_input::{Counter, widen};

/// Starts a counter at 0 (own profile), with no load asked for. Each octet of the struct is set.
#[unsafe(no_mangle)]
pub extern "C" fn fio2070_counter_start(counter: &mut Counter)
    ensures made { IsCounterAfter counter.new [] }
    ensures octets { counter.new ≡ counter_at_start }
{
    *counter = Counter::new();
}

/// Steps the counter by one, as each scan does before it samples the inputs (own profile).
#[unsafe(no_mangle)]
pub extern "C" fn fio2070_counter_tick(counter: &mut Counter)
    ensures { (history : List CounterEvent) → IsCounterAfter counter.old history
        → IsCounterAfter counter.new (Tick ∷ history) }
{
    counter.tick();
}

/// Asks for a load of this number at the next line sync (TEES 2009), instead of one that was asked
/// for before (own profile).
#[unsafe(no_mangle)]
pub extern "C" fn fio2070_counter_ask_load(counter: &mut Counter, number: u32)
    ensures { (history : List CounterEvent) → IsCounterAfter counter.old history
        → IsCounterAfter counter.new (AskLoad number ∷ history) }
{
    counter.ask_load(number);
}

/// LINESYNC goes from 0 to 1: a load that was asked for happens now (TEES 2009).
#[unsafe(no_mangle)]
pub extern "C" fn fio2070_counter_line_sync(counter: &mut Counter)
    ensures { (history : List CounterEvent) → IsCounterAfter counter.old history
        → IsCounterAfter counter.new (LineSync ∷ history) }
{
    counter.line_sync();
}

/// Returns the milliseconds counted, modulo 2^32.
#[unsafe(no_mangle)]
pub extern "C" fn fio2070_counter_now(counter: &Counter) -> u32
    ensures { (history : List CounterEvent) → IsCounterAfter counter.now history
        → result ≡ counter_after history }
{
    counter.now()
}

/// Returns the time in milliseconds of an entry with these low 16 bits, in an answer with this stamp: the
/// one number at or before the stamp, less than 65,536 steps back modulo 2^32, with these low bits.
#[unsafe(no_mangle)]
pub extern "C" fn fio2070_widen(answer_stamp: u32, low: u16) -> u32
    ensures { result ≡ wide_time_of answer_stamp low }
{
    widen(answer_stamp, low)
}
