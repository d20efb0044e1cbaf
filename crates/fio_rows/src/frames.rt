//! Streams of frames between flags.
ghost use Rattle.std.specs.Prelude.{◌≡◌, ◌≢◌, ◌<◌, ◌≤◌, ◌-◌, ◌==◌, [], drop, length, slice_index};
ghost use Rattle.fio_rows.specs.Frames.{DividesFrame, command_after_frame, flag_above, flag_after, flag_in, given_up_all, held_by_frame, is_right, next_by_frame, unframed, unframed_from_flag, with_flag};
ghost use Rattle.fio_rows.specs.Streams.{command_above};
ghost use Rattle.fio_rows.specs.declared.dividing.TheConstants.{KEPT};

use crate::dividing::{FULL, KEPT, Next};
use crate::stream::Stream;
use arrayvec::ArrayVec;
use fio_form::{Octets, framed_in, is_message};

/// What is before and after a frame.
const FLAG: u8 = 0x7e;

/// The most octets of a frame, with the flag that ended the one above.
const FRAME: usize = KEPT + 1;

/// Returns where the first flag is.
fn flag_in(octets: &[u8]) -> Option<usize>
    ensures { result ≡ flag_in octets.now }
{
    octets.iter().position(|octet| *octet == FLAG)
}

/// Returns whether a frame has a right check, and writes what it holds. If its octets do not begin with a flag, it begins with the
/// one that ended the frame above.
#[tactic(auto, unfolding(crate::specs::Frames::is_right, crate::specs::Frames::held_by_frame))]
fn read_frame(octets: &[u8], held: &mut Octets) -> bool
    requires { length octets.now ≤ KEPT }
    ensures right { result ≡ is_right (with_flag octets.now) }
    ensures held { held.new.items ≡ held_by_frame (with_flag octets.now) }
{
    if matches!(octets, [0x7e, ..]) {
        return framed_in(octets, held);
    }
    let mut frame: ArrayVec<u8, FRAME> = ArrayVec::new();
    let _fits = frame.try_push(FLAG);
    let _fits = frame.try_extend_from_slice(octets);
    framed_in(&frame, held)
}

impl Stream {
    /// Drops the first octets, and keeps whether the last one of them is a flag.
    fn drop_to_flag(&mut self, count: usize)
        requires some { 0 < count }
        requires within { count ≤ length self.old.octets.items }
        ensures octets { self.new.octets.items ≡ drop count self.old.octets.items }
        ensures flag { flag_above self.new ≡ (slice_index self.old.octets.items (count - 1) == FLAG) }
        ensures command { command_above self.new ≡ [] }
        ensures message { self.new.message ≡ self.old.message }
    {
        self.is_flagged = self.octets[count - 1] == FLAG;
        self.drop_first(count);
    }

    /// Drops all octets, if there are too many.
    fn give_up_all(&mut self) -> Next
        ensures exact { result ≡ given_up_all self.old.octets.items }
        ensures divided { DividesFrame result self.old.octets.items self.new.message.items self.new.octets.items }
        ensures flag { flag_above self.new ≡ flag_after result self.old.octets.items (flag_above self.old) }
        ensures command { command_above self.new ≡ command_after_frame result (command_above self.old) }
    {
        let every = self.octets.len();
        if every < FULL {
            return Next::Wait;
        }
        self.drop_to_flag(every);
        Next::Broken(every)
    }

    /// Divides off the next frame: what is between two flags, of which the first one may have ended the frame above.
    #[tactic(auto, using(crate::proofs::Divisions::frame_less), unfolding(crate::specs::Frames::unframed))]
    pub fn unframe(&mut self) -> Next
        ensures exact { result ≡ unframed (flag_above self.old) self.old.octets.items }
        ensures divided { DividesFrame result self.old.octets.items self.new.message.items self.new.octets.items }
        ensures flag { flag_above self.new ≡ flag_after result self.old.octets.items (flag_above self.old) }
        ensures command { command_above self.new ≡ command_after_frame result (command_above self.old) }
        ensures less { result ≢ Next.Wait → length self.new.octets.items < length self.old.octets.items }
    {
        match flag_in(&self.octets) {
            None => self.give_up_all(),
            Some(0) => self.unframe_from_flag(),
            Some(flag) if self.is_flagged => self.divide_frame(flag + 1),
            Some(flag) => {
                self.drop_to_flag(flag + 1);
                Next::Broken(flag + 1)
            }
        }
    }

    /// Divides off the frame that begins with the first octet, a flag.
    #[tactic(auto, unfolding(crate::specs::Frames::unframed_from_flag))]
    fn unframe_from_flag(&mut self) -> Next
        requires { 0 < length self.old.octets.items }
        ensures exact { result ≡ unframed_from_flag self.old.octets.items }
        ensures divided { DividesFrame result self.old.octets.items self.new.message.items self.new.octets.items }
        ensures flag { flag_above self.new ≡ flag_after result self.old.octets.items (flag_above self.old) }
        ensures command { command_above self.new ≡ command_after_frame result (command_above self.old) }
    {
        let (_, behind) = self.octets.split_at(1);
        match flag_in(behind) {
            None => self.give_up_all(),
            Some(0) => {
                self.drop_to_flag(1);
                Next::Idle(1)
            }
            Some(end) => self.divide_frame(end + 2),
        }
    }

    /// Divides off this many octets of a frame, the last of which is the flag that ends it.
    fn divide_frame(&mut self, count: usize) -> Next
        requires some { 0 < count }
        requires within { count ≤ length self.old.octets.items }
        ensures exact { result ≡ next_by_frame count self.old.octets.items }
        ensures divided { DividesFrame result self.old.octets.items self.new.message.items self.new.octets.items }
        ensures flag { flag_above self.new ≡ flag_after result self.old.octets.items (flag_above self.old) }
        ensures command { command_above self.new ≡ command_after_frame result (command_above self.old) }
    {
        let (frame, _) = self.octets.split_at(count);
        let is_right = read_frame(frame, &mut self.message);
        let is_message = is_right && is_message(&self.message);
        self.drop_to_flag(count);
        if is_message {
            Next::Message(count)
        } else if is_right {
            Next::Idle(count)
        } else {
            Next::Broken(count)
        }
    }
}
