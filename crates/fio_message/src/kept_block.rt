//! The octets of a block answer that are kept, so that they can be sent again.
ghost use Rattle.std.specs.Prelude.{◌≡◌, ◌≤◌, ◌+◌, ◌++◌, [], length, take, Some, None};
ghost use Rattle.fio_message.specs.Blocks.{Block, SpellsBlock};
ghost use Rattle.fio_message.specs.KeptBlock.{kept_octets, no_block, block_octets, block_sent_again, marked_octets};

use crate::fields::EntryOctets;
use crate::frames::Frame;
use crate::layouts::{before_entries, status_and_stamp};
use crate::limits::{BLOCK_ENTRIES, FRAME_OCTETS};
use crate::status::BlockStatus;

/// The octets of one block answer, or of none. It allocates nothing, so C can hold one.
#[derive(Debug, Drop)]
#[repr(C)]
pub struct KeptBlock {
    octets: [u8; FRAME_OCTETS],
    /// Padding: `length` is aligned.
    reserved: u8,
    length: u16,
}

impl KeptBlock {
    /// Returns a value that keeps no block.
    pub fn new() -> KeptBlock
        ensures none { kept_octets result ≡ [] }
        ensures cleared { result ≡ no_block }
    {
        KeptBlock {
            octets: [0; FRAME_OCTETS],
            reserved: 0,
            length: 0,
        }
    }

    /// Returns its octets, none if there is no block.
    pub fn as_slice(&self) -> &[u8]
        ensures { result.now ≡ kept_octets self.now }
    {
        let length = usize::from(self.length).min(FRAME_OCTETS);
        &self.octets[..length]
    }

    /// Keeps a block in place of the one kept before. Its entries are those of the first part and then of the second, at
    /// most `most`.
    pub fn write(
        &mut self,
        number: u8,
        first: &[EntryOctets],
        second: &[EntryOctets],
        most: u8,
        status: BlockStatus,
        stamp: u32,
    )
        ensures { kept_octets self.new
            ≡ block_octets number (take most (first.now ++ second.now)) status stamp }
    {
        let (first, second) = front(first, second, most);
        self.write_parts(number, first, second, status, stamp);
    }

    fn write_parts(
        &mut self,
        number: u8,
        first: &[EntryOctets],
        second: &[EntryOctets],
        status: BlockStatus,
        stamp: u32,
    )
        requires { length first.now + length second.now ≤ BLOCK_ENTRIES }
        ensures { kept_octets self.new
            ≡ block_octets number (first.now ++ second.now) status stamp }
    {
        let count = (first.len() + second.len()) as u8;
        self.length = 0;
        self.append(&before_entries(number, count));
        self.append(first.as_flattened());
        self.append(second.as_flattened());
        self.append(&status_and_stamp(status.octet(), stamp));
    }

    /// Appends octets, for which there is room.
    fn append(&mut self, octets: &[u8])
        requires { self.old.length + length octets.now ≤ FRAME_OCTETS }
        ensures length { self.new.length ≡ self.old.length + length octets.now }
        ensures octets { kept_octets self.new ≡ kept_octets self.old ++ octets.now }
    {
        let from = usize::from(self.length);
        let to = from + octets.len();
        self.octets[from..to].copy_from_slice(octets);
        self.length = to as u16;
    }

    /// Returns the number of the block, or `None` if there is no block.
    pub fn number(&self) -> Option<u8>
        ensures block { (block : Block)
            → SpellsBlock block (kept_octets self.now) → result ≡ Some block.number }
        ensures none { kept_octets self.now ≡ [] → result ≡ None }
    {
        self.as_slice().get(1).copied()
    }

    /// Marks the block as sent again: E is set, G is clear, and all else is as it was. If there is no block, nothing
    /// changes.
    pub fn mark_again(&mut self)
        ensures block { (block : Block)
            → SpellsBlock block (kept_octets self.old)
            → SpellsBlock (block_sent_again block) (kept_octets self.new) }
        ensures none { kept_octets self.old ≡ [] → kept_octets self.new ≡ [] }
    {
        let length = usize::from(self.length).min(FRAME_OCTETS);
        let (kept, _) = self.octets.split_at_mut(length);
        mark_again(kept);
    }

    /// Writes the octets over what the frame holds.
    pub fn copy_to(&self, frame: &mut Frame)
        ensures { frame.new.items ≡ kept_octets self.now }
    {
        let octets = self.as_slice();
        frame.truncate(octets.len());
        // The octets that the frame already has are overwritten in place, since `clear` would write zeros first.
        let (over, after) = octets.split_at(frame.len());
        frame.as_mut_slice().copy_from_slice(over);
        // There is room, so this never fails.
        let _ = frame.try_extend_from_slice(after);
    }
}

impl Default for KeptBlock {
    ghost is_default = { λ kept. kept_octets kept ≡ [] };

    fn default() -> Self {
        Self::new()
    }
}

/// Returns the first entries, at most `most`, in two parts.
fn front<'a>(
    first: &'a [EntryOctets],
    second: &'a [EntryOctets],
    most: u8,
) -> (&'a [EntryOctets], &'a [EntryOctets])
    ensures value { result.0.now ++ result.1.now ≡ take most (first.now ++ second.now) }
    ensures few { length result.0.now + length result.1.now ≤ most }
{
    let most = usize::from(most);
    let from_first = first.len().min(most);
    let from_second = second.len().min(most - from_first);
    (&first[..from_first], &second[..from_second])
}

/// Marks the octets of a block as sent again.
fn mark_again(octets: &mut [u8])
    ensures { octets.new ≡ marked_octets octets.old }
{
    let count = octets.get(2).copied().unwrap_or(0);
    let place = 3 + 3 * usize::from(count);
    if place < octets.len() {
        let status = BlockStatus::from_octet(octets[place]);
        octets[place] = status.sent_again().octet();
    }
}
