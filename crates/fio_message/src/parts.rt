//! The lists of messages, read in place: items of a configuration and entries of a block, which are
//! parts of three octets each.
ghost use Rattle.std.specs.Prelude.{◌≡◌, ◌<◌, ◌≤◌, ◌*◌, ◌==◌, length, get_or};
ghost use Rattle.fio_message.specs.Reading.{parts_in};

use crate::fields::{Entry, InputItem};
use crate::limits::{BLOCK_ENTRIES, CONFIGURATION_ITEMS};
use arrayvec::ArrayVec;
use std::alloc::AllocError;
use std::marker::{Model, PhantomData};

/// A part of a list in a message, of three octets.
pub trait Part: Copy + Default {
    ghost use Rattle.std.specs.Prelude.{◌≡◌, ◌≤◌, ℕ, List, length};

    ghost part_at: { List ℕ → Self };

    ghost part_octets: { Self → List ℕ };

    ghost IsPart: { Self → Type 0 };

    /// Returns the part in the first three octets.
    fn of_octets(octets: &[u8]) -> Self
        requires { 3 ≤ length octets.now }
        ensures { result ≡ part_at octets.now };

    /// Returns the octets of the part.
    fn to_octets(&self) -> [u8; 3]
        ensures spelled { result ≡ part_octets self.now }
        ensures within { IsPart self.now };
}

/// The parts of a list, at most `N`, in the octets of their message.
#[derive(Debug)]
pub struct PartsView<'a, T, const N: usize> {
    octets: &'a [u8],
    of: PhantomData<T>,
    // Three octets for each part.
    ghost fits: { length octets.now ≤ 3 * N },
}

/// The items of a configuration, at most 255, in the octets of the command.
pub type ItemsView<'a> = PartsView<'a, InputItem, CONFIGURATION_ITEMS>;

/// The entries of a block answer, at most 255, in the octets of the answer.
pub type EntriesView<'a> = PartsView<'a, Entry, BLOCK_ENTRIES>;

impl<T, const N: usize> Copy for PartsView<'_, T, N> {}

impl<T, const N: usize> Clone for PartsView<'_, T, N> {
    ghost use Rattle.std.specs.Prelude.{⊤};

    ghost is_clone = { λ view copy. copy ≡ view };

    ghost is_infallible = { λ _. ⊤ };

    fn clone(&self) -> Result<Self, AllocError> {
        Ok(*self)
    }
}

impl<'a, T: Part, const N: usize> PartsView<'a, T, N> {
    /// Returns the parts in octets that hold nothing but parts.
    pub(crate) fn of_octets(octets: &'a [u8]) -> PartsView<'a, T, N>
        requires { length octets.now ≤ 3 * N }
        ensures { result.octets.now ≡ octets.now }
    {
        PartsView {
            octets,
            of: PhantomData,
        }
    }

    /// Returns the number of parts, at most `N`.
    #[inline]
    pub fn len(&self) -> usize
        ensures value { result ≡ length (parts_in T.part_at self.now.octets.now) }
        ensures fits { result ≤ N }
    {
        self.octets.len() / 3
    }

    /// Returns whether there are no parts.
    pub fn is_empty(&self) -> bool
        ensures { result ≡ (length (parts_in T.part_at self.now.octets.now) == 0) }
    {
        self.len() == 0
    }

    /// Returns the parts in order, each read when it is asked for.
    pub fn iter(&self) -> Parts<'a, T>
        ensures value { result ≡ parts_in T.part_at self.now.octets.now }
        ensures fits { length (parts_in T.part_at self.now.octets.now) ≤ N }
    {
        Parts {
            octets: self.octets,
            of: PhantomData,
        }
    }

    /// Returns the part at the index `place`.
    #[inline]
    pub fn item(&self, place: usize) -> T
        requires { place < length (parts_in T.part_at self.now.octets.now) }
        ensures { result ≡ get_or (parts_in T.part_at self.now.octets.now) place result }
    {
        T::of_octets(&self.octets[3 * place..])
    }

    /// Returns a copy of the parts.
    pub fn to_array(&self) -> ArrayVec<T, N>
        ensures { result.items ≡ parts_in T.part_at self.now.octets.now }
    {
        let mut parts = ArrayVec::new();
        for part in self.iter() {
            parts.push(part);
        }
        parts
    }
}

/// The parts of a list that remain to be taken. Contracts describe it as the list of these.
#[derive(Debug, Drop)]
pub struct Parts<'a, T: Part> {
    octets: &'a [u8],
    of: PhantomData<T>,
}

/// The items of a configuration that remain to be taken.
pub type ConfigurationItems<'a> = Parts<'a, InputItem>;

/// The entries of a block answer that remain to be taken.
pub type BlockEntries<'a> = Parts<'a, Entry>;

impl<'a, T: Part> Model for Parts<'a, T> {
    ghost use Rattle.std.specs.Prelude.{List};
    ghost use Rattle.fio_message.specs.Reading.{parts_in};

    ghost Value = { List T };

    ghost view = { λ v. parts_in T.part_at v.octets.now };
}

impl<T: Part> Iterator for Parts<'_, T> {
    ghost use Rattle.std.specs.Prelude.{◌≡◌, length, Some, IfSome};
    ghost use Rattle.std.specs.Iterator.{YieldsFirst, item_count, at_most, UpTo};
    ghost use Rattle.std.specs.Iterator.SizeHint.{IsWithinCount};

    type Item = T;

    ghost next_gives = { YieldsFirst (λ rest. rest) };

    ghost remaining = { item_count (λ rest. rest) };

    fn next(&mut self) -> Option<T> {
        if self.octets.len() < 3 {
            return None;
        }
        let part = T::of_octets(self.octets);
        self.octets = &self.octets[3..];
        Some(part)
    }

    /// Returns the number of parts that remain, as both bounds.
    fn size_hint(&self) -> (usize, Option<usize>)
        ensures lower { IsWithinCount result.0 (at_most (length self.now)) }
        ensures upper { IfSome result.1 (UpTo (at_most (length self.now))) }
        ensures exact { result ≡ (length self.now, Some (length self.now)) }
    {
        let parts = self.octets.len() / 3;
        (parts, Some(parts))
    }
}
