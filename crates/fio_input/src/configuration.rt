//! The items of a configuration, in whatever form they are held.
ghost use Rattle.std.specs.Prelude.{◌≡◌, ◌<◌, List, length, get_or};
ghost use Rattle.fio_message.specs.declared.fields.InputItem.{InputItem as Item};

use fio_message::{InputItem, ItemsView};

/// The items of a configuration, in order.
pub trait Configuration {
    /// The items.
    ghost items: { Self → List Item };

    /// Returns the number of items.
    fn len(&self) -> usize
        ensures { result ≡ length (items self.now) };

    /// Returns the item at the index `place`.
    fn item(&self, place: usize) -> InputItem
        requires { place < length (items self.now) }
        ensures { result ≡ get_or (items self.now) place result };
}

impl Configuration for &[InputItem] {
    ghost items = { λ items. items.now };

    fn len(&self) -> usize {
        (*self).len()
    }

    fn item(&self, place: usize) -> InputItem {
        self[place]
    }
}

impl Configuration for ItemsView<'_> {
    ghost use Rattle.fio_message.specs.Views.{items_of};

    ghost items = { items_of };

    fn len(&self) -> usize {
        self.len()
    }

    fn item(&self, place: usize) -> InputItem {
        self.item(place)
    }
}
