//! The filters of the 64 inputs in memory of the caller.
ghost use Rattle.std.specs.Prelude.{◌≡◌, ◌<◌, ◌≤◌, ℕ, true, List, [], ◌∷◌, Some, None, length};
ghost use Rattle.fio_message.specs.declared.limits.TheConstants.{CONFIGURATION_ITEMS, INPUTS};
ghost use Rattle.std.specs.List.{list_all};
ghost use Rattle.fio_message.specs.Bits.{is_set};
ghost use Rattle.fio_input.specs.FilterHistory.{FilterEvent, Configure, Scan, is_reported, input_state, raw_levels};
ghost use Rattle.fio_input.specs.Filters.{AreFiltersAfter, filters_at_start};
ghost use Rattle.fio_c.specs.Flat.{can_be_named, read_items, first_absent, outcome};

use crate::command_frames::read_item;
use crate::commands::ConfigurationItem;
use fio_input::{Configuration, Filters};
use fio_message::{CONFIGURATION_ITEMS, INPUTS, InputItem};

/// Starts filters before any scan: each input is ignored, both its filters are 5, and its raw level
/// and filtered state are 1 (own profile). Each octet of the struct is set.
#[unsafe(no_mangle)]
pub extern "C" fn fio2070_filters_start(filters: &mut Filters)
    ensures made { AreFiltersAfter filters.new [] }
    ensures octets { filters.new ≡ filters_at_start }
{
    *filters = Filters::new();
}

/// Takes a sample of each input: bit i of `raw` is the level of input i. The result has a one for
/// each input that is not ignored and whose filtered state changed.
#[unsafe(no_mangle)]
pub extern "C" fn fio2070_filters_scan(filters: &mut Filters, raw: u64) -> u64
    ensures carried { (history : List FilterEvent) → AreFiltersAfter filters.old history
        → AreFiltersAfter filters.new (Scan raw ∷ history) }
    ensures reported { (history : List FilterEvent) → AreFiltersAfter filters.old history
        → (input : ℕ) → input < INPUTS → is_set result input ≡ is_reported input raw history }
{
    filters.scan(raw)
}

/// As `fio_input::Filters::filtered`.
#[unsafe(no_mangle)]
pub extern "C" fn fio2070_filters_filtered(filters: &Filters) -> u64
    ensures { (history : List FilterEvent) → AreFiltersAfter filters.now history
        → (input : ℕ) → input < INPUTS → is_set result input ≡ input_state input history }
{
    filters.filtered()
}

/// As `fio_input::Filters::raw`.
#[unsafe(no_mangle)]
pub extern "C" fn fio2070_filters_raw(filters: &Filters) -> u64
    ensures { (history : List FilterEvent) → AreFiltersAfter filters.now history
        → result ≡ raw_levels history }
{
    filters.raw()
}

/// The result of a configuration.
#[derive(Clone, Copy)]
#[repr(C)]
pub struct Configured {
    /// 0 applied; 1 an item names an input above 63; 2 more than 255 items.
    pub kind: u8,
    /// 0 in each octet that the library writes.
    pub reserved: [u8; 7],
    /// For kind 1 the index of the first item that names an input above 63, from 0.
    pub place: u64,
}

/// Applies the items in their order, or none if one names an input above 63 or there are more than
/// 255 (own profile). An applied item starts its input's samples anew from its present filtered
/// state. If none is applied, nothing changes.
#[unsafe(no_mangle)]
pub extern "C" fn fio2070_filters_configure(
    filters: &mut Filters,
    items: &[ConfigurationItem],
) -> Configured
    ensures applied { length items.now ≤ CONFIGURATION_ITEMS → first_absent items.now ≡ None
        → (result ≡ outcome 0 0)
        × ((history : List FilterEvent) → AreFiltersAfter filters.old history
        → AreFiltersAfter filters.new (Configure (read_items items.now) ∷ history)) }
    ensures absent { (place : ℕ) → length items.now ≤ CONFIGURATION_ITEMS → first_absent items.now ≡ Some place
        → (result ≡ outcome 1 place) × (filters.new ≡ filters.old) }
    ensures many { CONFIGURATION_ITEMS < length items.now
        → (result ≡ outcome 2 0) × (filters.new ≡ filters.old) }
{
    if items.len() > CONFIGURATION_ITEMS {
        return outcome(2, 0);
    }
    if let Some(place) = first_absent(items) {
        return outcome(1, place as u64);
    }
    let _applied = filters.configure_from(&CallersItems { items });
    outcome(0, 0)
}

/// Items of the caller, each of an input that a message can name.
#[derive(Drop)]
struct CallersItems<'a> {
    items: &'a [ConfigurationItem],
    ghost named: { list_all (λ item. can_be_named item.input) items.now ≡ true },
}

impl Configuration for CallersItems<'_> {
    ghost use Rattle.fio_c.specs.Flat.{read_items as items_read};

    ghost items = { λ it. items_read it.items.now };

    fn len(&self) -> usize {
        self.items.len()
    }

    fn item(&self, place: usize) -> InputItem {
        read_item(&self.items[place])
    }
}

/// Returns the result of a configuration, by its kind and index.
const fn outcome(kind: u8, place: u64) -> Configured
    ensures { result ≡ outcome kind place }
{
    Configured {
        kind,
        reserved: [0; 7],
        place,
    }
}

/// Returns the index of the first item that names an input above 63.
fn first_absent(items: &[ConfigurationItem]) -> Option<usize>
    ensures { result ≡ first_absent items.now }
{
    items
        .iter()
        .position(|item| usize::from(item.input) >= INPUTS)
}
