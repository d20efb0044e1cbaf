//! What the rules on content keep of each input, in plain memory that C code can hold too. A set of inputs is
//! a word.
ghost use Rattle.std.specs.Prelude.{◌≡◌, ◌==◌, ◌<◌, ◌∷◌, [], ℕ, ◌&&◌, true, false, not, IfSome, None, Some, nat_lt, option_map, if◌then◌else◌};
ghost use Rattle.fio_message.specs.Bits.{is_set};
ghost use Rattle.fio_message.specs.declared.limits.TheConstants.{INPUTS};
ghost use Rattle.fio_check.specs.ContentAbove.{lesser};
ghost use Rattle.fio_check.specs.ContentSaid.{item_for};
ghost use Rattle.fio_check.specs.ContentFacts.{forgetting_input, input_begun, input_ended, input_with_answer, input_with_earlier, no_input, turned_by, unnamed, unwatched, watched_now};
ghost use Rattle.fio_check.specs.ContentKnown.{input_coming};
ghost use Rattle.fio_check.specs.ContentKept.{input_kept};
ghost use Rattle.fio_check.specs.ContentRules.{filter_towards, is_shown_otherwise, steady_state};

use crate::input_sets::{has_input, with_input};
use fio_input::DEFAULT_FILTER;
use fio_message::{INPUTS, InputItem};

/// What the rules on content keep of each input.
#[derive(Clone, Copy, Debug)]
#[repr(C)]
pub struct ContentInputs {
    /// The command that awaits its answer has an item of the input.
    named: u64,
    /// An item of the input was sent.
    sent: u64,
    /// The last item that was sent ignores the input.
    ignoring: u64,
    /// That item was taken.
    taken: u64,
    /// That item was taken above a block that settles the input, and its filters are the lowest that can be in force.
    settled: u64,
    /// An item that ignores the input was sent since the latest block that settles it.
    hidden: u64,
    /// Below that item one was sent that opens the input.
    reopened: u64,
    /// An item of the input was sent since the latest block that settles it.
    touched: u64,
    /// The input's state is known to be that of the latest 181 that the record has come to.
    shown: u64,
    /// That state.
    shown_levels: u64,
    /// The input changed between two such 181 without an entry.
    unlogged: u64,
    /// The input is ignored for each entry below.
    shut: u64,
    /// The state of the input's latest entry.
    levels: u64,
    /// No change of the input since that entry can have been hidden and recorded again.
    watched: u64,
    /// An item that ignores the input was sent since the latest block above that entry that settles the input.
    shaded: u64,
    /// The time of that entry is known.
    timed: u64,
    /// The wide time of that entry.
    times: [u32; INPUTS],
    /// Both filters of the last item, as they take effect.
    leading: [u8; INPUTS],
    trailing: [u8; INPUTS],
    /// The lowest filters that can be in force, if the last item is not settled.
    least_leading: [u8; INPUTS],
    least_trailing: [u8; INPUTS],
}

impl ContentInputs {
    /// Returns what is kept if nothing is above.
    #[inline(always)]
    pub(crate) fn new() -> ContentInputs
        ensures { (input : ℕ) → input_kept result input ≡ no_input }
    {
        ContentInputs {
            named: 0,
            sent: 0,
            ignoring: 0,
            taken: 0,
            settled: 0,
            hidden: 0,
            reopened: 0,
            touched: 0,
            shown: 0,
            shown_levels: 0,
            unlogged: 0,
            shut: 0,
            levels: 0,
            watched: 0,
            shaded: 0,
            timed: 0,
            times: [0; INPUTS],
            leading: [1; INPUTS],
            trailing: [1; INPUTS],
            least_leading: [1; INPUTS],
            least_trailing: [1; INPUTS],
        }
    }

    /// Returns what is kept if both ends begin: each input is ignored, with the initial filters.
    #[inline(always)]
    pub(crate) fn begun() -> ContentInputs
        ensures { (input : ℕ) → input_kept result input
            ≡ (if nat_lt input INPUTS then input_begun else no_input) }
    {
        ContentInputs {
            named: 0,
            sent: u64::MAX,
            ignoring: u64::MAX,
            taken: u64::MAX,
            settled: u64::MAX,
            hidden: 0,
            reopened: 0,
            touched: 0,
            shown: 0,
            shown_levels: 0,
            unlogged: 0,
            shut: u64::MAX,
            levels: 0,
            watched: 0,
            shaded: 0,
            timed: 0,
            times: [0; INPUTS],
            leading: [DEFAULT_FILTER; INPUTS],
            trailing: [DEFAULT_FILTER; INPUTS],
            least_leading: [1; INPUTS],
            least_trailing: [1; INPUTS],
        }
    }

    // ---- Commands and answers

    /// Begins a command whose items are not known yet.
    pub(crate) fn begin_command(&mut self)
        ensures { (input : ℕ) → input_kept self.new input ≡ unnamed (input_kept self.old input) }
    {
        self.named = 0;
    }

    /// Adds the answer to the command, by whether a configuration was taken.
    pub(crate) fn add_answer(&mut self, accepted: bool)
        ensures { (input : ℕ) → input_kept self.new input ≡ input_with_answer accepted (input_kept self.old input) }
    {
        let named = self.named;
        self.named = 0;
        if accepted {
            self.taken = named | self.taken;
        }
    }

    /// Adds an item of the command, above those that are added, if none of these is of its input: the last one counts.
    pub(crate) fn add_item(&mut self, item: InputItem)
        ensures { (input : ℕ) → input_kept self.new input
            ≡ input_with_earlier (input_kept self.old input) (item_for input (item ∷ [])) }
    {
        let InputItem {
            input,
            ignore,
            leading,
            trailing,
        } = item;
        let place = usize::from(input.get());
        if place < INPUTS && !has_input(self.named, place) {
            let leading = leading.max(1);
            let trailing = trailing.max(1);
            self.add_filters(place, leading, trailing);
            self.set_item(place, ignore, leading, trailing);
            self.hide_or_open(place, ignore);
        }
    }

    /// Lowers the lowest filters of an input to these, if these are lower.
    fn add_filters(&mut self, place: usize, leading: u8, trailing: u8)
        requires { place < INPUTS }
        ensures kept { (input : ℕ) → input_kept self.new input ≡ (if input == place
            then record (input_kept self.old input) {
              least = lesser (input_kept self.old input).least (record { leading = leading; trailing = trailing });
            }
            else input_kept self.old input) }
        ensures unsettled { is_set self.new.settled place ≡ false }
    {
        let (least_leading, least_trailing) = self.least(place);
        self.settled = with_input(self.settled, place, false);
        self.least_leading[place] = least_leading.min(leading);
        self.least_trailing[place] = least_trailing.min(trailing);
    }

    /// Returns the lowest filters of an input that can be in force.
    fn least(&self, place: usize) -> (u8, u8)
        requires { place < INPUTS }
        ensures leading { result.0 ≡ (input_kept self.now place).least.leading }
        ensures trailing { result.1 ≡ (input_kept self.now place).least.trailing }
    {
        if has_input(self.settled, place) {
            (self.leading[place], self.trailing[place])
        } else {
            (self.least_leading[place], self.least_trailing[place])
        }
    }

    /// Sets the last item of an input, which is not settled.
    fn set_item(&mut self, place: usize, ignore: bool, leading: u8, trailing: u8)
        requires within { place < INPUTS }
        requires unsettled { is_set self.old.settled place ≡ false }
        ensures { (input : ℕ) → input_kept self.new input ≡ (if input == place
            then record (input_kept self.old input) {
              named = true;
              item = Some (record { ignore = ignore; filters = record { leading = leading; trailing = trailing } });
              taken = false;
              touched = true;
              shown = None;
              unlogged = false;
            }
            else input_kept self.old input) }
    {
        self.named = with_input(self.named, place, true);
        self.sent = with_input(self.sent, place, true);
        self.ignoring = with_input(self.ignoring, place, ignore);
        self.taken = with_input(self.taken, place, false);
        self.touched = with_input(self.touched, place, true);
        self.shown = with_input(self.shown, place, false);
        self.unlogged = with_input(self.unlogged, place, false);
        self.leading[place] = leading;
        self.trailing[place] = trailing;
    }

    /// Hides the changes of an input that is ignored, or opens it.
    fn hide_or_open(&mut self, place: usize, ignore: bool)
        requires { place < INPUTS }
        ensures { (input : ℕ) → input_kept self.new input ≡ (if input == place
            then turned_by ignore (input_kept self.old input)
            else input_kept self.old input) }
    {
        if ignore {
            self.hidden = with_input(self.hidden, place, true);
            self.shaded = with_input(self.shaded, place, true);
        } else {
            self.shut = with_input(self.shut, place, false);
            if has_input(self.hidden, place) {
                self.reopened = with_input(self.reopened, place, true);
            }
            if has_input(self.shaded, place) {
                self.watched = with_input(self.watched, place, false);
            }
        }
    }

    // ---- Entries and blocks

    /// Adds an entry, by whether a clear block is above, and whether its time is known.
    pub(crate) fn add_entry(
        &mut self,
        place: usize,
        level: bool,
        wide: u32,
        clear: bool,
        timely: bool,
    )
        requires { place < INPUTS }
        ensures { (input : ℕ) → input_kept self.new input ≡ (if input == place
            then record (input_kept self.old input) {
              watched = watched_now clear level (input_kept self.old input);
              timed = if timely then Some wide else None;
              shown = None;
            }
            else input_kept self.old input) }
    {
        let watched = clear && !has_input(self.reopened, place);
        let hidden = has_input(self.hidden, place);
        self.watched = with_input(self.watched, place, watched);
        self.shaded = with_input(self.shaded, place, hidden);
        self.levels = with_input(self.levels, place, level);
        self.timed = with_input(self.timed, place, timely);
        self.shown = with_input(self.shown, place, false);
        self.times[place] = wide;
    }

    /// Adds a gap mark: a change of any input can be missing.
    pub(crate) fn add_gap(&mut self)
        ensures { (input : ℕ) → input_kept self.new input ≡ unwatched (input_kept self.old input) }
    {
        self.watched = 0;
        self.shown = 0;
    }

    /// The record comes to the states of a 181.
    pub(crate) fn come_to(&mut self, levels: u64)
        ensures { (input stamp : ℕ) → input_kept self.new input
            ≡ input_coming input (Some (record { stamp = stamp; levels = levels })) (input_kept self.old input) }
    {
        let untouched = self.shown & !self.touched;
        self.unlogged = self.unlogged | (untouched & (self.shown_levels ^ levels));
        self.shown = !self.touched;
        self.shown_levels = levels;
    }

    /// Forgets all that rests on times.
    pub(crate) fn forget_times(&mut self)
        ensures { (input : ℕ) → input_kept self.new input ≡ forgetting_input true (input_kept self.old input) }
    {
        self.timed = 0;
        self.shown = 0;
        self.unlogged = 0;
    }

    /// Adds the end of a block that settles all inputs but these: each item of the others that was taken is in force.
    pub(crate) fn settle_but(&mut self, unsettled: u64)
        ensures { (input : ℕ) → input_kept self.new input
            ≡ input_ended (not (is_set unsettled input)) (input_kept self.old input) }
    {
        let settled = (self.taken & self.sent) & !unsettled;
        self.shut = (self.shut & !settled) | (self.ignoring & settled);
        self.settled = self.settled | settled;
        self.hidden = unsettled & self.hidden;
        self.reopened = unsettled & self.reopened;
        self.touched = unsettled & self.touched;
    }

    // ---- What the rules read

    /// Returns the inputs for which the command that awaits its answer has an item.
    pub(crate) fn named(&self) -> u64
        ensures { (input : ℕ) → is_set result input ≡ (input_kept self.now input).named }
    {
        self.named
    }

    /// Returns the state of the latest entry of an input, if it is watched.
    pub(crate) fn watched(&self, place: usize) -> Option<bool>
        ensures { result ≡ option_map (λ watched. watched.level) (input_kept self.now place).watched }
    {
        if has_input(self.watched, place) {
            Some(has_input(self.levels, place))
        } else {
            None
        }
    }

    /// Returns the state of the latest entry of an input, if it is watched and no item that ignores the input was sent since
    /// the latest block above that entry that settles it.
    pub(crate) fn steady(&self, place: usize) -> Option<bool>
        ensures { result ≡ steady_state (input_kept self.now place).watched }
    {
        if has_input(self.shaded, place) {
            None
        } else {
            self.watched(place)
        }
    }

    /// Returns the wide time of the latest entry of an input, if it is known.
    pub(crate) fn timed(&self, place: usize) -> Option<u32>
        ensures time { result ≡ (input_kept self.now place).timed }
        ensures within { IfSome result (λ _. place < INPUTS) }
    {
        if has_input(self.timed, place) {
            Some(self.times[place])
        } else {
            None
        }
    }

    /// Returns whether an input is ignored for each entry below.
    pub(crate) fn is_shut(&self, place: usize) -> bool
        ensures { result ≡ (input_kept self.now place).shut }
    {
        has_input(self.shut, place)
    }

    /// Returns whether an entry of this state contradicts what a 181 shows of an input.
    pub(crate) fn is_shown_otherwise(&self, place: usize, level: bool) -> bool
        ensures { result ≡ is_shown_otherwise level (input_kept self.now place) }
    {
        let shown = has_input(self.shown, place) && has_input(self.shown_levels, place) == level;
        shown || has_input(self.unlogged, place)
    }

    /// Returns whether an entry of this state contradicts what a 181 shows of an input, if the record comes to these states
    /// with the entry.
    pub(crate) fn is_shown_otherwise_by(&self, place: usize, level: bool, levels: u64) -> bool
        ensures { (stamp : ℕ) → result ≡ is_shown_otherwise level (input_coming place
            (Some (record { stamp = stamp; levels = levels })) (input_kept self.now place)) }
    {
        if place >= INPUTS {
            return self.is_shown_otherwise(place, level);
        }
        if has_input(self.unlogged, place) {
            return true;
        }
        if has_input(self.touched, place) {
            return false;
        }
        let now = has_input(levels, place);
        now == level || (has_input(self.shown, place) && has_input(self.shown_levels, place) != now)
    }

    /// Returns the lowest filter of an input that can be in force for a change to this state.
    pub(crate) fn filter_towards(&self, place: usize, level: bool) -> u8
        requires { place < INPUTS }
        ensures { result ≡ filter_towards level (input_kept self.now place).least }
    {
        let (leading, trailing) = self.least(place);
        if level { trailing } else { leading }
    }
}
