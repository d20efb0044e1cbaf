//! The rules on content, by what is above an event and what the event says.
ghost use Rattle.std.specs.Prelude.{◌≡◌};
ghost use Rattle.fio_check.specs.ContentRules.{content_rule_name, content_rule_number, content_rule_of_number};

/// What an entry of the record, the states of a 181 or an answer may break (own profile). These rules judge a transcript
/// that keeps the rules of `Rule`. A clear block is a block answer with neither C nor E. It settles each input; below it, a
/// block with E and without C settles each input for which no item was sent since the first poll for that block. An input is
/// watched from an entry on if a clear block is above that entry, and of what was sent since the latest block that settles
/// it nothing opens the input below what ignores it; it is steady if nothing ignores it; a gap mark ends both. Below a clear
/// block a block is late if its stamp is 65,536 or more after that of the latest block without C: its entries may be older
/// than their 16 bits say. The rules on time are `order`, `fresh`, `apart`, `state` and `clock`. A load of the counter that
/// is sent excuses one breach of them, somewhere below: it may have taken effect before. Then all that is known of times is
/// forgotten, until the end of a clear block that is heard below; 255 excuses are never used up. Each rule says what a right
/// link does, when it is judged, and what a breach means, with the input I and its state S; and its source, as those of `Rule`:
/// which block is clear is read of C and E. `tools/generate-constants` makes the words of pages and tools of these.
#[derive(Clone, Copy, Debug, PartialEq, Eq, PartialOrd, Ord, Hash)]
pub enum ContentRule {
    /// An entry is later than the entry above it, or has its time and a higher input, if no block without C ends between them.
    ///
    /// Judged if a clear block is above the upper entry, the blocks of both are not late, and no load of the counter
    /// excuses it.
    ///
    /// Breach: input I has an entry that is not later than the one above it, but a module logs changes in order of time, then
    /// of input: two entries are swapped, one is doubled, a time is wrong, or the module restarted
    ///
    /// Source: behaviour TEES 2009, layout own profile.
    Order,
    /// An entry is later than the stamp of the latest block without C, which had all entries up to that stamp.
    ///
    /// Judged if that block or one above it is clear, the block of the entry is not late, and no load of the counter
    /// excuses it.
    ///
    /// Breach: input I changed before the block above was made, and that block had all changes until then: this entry is
    /// doubled or late, or its time is wrong
    ///
    /// Source: behaviour TEES 2009, layout own profile.
    Fresh,
    /// The entries of an input have the states 0 and 1 in turn.
    ///
    /// Judged if the input is watched from the earlier entry on.
    ///
    /// Breach: input I went to S twice in a row, and neither an overflow (F) nor a configuration that was sent can have
    /// hidden a change between: an entry was lost, or this entry is doubled or has the wrong state
    ///
    /// Source: behaviour TEES 2009, layout own profile.
    Alternate,
    /// An entry of an input follows the one before no sooner than the filter for its change lets it.
    ///
    /// Judged if a clear block is above the earlier entry, the blocks of both are not late, and no load of the counter
    /// excuses it. The filter is the least that can be in force: at first 1; an item that is sent can lower it; a block
    /// that settles the input sets it to its last item, if the answer to that says done.
    ///
    /// Breach: input I went to S sooner than the shortest filter that it can have allows: a time or a filter is wrong
    ///
    /// Source: behaviour TEES 2009 and own profile, layout own profile.
    Apart,
    /// An input that is ignored has no entry.
    ///
    /// Judged if above some block that settles the input its last item ignores it, and the answer to that says done, and
    /// no item that is sent below opens the input.
    ///
    /// Breach: input I has an entry, but it was ignored, and no configuration that was sent since says to report it: the
    /// module does not ignore the input, or the entry is of another input
    ///
    /// Source: behaviour TEES 2009, layout own profile.
    Ignored,
    /// An answer 181 has the states of the record at its stamp.
    ///
    /// Judged if a clear block is above the latest 181, neither a late block nor a gap mark is below it, and no load of the
    /// counter excuses it: at the first entry later than its stamp, or the end of the first block without C whose stamp
    /// is not before it, of each steady input. From there on the next entry of an input has another state, and an input with
    /// another state in the next 181 and no entry between is not logged, and has none: till an item of it is sent, if none
    /// was since the latest block that settles it.
    ///
    /// Breach: input I has another state in an answer 181 than by its entries, and neither an overflow (F) nor a configuration
    /// that was sent can have hidden a change between: an entry was lost or has the wrong state, or the answer is wrong
    ///
    /// Source: behaviour TEES 2009, layout own profile.
    State,
    /// The stamp of a 177, 180 or 181, or of a block without E, is not before the latest one above.
    ///
    /// Judged if no load of the counter excuses it.
    ///
    /// Breach: the counter of the module went back, and no load that was sent explains it: the module restarted, or a stamp
    /// is wrong
    ///
    /// Source: behaviour TEES 2009, layout own profile.
    Clock,
    /// An answer 178 has no S: a load of the counter is never refused.
    ///
    /// Breach: the module refused to load its counter, but it can load any number
    ///
    /// Source: behaviour own profile, layout own profile.
    Done,
    /// An answer 179 has no S, if its configuration names no input above 63.
    ///
    /// Breach: the module refused a configuration, but each input that it names exists
    ///
    /// Source: behaviour own profile, layout own profile.
    Accepted,
    /// An answer 177 has none of the flags that its command clears.
    ///
    /// Breach: the answer gives the flags that are left, and one that the command clears is still set: the module did not
    /// clear it
    ///
    /// Source: behaviour own profile, layout TEES 2009.
    Cleared,
    /// An answer 186 has Y, if another 186 is above.
    ///
    /// Breach: the module says that no watchdog was set before, but it has answered a command that sets one: it restarted,
    /// or forgot it
    ///
    /// Source: behaviour TEES 2009, layout own profile.
    Watchdog,
}

/// A rule on content that is broken.
#[derive(Clone, Copy, Debug, PartialEq, Eq, Hash)]
pub struct BrokenRule {
    /// The input of the entry that breaks the rule, or the input with another state; `None` for an answer.
    pub input: Option<u8>,
    /// The rule.
    pub rule: ContentRule,
}

impl ContentRule {
    /// Returns the name of the rule, in lower case.
    pub fn name(self) -> &'static str
        ensures { result.now ≡ content_rule_name self }
    {
        match self {
            ContentRule::Order => "order",
            ContentRule::Fresh => "fresh",
            ContentRule::Alternate => "alternate",
            ContentRule::Apart => "apart",
            ContentRule::Ignored => "ignored",
            ContentRule::State => "state",
            ContentRule::Clock => "clock",
            ContentRule::Done => "done",
            ContentRule::Accepted => "accepted",
            ContentRule::Cleared => "cleared",
            ContentRule::Watchdog => "watchdog",
        }
    }

    /// Returns the number of the rule in C and the bindings, from 1.
    pub fn number(self) -> u8
        ensures { result ≡ content_rule_number self }
    {
        match self {
            ContentRule::Order => 1,
            ContentRule::Fresh => 2,
            ContentRule::Alternate => 3,
            ContentRule::Apart => 4,
            ContentRule::Ignored => 5,
            ContentRule::State => 6,
            ContentRule::Clock => 7,
            ContentRule::Done => 8,
            ContentRule::Accepted => 9,
            ContentRule::Cleared => 10,
            ContentRule::Watchdog => 11,
        }
    }

    /// Returns the rule with this number, if there is one.
    pub fn of_number(number: u8) -> Option<ContentRule>
        ensures { result ≡ content_rule_of_number number }
    {
        match number {
            1 => Some(ContentRule::Order),
            2 => Some(ContentRule::Fresh),
            3 => Some(ContentRule::Alternate),
            4 => Some(ContentRule::Apart),
            5 => Some(ContentRule::Ignored),
            6 => Some(ContentRule::State),
            7 => Some(ContentRule::Clock),
            8 => Some(ContentRule::Done),
            9 => Some(ContentRule::Accepted),
            10 => Some(ContentRule::Cleared),
            11 => Some(ContentRule::Watchdog),
            _ => None,
        }
    }
}
