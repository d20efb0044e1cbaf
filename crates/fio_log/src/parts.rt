//! The parts of a time, and their sum in microseconds.
ghost use Rattle.std.specs.Prelude.{◌≡◌, ◌≤◌, ◌<◌, true};
ghost use Rattle.fio_log.specs.Clock.{can_be, days_from_march, days_of, kind_of_day, microseconds_in, no_parts, with_part};

/// The days from 1 March of the year 0 to 1970.
const DAYS_TO_1970: u64 = 719_468;

/// What a time counts from.
#[derive(Clone, Copy, Debug, PartialEq, Eq)]
pub enum TimeKind {
    /// From 1970: it has a date.
    Date,
    /// From midnight: it is a time of day without a date.
    Day,
    /// From a start that the log does not name: it is seconds alone.
    Start,
}

/// The parts of a time. A day of 0 says that it has no date.
#[derive(Clone, Copy)]
pub(crate) struct TimeParts {
    pub kind: TimeKind,
    pub year: u64,
    pub month: u64,
    pub day: u64,
    pub hour: u64,
    pub minute: u64,
    pub second: u64,
    pub microseconds: u64,
}

impl TimeParts {
    /// Returns what a time has of which nothing is read.
    pub(crate) fn new() -> TimeParts
        ensures { result ≡ no_parts }
    {
        TimeParts {
            kind: TimeKind::Day,
            year: 1970,
            month: 0,
            day: 0,
            hour: 0,
            minute: 0,
            second: 0,
            microseconds: 0,
        }
    }

    /// Returns the parts with the number of a sign of a form.
    pub(crate) fn with(self, sign: u8, value: u64) -> TimeParts
        ensures { result ≡ with_part self sign value }
    {
        let mut parts = self;
        match sign {
            b'Y' => parts.year = value,
            b'M' => parts.month = value,
            b'D' => {
                parts.day = value;
                parts.kind = kind_of_day(value);
            }
            b'h' => parts.hour = value,
            b'm' => parts.minute = value,
            b'E' => {
                parts.second = value;
                parts.kind = TimeKind::Date;
            }
            b'F' => {
                parts.second = value;
                parts.kind = TimeKind::Start;
            }
            _ => parts.second = value,
        }
        parts
    }

    /// Returns whether these can be the parts of a time.
    pub(crate) fn can_be(self) -> bool
        ensures { result ≡ can_be self }
    {
        self.hour < 24
            && self.minute < 60
            && self.month < 13
            && self.year < 10_000
            && self.day < 100
            && self.second < 10_000_000_000
            && self.microseconds < 10_000_000_000
    }

    /// Returns the days since 1970, 0 without a date. Here a year begins in March.
    fn days(self) -> u64
        requires { can_be self ≡ true }
        ensures days { result ≡ days_of self }
        ensures few { result ≤ 4000000 }
    {
        if self.day == 0 {
            0
        } else if self.month < 3 {
            days_from_march(self.year.saturating_sub(1), self.month + 9, self.day)
        } else {
            days_from_march(self.year, self.month - 3, self.day)
        }
    }

    /// Returns the microseconds since what the time counts from.
    #[tactic(auto, unfolding(crate::specs::Clock::microseconds_in))]
    pub(crate) fn total(self) -> u64
        requires { can_be self ≡ true }
        ensures { result ≡ microseconds_in self }
    {
        let hours = self.days() * 24 + self.hour;
        let minutes = hours * 60 + self.minute;
        (minutes * 60 + self.second) * 1_000_000 + self.microseconds
    }
}

/// Returns what a time counts from that has a day of a month.
fn kind_of_day(day: u64) -> TimeKind
    ensures { result ≡ kind_of_day day }
{
    if day == 0 {
        TimeKind::Day
    } else {
        TimeKind::Date
    }
}

/// Returns the days since 1970 of a day of a year that begins in March.
fn days_from_march(year: u64, month: u64, day: u64) -> u64
    requires year { year < 10000 }
    requires month { month < 12 }
    requires day { day < 100 }
    ensures days { result ≡ days_from_march year month day }
    ensures few { result ≤ 4000000 }
{
    let leaps = (year / 4).saturating_sub(year / 100) + year / 400;
    let days = year * 365 + leaps + (month * 153 + 2) / 5 + day;
    days.saturating_sub(1).saturating_sub(DAYS_TO_1970)
}
