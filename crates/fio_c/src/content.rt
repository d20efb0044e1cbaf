//! The checker of the rules on content, in memory of the caller.
ghost use Rattle.std.specs.Prelude.{◌≡◌, true, false};
ghost use Rattle.fio_check.specs.ContentCheckers.{checking_at_start, checking_with, found_in_frame};
ghost use Rattle.fio_check.specs.ContentKept.{content_checking};
ghost use Rattle.fio_c.specs.Checkers.{flat_content_breach};

use fio_check::{ContentBreach, ContentChecker};

/// The value of `input` in a breach without an input.
const NO_INPUT: u8 = 255;

/// The first rule on content that a frame breaks.
#[derive(Clone, Copy)]
#[repr(C)]
pub struct FlatContentBreach {
    /// 0 for none, else the number of the rule: one of `FIO2070_CONTENT_ORDER` and those after it.
    pub rule: u8,
    /// The input of the entry that breaks the rule, or the input with another state; 255 for an answer.
    pub input: u8,
    /// How many items of the frame's block are recorded above the breach, a gap mark with them: for an answer none, at
    /// the end of a block all.
    pub items: u16,
}

/// A frame that breaks no rule on content.
const NO_BREACH: FlatContentBreach = FlatContentBreach {
    rule: 0,
    input: 0,
    items: 0,
};

/// Starts a checker of the rules on content above the first frame of a log whose ends may have begun long before. Answers
/// above the first frame that the CPU's end sent are skipped.
#[unsafe(no_mangle)]
pub extern "C" fn fio2070_content_start(content: &mut ContentChecker)
    ensures { content_checking content.new ≡ checking_at_start false }
{
    *content = ContentChecker::new();
}

/// Starts a checker of the rules on content for a log that begins with both ends. It knows how the module begins, so it finds
/// more.
#[unsafe(no_mangle)]
pub extern "C" fn fio2070_content_start_begun(content: &mut ContentChecker)
    ensures { content_checking content.new ≡ checking_at_start true }
{
    *content = ContentChecker::begun();
}

/// Takes a frame that the CPU's end sent, which breaks no rule on content.
#[unsafe(no_mangle)]
pub extern "C" fn fio2070_content_sent(content: &mut ContentChecker, octets: &[u8])
    ensures { content_checking content.new ≡ checking_with (content_checking content.old) true octets.now }
{
    content.sent(octets);
}

/// Takes a frame that the CPU's end heard: writes its first breach of a rule on content, each octet of it, and
/// returns the number of the rule, 0 if it breaks none. All of the frame is taken, below a breach too.
#[unsafe(no_mangle)]
pub extern "C" fn fio2070_content_heard(
    content: &mut ContentChecker,
    octets: &[u8],
    breach: &mut FlatContentBreach,
) -> u8
    ensures next { content_checking content.new ≡ checking_with (content_checking content.old) false octets.now }
    ensures breach { breach.new ≡ flat_content_breach (found_in_frame (content_checking content.old) false octets.now) }
    ensures rule { result ≡ breach.new.rule }
{
    *breach = breach_from(content.heard(octets));
    breach.rule
}

/// Returns a breach as C sees it.
fn breach_from(found: Option<ContentBreach>) -> FlatContentBreach
    ensures { result ≡ flat_content_breach found }
{
    match found {
        None => NO_BREACH,
        Some(breach) => FlatContentBreach {
            rule: breach.rule.number(),
            input: breach.input.unwrap_or(NO_INPUT),
            items: breach.items,
        },
    }
}
