//! Forms whose messages repeat those of others.
use crate::evidence::{are_sent_again, is_copy, is_echo};
use crate::known::Known;
use crate::sniffing::Forms;
use crate::weighing::Weighing;
use arrayvec::ArrayVec;
use fio_form::LineForm;
use fio_guess::Window;
use fio_guess::table::FORMS;

/// What the messages of a form are to those of others.
#[derive(Clone, Copy, PartialEq, Eq)]
enum Relation {
    /// Messages of their own.
    Own,
    /// Those above them again.
    Echo,
    /// Those around them again, and not most often those above.
    Copy,
}

/// Returns forms in the same order, those that repeat others last, and without other copies.
fn ordered(forms: &[LineForm], kinds: &[Relation; FORMS]) -> Forms {
    let mut all: Forms = ArrayVec::new();
    for kind in [Relation::Own, Relation::Echo] {
        for (at, form) in forms.iter().enumerate() {
            if at < FORMS && kinds[at] == kind {
                let mut form = form.copied();
                form.is_echo = kind == Relation::Echo;
                let _ = all.try_push(form);
            }
        }
    }
    all
}

/// Returns what the messages of a form are to those of the other forms that have messages of their own.
fn kind_of(
    weighing: &mut Weighing,
    known: &mut Known,
    lines: &Window,
    forms: &[LineForm],
    kinds: &[Relation; FORMS],
    at: usize,
) -> Relation {
    let Some(own) = forms.get(at) else {
        return Relation::Own;
    };
    known.clear();
    for (other, form) in forms.iter().enumerate() {
        if other != at && other < FORMS && kinds[other] == Relation::Own {
            weighing.take(form, lines, known);
        }
    }
    let evidence = weighing.weigh(own, lines, known);
    if are_sent_again(&evidence, weighing.others(known)) {
        Relation::Own
    } else if is_echo(&evidence) {
        Relation::Echo
    } else if is_copy(&evidence) {
        Relation::Copy
    } else {
        Relation::Own
    }
}

/// Returns forms with those that repeat others last, and without other copies. Of two that are the same the one that was found
/// first is kept.
pub(crate) fn echoes_last(
    weighing: &mut Weighing,
    known: &mut Known,
    lines: &Window,
    found: &Forms,
) -> Forms {
    let mut kinds = [Relation::Own; FORMS];
    let forms = ordered(found, &kinds);
    for step in 0..FORMS {
        let at = FORMS - 1 - step;
        kinds[at] = kind_of(weighing, known, lines, &forms, &kinds, at);
    }
    ordered(&forms, &kinds)
}
