//! The forms by which lines are read.
ghost use Rattle.std.specs.Prelude.{◌≡◌, ◌++◌, ◌∷◌, [], IsFalse, IsTrue, option_copied, slice_get};

use arrayvec::ArrayVec;
use fio_form::LineForm;
use fio_sniff::Forms;
use std::marker::Model;

/// The forms by which lines are read. Before there are any it is all zeros, as a reader of logs is that has read nothing: so that is
/// made in its place, without a second one on the stack.
#[derive(Drop)]
pub(crate) struct KnownForms {
    all: Option<Forms>,
}

impl Model for KnownForms {
    ghost use Rattle.std.specs.Prelude.{List};
    ghost use Rattle.fio_form.specs.declared.form.LineForm.{LineForm};
    ghost use Rattle.fio_log.specs.KnownForms.{listed};

    ghost Value = { List LineForm };

    ghost view = { λ forms. listed forms.all };
}

impl KnownForms {
    /// Returns no forms.
    pub(crate) fn new() -> KnownForms
        ensures { result ≡ [] }
    {
        KnownForms { all: None }
    }

    /// Forgets all forms.
    pub(crate) fn clear(&mut self)
        ensures { self.new ≡ [] }
    {
        self.all = None;
    }

    /// Returns the forms, in their order.
    pub(crate) fn list(&self) -> &[LineForm]
        ensures { result.now ≡ self.now }
    {
        match &self.all {
            Some(forms) => forms.as_slice(),
            None => &[],
        }
    }

    /// Returns a form, by its index.
    pub(crate) fn get(&self, at: usize) -> Option<&LineForm>
        ensures { option_copied result ≡ slice_get self.now at }
    {
        self.list().get(at)
    }

    /// Appends a form; returns whether there was room.
    pub(crate) fn push(&mut self, form: LineForm) -> bool
        ensures added { IsTrue result → self.new ≡ self.old ++ form ∷ [] }
        ensures full { IsFalse result → self.new ≡ self.old }
    {
        if self.all.is_none() {
            self.all = Some(ArrayVec::new());
        }
        match &mut self.all {
            Some(forms) => forms.try_push(form).is_ok(),
            None => false,
        }
    }

    /// Takes other forms in their place.
    pub(crate) fn set(&mut self, forms: Forms)
        ensures { self.new ≡ forms.items }
    {
        self.all = Some(forms);
    }
}
