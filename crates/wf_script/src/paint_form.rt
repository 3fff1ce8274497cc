//! The forms of paints.

ghost use Rattle.std.specs.Prelude.{◌≡◌};
ghost use Rattle.wf_script.specs.PaintWords.{paint_count, paint_forms};
ghost use Rattle.wf_script.specs.Words.{look_up};

use crate::table::look_up;

/// The forms of paints, one for each word.
#[derive(Clone, Copy)]
pub(crate) enum PaintForm {
    Fill,
    Rectangle,
    Checker,
    Ramp,
    Row,
}

/// The paints.
const PAINTS: [(&[u8], PaintForm); 5] = [
    (b"fill", PaintForm::Fill),
    (b"box", PaintForm::Rectangle),
    (b"checker", PaintForm::Checker),
    (b"ramp", PaintForm::Ramp),
    (b"row", PaintForm::Row),
];

impl PaintForm {
    /// The form of a paint's word.
    pub(crate) fn of_word(word: &[u8]) -> Option<PaintForm>
        ensures { result ≡ look_up paint_forms word.now }
    {
        look_up(&PAINTS, word)
    }

    /// How many words stand behind the paint's word.
    pub(crate) fn count(self) -> usize
        ensures { result ≡ paint_count self }
    {
        match self {
            PaintForm::Fill => 4,
            PaintForm::Rectangle | PaintForm::Ramp => 8,
            PaintForm::Checker => 9,
            PaintForm::Row => 2,
        }
    }
}
