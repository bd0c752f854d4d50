//! The types of images with display data, by their numbers.
ghost use Rattle.std.specs.Prelude.{◌≡◌, ◌<◌, ◌⊎◌, MatchOption};
ghost use Rattle.ca_display.specs.declared.display_type.DisplayType.{DisplayType};
ghost use Rattle.ca_display.specs.Types.{display_number, limit_count};

use ca_dbr::BaseType;

/// Which limits are in an image.
#[derive(Clone, Copy, Debug, PartialEq, Eq)]
pub enum DisplayForm {
    /// Those of the display and of the alarms.
    Graphic,
    /// Those of control too.
    Control,
}

/// A type with display data as a message names it.
#[derive(Clone, Copy, Debug, PartialEq, Eq)]
pub struct DisplayType {
    pub base: BaseType,
    pub form: DisplayForm,
}

impl DisplayType {
    /// The number in a message's field: 21 to 27 graphic, 28 to 34 control.
    pub fn number(self) -> u16
        ensures { result ≡ display_number self }
    {
        let offset = match self.form {
            DisplayForm::Graphic => 21,
            DisplayForm::Control => 28,
        };
        self.base.number() + offset
    }

    /// The type of this number, if there is one.
    pub fn of(number: u16) -> Option<DisplayType>
        ensures { MatchOption result ((number < 21) ⊎ (34 < number))
            (λ t. display_number t ≡ number) }
    {
        let (form, base) = match number {
            21..=27 => (DisplayForm::Graphic, number - 21),
            28..=34 => (DisplayForm::Control, number - 28),
            _ => return None,
        };
        let base = BaseType::of(base)?;
        Some(DisplayType { base, form })
    }

    /// How many limits its images have, unless it is STRING or ENUM.
    pub(crate) fn limit_count(self) -> usize
        ensures { result ≡ limit_count self.form }
    {
        match self.form {
            DisplayForm::Graphic => 6,
            DisplayForm::Control => 8,
        }
    }
}
