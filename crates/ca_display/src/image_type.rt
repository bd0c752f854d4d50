//! The types of all images of a record with display data, by their numbers.
ghost use Rattle.std.specs.Prelude.{◌≡◌, ◌<◌, MatchOption};
ghost use Rattle.ca_display.specs.Types.{base_in, image_number};

use crate::display_type::DisplayType;
use ca_dbr::{BaseType, DataType};

/// A type as a message names it.
#[derive(Clone, Copy, Debug, PartialEq, Eq)]
pub enum ImageType {
    /// One without display data, 0 to 20.
    Data(DataType),
    /// One with display data, 21 to 34.
    Display(DisplayType),
}

impl ImageType {
    /// The type of this number, if there is one.
    pub fn of(number: u16) -> Option<ImageType>
        ensures { MatchOption result (34 < number) (λ t. image_number t ≡ number) }
    {
        if let Some(display_type) = DisplayType::of(number) {
            return Some(ImageType::Display(display_type));
        }
        match DataType::of(number) {
            None => None,
            Some(data_type) => Some(ImageType::Data(data_type)),
        }
    }

    /// The type of its elements.
    pub fn base(self) -> BaseType
        ensures { result ≡ base_in self }
    {
        match self {
            ImageType::Data(data_type) => data_type.base,
            ImageType::Display(display_type) => display_type.base,
        }
    }
}
