//! Display data of records: units, precision, limits and the names of states; their images in
//! payloads of graphic and control types, and what such a record's values convert to.
#![tactic(auto)]

mod alarm;
mod conversion;
mod decimal;
mod display_type;
mod exact;
mod held;
mod image;
mod image_type;
mod laws;
mod limits;
mod number;
mod numeric;
mod printed;
mod reading;
mod real;
mod renewing;
mod states;

pub use alarm::alarm_of;
pub use conversion::convert_display;
pub use display_type::{DisplayForm, DisplayType};
pub use held::Held;
pub use image::{display_size, write_display};
pub use image_type::ImageType;
pub use laws::one_display;
pub use number::{Number, float_of_text, number_of_text};
pub use reading::read_display;
