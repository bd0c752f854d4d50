//! Values of channels: the seven base types, their images in payloads with and without metadata,
//! and the conversions between them.
#![tactic(auto)]

mod conversion;
mod data_type;
mod display;
mod element;
mod field;
mod image;
mod laws;
mod number;
mod numeric;
mod reading;
mod scalar;
mod shown;
mod value;

pub use conversion::{convert, convert_all, convert_to, has_conversion};
pub use data_type::{BaseType, DataType, Form};
pub use display::{Display, Limits, STATE_LIMIT};
pub use element::put_bytes;
pub use field::field_of;
pub use image::{image_size, put_zeros, write_value};
pub use laws::{one_number, one_reading, wanted_shown, why_not_shown};
pub use number::{leading_spaces, text_of};
pub use numeric::{Conversion, Target};
pub use reading::{read_value, read_value_into};
pub use shown::write_shown;
pub use value::{Meta, Outcome, Value};
