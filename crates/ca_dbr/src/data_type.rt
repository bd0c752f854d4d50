//! The DBR type numbers 0 to 20: a base type, and whether status or time stamp come before the
//! elements. Also the sizes of elements, metadata and padding.
ghost use Rattle.std.specs.Prelude.{◌≡◌, ◌<◌, MatchOption};
ghost use Rattle.ca_dbr.specs.declared.data_type.BaseType.{BaseType};
ghost use Rattle.ca_dbr.specs.declared.data_type.DataType.{DataType};
ghost use Rattle.ca_dbr.specs.Types.{base_number, type_number, element_size, meta_size};
ghost use Rattle.ca_dbr.specs.Types.{padding_size};

/// The type of an element (section "Payload Data Types").
#[derive(Clone, Copy, Debug, PartialEq, Eq)]
pub enum BaseType {
    /// A text of up to 40 bytes.
    String,
    /// A signed number of 16 bits.
    Int,
    /// The bit pattern of a number of 32 bits.
    Float,
    /// The index of a choice, 16 bits.
    Enum,
    /// A byte.
    Char,
    /// A signed number of 32 bits.
    Long,
    /// The bit pattern of a number of 64 bits.
    Double,
}

/// What is before the elements in an image.
#[derive(Clone, Copy, Debug, PartialEq, Eq)]
pub enum Form {
    Plain,
    /// A status and a severity.
    Status,
    /// A status, a severity and a time stamp.
    Time,
}

/// A type as a message names it.
#[derive(Clone, Copy, Debug, PartialEq, Eq)]
pub struct DataType {
    pub base: BaseType,
    pub form: Form,
}

impl BaseType {
    /// The number of the plain type.
    pub fn number(self) -> u16
        ensures { result ≡ base_number self }
    {
        match self {
            BaseType::String => 0,
            BaseType::Int => 1,
            BaseType::Float => 2,
            BaseType::Enum => 3,
            BaseType::Char => 4,
            BaseType::Long => 5,
            BaseType::Double => 6,
        }
    }

    /// The plain type of this number, if there is one.
    pub fn of(number: u16) -> Option<BaseType>
        ensures { MatchOption result (6 < number) (λ b. base_number b ≡ number) }
    {
        match number {
            0 => Some(BaseType::String),
            1 => Some(BaseType::Int),
            2 => Some(BaseType::Float),
            3 => Some(BaseType::Enum),
            4 => Some(BaseType::Char),
            5 => Some(BaseType::Long),
            6 => Some(BaseType::Double),
            _ => None,
        }
    }

    /// How many bytes an element takes.
    pub fn element_size(self) -> usize
        ensures { result ≡ element_size self }
    {
        match self {
            BaseType::String => 40,
            BaseType::Int => 2,
            BaseType::Float => 4,
            BaseType::Enum => 2,
            BaseType::Char => 1,
            BaseType::Long => 4,
            BaseType::Double => 8,
        }
    }
}

impl DataType {
    /// The number in a message's field: 0 to 6 plain, 7 to 13 with status, 14 to
    /// 20 with a time stamp.
    pub fn number(self) -> u16
        ensures { result ≡ type_number self }
    {
        let offset = match self.form {
            Form::Plain => 0,
            Form::Status => 7,
            Form::Time => 14,
        };
        self.base.number() + offset
    }

    /// The type of this number, if there is one.
    pub fn of(number: u16) -> Option<DataType>
        ensures { MatchOption result (20 < number) (λ t. type_number t ≡ number) }
    {
        let (form, base) = match number {
            0..=6 => (Form::Plain, number),
            7..=13 => (Form::Status, number - 7),
            14..=20 => (Form::Time, number - 14),
            _ => return None,
        };
        let base = BaseType::of(base)?;
        Some(DataType { base, form })
    }

    /// How many bytes the metadata takes.
    pub fn meta_size(self) -> usize
        ensures { result ≡ meta_size self.form }
    {
        match self.form {
            Form::Plain => 0,
            Form::Status => 4,
            Form::Time => 12,
        }
    }

    /// How many bytes are between the metadata and the elements.
    pub fn padding_size(self) -> usize
        ensures { result ≡ padding_size self.form self.base }
    {
        match (self.form, self.base) {
            (Form::Status, BaseType::Char) => 1,
            (Form::Status, BaseType::Double) => 4,
            (Form::Time, BaseType::Int) => 2,
            (Form::Time, BaseType::Enum) => 2,
            (Form::Time, BaseType::Char) => 3,
            (Form::Time, BaseType::Double) => 4,
            _ => 0,
        }
    }
}
