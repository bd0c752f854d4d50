//! Display data of a record, and how it is made.
ghost use Rattle.std.specs.Prelude.{◌≡◌, ◌++◌, ◌∷◌, [], ◌<◌, ◌≤◌, ◌^◌, length, All, IfOk, IfErr};
ghost use Rattle.std.specs.Prelude.{OnErr};
ghost use Rattle.ca_text.specs.declared.refusal.Refusal.TheVariants.{NameLength};

use crate::field::fixed;
use ca_text::Refusal;
use std::alloc::Global;

/// The most states that a record has names for.
pub const STATE_LIMIT: usize = 16;

/// The limits of a record, each the bit pattern of a DOUBLE.
#[derive(Clone, Copy, Debug, PartialEq, Eq)]
pub struct Limits {
    pub upper_display: u64,
    pub lower_display: u64,
    pub upper_alarm: u64,
    pub upper_warning: u64,
    pub lower_warning: u64,
    pub lower_alarm: u64,
    pub upper_control: u64,
    pub lower_control: u64,
}

/// What an operator's screen asks of a record beside its value.
#[derive(Debug, Drop, PartialEq, Eq)]
pub struct Display {
    /// The text of the units, and zero bytes.
    pub units: [u8; 8],
    /// How many digits are shown after the point.
    pub precision: i16,
    pub limits: Limits,
    /// The names of an ENUM's states, from that of 0 on: each a text up to its first zero byte.
    pub states: Vec<[u8; 26]>,
    ghost few: { length states.items ≤ 16 },
}

impl Limits {
    ghost use Rattle.ca_dbr.specs.Data.{limits_of};

    /// All zero, as limits are read that an image does not carry: no value has an alarm by them.
    pub const ZERO: Limits = Limits {
        upper_display: 0,
        lower_display: 0,
        upper_alarm: 0,
        upper_warning: 0,
        lower_warning: 0,
        lower_alarm: 0,
        upper_control: 0,
        lower_control: 0,
    };

    /// All limits, in the order in which images have them.
    pub fn in_order(self) -> [u64; 8]
        ensures { result ≡ limits_of self }
    {
        [
            self.upper_display,
            self.lower_display,
            self.upper_alarm,
            self.upper_warning,
            self.lower_warning,
            self.lower_alarm,
            self.upper_control,
            self.lower_control,
        ]
    }
}

impl Display {
    ghost use Rattle.ca_dbr.specs.DisplayData.{IsData};
    ghost use Rattle.ca_dbr.specs.Data.{data_of, limits_of, FitsField, in_field, StateRefused};

    /// Display data without states. Refused as NameLength if the units are over 7 bytes or have a
    /// zero byte.
    pub fn new(
        alloc: Global,
        units: &[u8],
        precision: i16,
        limits: Limits,
    ) -> Result<Display, Refusal>
        ensures made { IfOk result (λ d. data_of d ≡ record {
          units = in_field 8 units.now;
          precision = precision;
          limits = limits_of limits;
          states = [];
        }) }
        ensures fits { IfOk result (λ _. FitsField 8 units.now) }
        ensures err { IfErr result (λ e. (e ≡ NameLength) × (FitsField 8 units.now → ⊥)) }
    {
        let units = fixed::<8>(units)?;
        Ok(Display {
            units,
            precision,
            limits,
            states: Vec::new(alloc),
        })
    }

    /// Adds the name of one more state. Refused as BadCount if there are 16, as NameLength if it is
    /// over 25 bytes or has a zero byte, then as OutOfMemory; nothing changes then.
    pub fn add_state(&mut self, name: &[u8]) -> Result<(), Refusal>
        ensures added { IfOk result (λ _. (data_of self.new).states
            ≡ (data_of self.old).states ++ in_field 26 name.now ∷ []) }
        ensures fits { IfOk result (λ _. FitsField 26 name.now) }
        ensures few { IfOk result (λ _. length (data_of self.old).states < 16) }
        ensures err { IfErr result (StateRefused (data_of self.old).states name.now) }
        ensures same { OnErr result (data_of self.new ≡ data_of self.old) }
        ensures only { (self.new.units ≡ self.old.units) × (self.new.precision ≡ self.old.precision)
            × (self.new.limits ≡ self.old.limits) }
    {
        if self.states.len() >= STATE_LIMIT {
            return Err(Refusal::BadCount);
        }
        let name = fixed::<26>(name)?;
        self.states.push(name)?;
        Ok(())
    }

    /// Tells that each part is one of its kind. It does nothing.
    pub fn know(&self)
        ensures { IsData (data_of self.now) }
    {
        let _precision = self.precision;
        know_limits(&self.limits.in_order());
        know_names(&self.states);
    }
}

// Tells that these are bit patterns of DOUBLEs. It does nothing.
fn know_limits(limits: &[u64])
    ensures { All (λ n. n < 2 ^ 64) limits.now }
{
    for limit in limits {
        let _limit = *limit;
    }
}

// Tells that these have 26 bytes each. It does nothing.
fn know_names(names: &[[u8; 26]])
    ensures { All (λ name. length name ≡ 26) names.now }
{
    for name in names {
        let _name = *name;
    }
}
