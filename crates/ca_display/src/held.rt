//! What a record holds: a value, and the display data that it is shown by.
ghost use Rattle.std.specs.Prelude.{◌≡◌, ◌≢◌, ◌≤◌, ◌⊎◌, IfErr, IfOk, None, Ok, OnErr, OnOk};
ghost use Rattle.std.specs.Prelude.{option_map};
ghost use Rattle.std.specs.Arc.{arc_value};
ghost use Rattle.ca_dbr.specs.Conversion.{Fails};
ghost use Rattle.ca_dbr.specs.Elements.{base_of, count_of, displayed, elements};
ghost use Rattle.ca_dbr.specs.Held.{IsHeldValue, bare, display_of, displayed_by};
ghost use Rattle.ca_display.specs.Alarm.{alarm_by};
ghost use Rattle.ca_display.specs.Conversion.{converted_by};
ghost use Rattle.ca_dbr.specs.Data.{data_of};
ghost use Rattle.ca_display.specs.Holding.{HoldsOver};

use crate::alarm::alarm_of;
use crate::conversion::convert_display;
use crate::renewing::copy_over;
use ca_dbr::{Display, Value, convert_to};
use ca_text::Refusal;
use std::alloc::{AllocError, Global};
use std::marker::Model;
use std::mem;
use std::sync::Arc;

/// What a record holds: its value and, if it has some, the display data that it is shown by. Copies
/// share the display data.
#[derive(Debug, Drop)]
pub struct Held {
    value: Value,
    display: Option<Arc<Display>>,
}

impl Model for Held {
    ghost use Rattle.ca_dbr.specs.Codes.{elements_code};
    ghost use Rattle.ca_dbr.specs.Elements.{Elements};

    ghost Value = { Elements };

    ghost coded = { elements_code };

    ghost use Rattle.std.specs.Arc.{arc_value};
    ghost use Rattle.std.specs.Prelude.{option_map};
    ghost use Rattle.ca_dbr.specs.Elements.{elements};
    ghost use Rattle.ca_dbr.specs.Held.{displayed_by};
    ghost use Rattle.ca_dbr.specs.Data.{data_of};

    ghost view = { λ h.
        displayed_by (option_map data_of (option_map arc_value h.display)) (elements h.value) };
}

impl Held {
    /// This value, without display data.
    pub fn of(value: Value) -> Held
        ensures { result ≡ elements value }
    {
        Held {
            value,
            display: None,
        }
    }

    /// This value, shown by these display data.
    pub fn displayed(value: Value, display: Arc<Display>) -> Held
        ensures { result ≡ displayed (data_of (arc_value display)) (elements value) }
    {
        Held {
            value,
            display: Some(display),
        }
    }

    /// Another value with the same display data. Out of memory only if there are some.
    pub fn with_value(&self, value: Value) -> Result<Held, AllocError>
        ensures ok { IfOk result (λ h. h ≡ displayed_by (display_of self.now) (elements value)) }
        ensures some { OnErr result (display_of self.now ≢ None) }
    {
        match &self.display {
            None => Ok(Held::of(value)),
            Some(display) => {
                let display = Arc::try_clone(display)?;
                Ok(Held::displayed(value, display))
            }
        }
    }

    /// A copy. Out of memory only if there are elements, or display data.
    pub fn copy(&self, alloc: Global) -> Result<Held, AllocError>
        ensures ok { IfOk result (λ copy. copy ≡ self.now) }
        ensures some { OnErr result ((count_of self.now ≢ 0) ⊎ (display_of self.now ≢ None)) }
    {
        match self.value.copy(alloc) {
            Ok(value) => self.with_value(value),
            Err(_) => Err(AllocError),
        }
    }

    /// The value.
    #[inline(always)]
    pub fn value(&self) -> &Value
        ensures value { displayed_by (display_of self.now) (elements result.now) ≡ self.now }
        ensures bare { elements result.now ≡ bare self.now }
        ensures base { base_of (elements result.now) ≡ base_of self.now }
        ensures count { count_of (elements result.now) ≡ count_of self.now }
    {
        &self.value
    }

    /// The display data, if there are some.
    pub fn display(&self) -> Option<&Display>
        ensures { option_map (λ d. data_of d.now) result ≡ display_of self.now }
    {
        match &self.display {
            None => None,
            Some(display) => Some(&**display),
        }
    }

    /// These elements in the type of the value, converted by the display data if there are some.
    ///
    /// Refused as `convert_to` of `ca_dbr` and `convert_display` are, and then as OutOfMemory.
    pub fn convert(&self, alloc: Global, value: &Value) -> Result<Value, Refusal>
        ensures ok { IfOk result (λ v. converted_by (display_of self.now) (elements value.now)
            (base_of self.now) ≡ Ok (elements v)) }
        ensures err { IfErr result (Fails (converted_by (display_of self.now) (elements value.now)
            (base_of self.now))) }
    {
        let base = self.value.base_type();
        match &self.display {
            None => convert_to(alloc, value, base),
            Some(display) => convert_display(alloc, value, base, display),
        }
    }

    /// The status and severity of the value by the limits of the display data: without them none.
    #[inline(always)]
    pub fn alarm(&self) -> (u16, u16)
        ensures { result ≡ alarm_by (display_of self.now) self.now }
    {
        match &self.display {
            None => (0, 0),
            Some(display) => alarm_of(&display.limits, &self.value),
        }
    }

    /// Tells that each element is one of its type, and that display data are such. It does nothing.
    pub fn know(&self)
        ensures { IsHeldValue self.now }
    {
        self.value.know();
        match &self.display {
            None => {}
            Some(display) => display.know(),
        }
    }

    /// Sets the value, and hands out the one before. Display data stay.
    #[inline(always)]
    pub fn set(&mut self, value: Value) -> Value
        ensures { self.new ≡ displayed_by (display_of self.old) (elements value) }
    {
        mem::replace(&mut self.value, value)
    }

    /// Sets the display data that the value is shown by from now on.
    pub fn set_display(&mut self, display: Arc<Display>)
        ensures { self.new ≡ displayed (data_of (arc_value display)) (bare self.old) }
    {
        self.display = Some(display);
    }

    /// It is the same as the other from now on. Its memory is kept if both are of one type. Without
    /// memory it has no elements, or is as it was, with display data of either.
    #[inline(always)]
    pub fn renew(&mut self, alloc: Global, other: &Held) -> Result<(), AllocError>
        ensures ok { OnOk result (self.new ≡ other.now) }
        ensures few { OnErr result (count_of self.new ≤ count_of self.old) }
    {
        share(&mut self.display, &other.display)?;
        copy_over(alloc, &mut self.value, &other.value)
    }

    /// Reads one element of the plain type of this number over the value, as `read_over` of
    /// `Value`. Display data stay. False, and nothing changes, if the value does not take it.
    #[inline(always)]
    pub fn read_over(&mut self, number: u16, bytes: &[u8]) -> bool
        ensures { HoldsOver number bytes.now self.old result self.new }
    {
        self.value.read_over(number, bytes)
    }
}

// These are the same display data as the others from now on. Without memory they stay.
#[inline(always)]
fn share(own: &mut Option<Arc<Display>>, other: &Option<Arc<Display>>) -> Result<(), AllocError>
    ensures ok { OnOk result (option_map arc_value own.new ≡ option_map arc_value other.now) }
    ensures err { OnErr result (own.new ≡ own.old) }
{
    match other {
        None => {
            *own = None;
            Ok(())
        }
        Some(display) => {
            *own = Some(Arc::try_clone(display)?);
            Ok(())
        }
    }
}
