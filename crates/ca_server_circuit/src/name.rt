//! Names that do not change; a short one needs no memory of its own.
ghost use Rattle.std.specs.Prelude.{◌≡◌, IfSome};

use std::marker::Model;

// The longest name that needs no memory of its own.
const SHORT: usize = 22;

/// A name that does not change. A short one is kept in its place, beside what it belongs to.
#[derive(Debug, Drop)]
pub(crate) struct KeptName {
    kept: NameBytes,
}

// Where it is kept.
#[derive(Debug, Drop)]
enum NameBytes {
    Short(Short),
    Long(Vec<u8>),
}

/// The first n of these bytes.
#[derive(Debug, Drop)]
struct Short {
    bytes: [u8; SHORT],
    len: u8,
}

impl Model for Short {
    ghost use Rattle.std.specs.Prelude.{List, ℕ, ◌≤◌, take};

    ghost Value = { List ℕ };

    ghost view = { λ s. take s.len s.bytes };

    ghost invariant = { λ s. s.len ≤ 22 };
}

impl Model for KeptName {
    ghost use Rattle.std.specs.Prelude.{List, ℕ};

    ghost Value = { List ℕ };

    ghost use Rattle.ca_server_circuit.specs.Names.{bytes_of};

    ghost view = { λ n. bytes_of n.kept };
}

impl Short {
    // A name of these bytes, if they are few enough.
    fn of(name: &[u8]) -> Option<Short>
        ensures { IfSome result (λ s. s ≡ name.now) }
    {
        let len = name.len();
        if len > SHORT {
            return None;
        }
        let mut bytes = [0; SHORT];
        bytes[..len].copy_from_slice(name);
        Some(Short {
            bytes,
            len: len as u8,
        })
    }

    // A copy of it.
    fn copy(&self) -> Short
        ensures { result ≡ self.now }
    {
        Short {
            bytes: self.bytes,
            len: self.len,
        }
    }

    fn as_slice(&self) -> &[u8]
        ensures { result.now ≡ self.now }
    {
        &self.bytes[..usize::from(self.len)]
    }
}

impl KeptName {
    // This name.
    pub(crate) fn of(name: Vec<u8>) -> KeptName
        ensures { result ≡ name.items }
    {
        match Short::of(&name) {
            Some(short) => KeptName {
                kept: NameBytes::Short(short),
            },
            None => KeptName {
                kept: NameBytes::Long(name),
            },
        }
    }

    // A copy of the name, if it has no memory of its own.
    pub(crate) fn copy(&self) -> Option<KeptName>
        ensures { IfSome result (λ n. n ≡ self.now) }
    {
        match &self.kept {
            NameBytes::Short(short) => Some(KeptName {
                kept: NameBytes::Short(short.copy()),
            }),
            NameBytes::Long(_) => None,
        }
    }

    // Its bytes.
    pub(crate) fn as_slice(&self) -> &[u8]
        ensures { result.now ≡ self.now }
    {
        match &self.kept {
            NameBytes::Short(short) => short.as_slice(),
            NameBytes::Long(name) => name.as_slice(),
        }
    }
}
