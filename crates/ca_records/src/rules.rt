//! Access rules by user, host and record name. The first rule that matches gives the rights to read
//! and to write; without a match both are given.
ghost use Rattle.std.specs.Prelude.{◌≡◌, option_map};
ghost use Rattle.ca_records.specs.Rules.{meets, rights, rule_bits, rule_meets};

use std::marker::Model;

// The right to read a record's value, and the right to write it.
const MAY_READ: u32 = 1;

const MAY_WRITE: u32 = 2;

/// A rule of access: whom and which record it meets, where none stands for all, and
/// what it lets them do.
#[derive(Debug, Drop)]
pub struct Rule {
    user: Option<Vec<u8>>,
    host: Option<Vec<u8>>,
    record_name: Option<Vec<u8>>,
    reads: bool,
    writes: bool,
}

impl Model for Rule {
    ghost use Rattle.std.specs.Prelude.{option_map};
    ghost use Rattle.ca_records.specs.Rules as rules;

    ghost Value = { rules.Rule };

    ghost view = { λ r.
        record {
          user = option_map (λ v. v.items) r.user;
          host = option_map (λ v. v.items) r.host;
          record_name = option_map (λ v. v.items) r.record_name;
          reads = r.reads;
          writes = r.writes;
        } };
}

impl Rule {
    /// A rule for this user on this host and this record.
    pub fn new(
        user: Option<Vec<u8>>,
        host: Option<Vec<u8>>,
        record_name: Option<Vec<u8>>,
        reads: bool,
        writes: bool,
    ) -> Rule
        ensures { result
            ≡ record {
              user = option_map (λ v. v.items) user;
              host = option_map (λ v. v.items) host;
              record_name = option_map (λ v. v.items) record_name;
              reads = reads;
              writes = writes;
            } }
    {
        Rule {
            user,
            host,
            record_name,
            reads,
            writes,
        }
    }

    // Whether it meets this user on this host and this record.
    fn is_met(&self, user: &[u8], host: &[u8], name: &[u8]) -> bool
        ensures { result ≡ rule_meets user.now host.now name.now self.now }
    {
        is_word(&self.user, user) && is_word(&self.host, host) && is_word(&self.record_name, name)
    }

    // The rights that it gives.
    fn bits(&self) -> u32
        ensures { result ≡ rule_bits self.now }
    {
        MAY_READ * u32::from(self.reads) + MAY_WRITE * u32::from(self.writes)
    }
}

// Whether a word is this one, or any.
fn is_word(wanted: &Option<Vec<u8>>, word: &[u8]) -> bool
    ensures { result ≡ meets (option_map (λ v. v.items) wanted.now) word.now }
{
    match wanted {
        None => true,
        Some(wanted) => wanted.as_slice() == word,
    }
}

// The access rights of a user on a host to a record: the bits 1 to read and 2 to write. A server
// without rules does not come here.
#[inline(never)]
pub(crate) fn rights(rules: &[Rule], user: &[u8], host: &[u8], name: &[u8]) -> u32
    ensures { result ≡ rights rules.now user.now host.now name.now }
{
    for rule in rules {
        if rule.is_met(user, host, name) {
            return rule.bits();
        }
    }
    MAY_READ + MAY_WRITE
}
