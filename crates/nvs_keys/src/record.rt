//! Records. A slot has 64 bytes:
//!
//! | place | bytes | field |
//! |---|---|---|
//! | 0 | 1 | the gate: 0 once the record is whole |
//! | 1 | 1 | how many bytes the key has |
//! | 2 | 1 | how many bytes the value has; 0xFF removes the key |
//! | 3 | 1 | 0xFF |
//! | 4 | 16 | the key, 0xFF behind it |
//! | 20 | 32 | the value, 0xFF behind it |
//! | 52 | 12 | 0xFF |

ghost use Rattle.std.specs.Prelude.{◌≡◌, ◌≤◌, ◌+◌, [], ◌∷◌, ◌++◌, length, None, Some, replicate};
ghost use Rattle.nvs_keys.specs.Changes.{change_of};
ghost use Rattle.nvs_keys.specs.Slots.{padded, record_bytes};

use arrayvec::ArrayVec;

/// The length byte of a record that removes its key.
const REMOVED: u8 = 0xFF;

/// Bytes as they are read behind a key or a value.
const FILL: [u8; 32] = [0xFF; 32];

/// So many bytes 0xFF.
#[tactic(auto, using(crate::proofs::CodeLemmas::filling))]
fn filling(len: usize) -> &'static [u8]
    requires { len ≤ 32 }
    ensures exact { result.now ≡ replicate len 255 }
{
    &FILL[..len]
}

/// Appends bytes, and as many bytes 0xFF as fill up their place.
#[tactic(auto, using(std::proofs::lemmas::List::append_assoc))]
fn put_padded(out: &mut ArrayVec<u8, 51>, bytes: &[u8], place: usize)
    requires fits { length bytes.now ≤ place }
    requires most { place ≤ 32 }
    requires room { length out.old.items + place ≤ 51 }
    ensures exact { out.new.items ≡ out.old.items ++ padded place bytes.now }
{
    let _ = out.try_extend_from_slice(bytes);
    let _ = out.try_extend_from_slice(filling(place - bytes.len()));
}

/// Bytes 1 to 51 of a record, by its key, the length byte of its value, and the value.
fn record_of(key: &[u8], len: u8, value: &[u8]) -> ArrayVec<u8, 51>
    requires key { length key.now ≤ 16 }
    requires value { length value.now ≤ 32 }
    ensures exact { result.items
        ≡ (length key.now ∷ len ∷ 255 ∷ []) ++ padded 16 key.now ++ padded 32 value.now }
{
    let mut bytes = ArrayVec::new();
    let _ = bytes.try_extend_from_slice(&[key.len() as u8, len, 0xFF]);
    put_padded(&mut bytes, key, 16);
    put_padded(&mut bytes, value, 32);
    bytes
}

/// Bytes 1 to 51 of the record that gives a key a value.
#[tactic(auto, unfolding(crate::specs::Slots::record_bytes))]
pub fn setting_of(key: &[u8], value: &[u8]) -> ArrayVec<u8, 51>
    requires key { length key.now ≤ 16 }
    requires value { length value.now ≤ 32 }
    ensures exact { result.items ≡ record_bytes (change_of key.now (Some value.now)) }
{
    record_of(key, value.len() as u8, value)
}

/// Bytes 1 to 51 of the record that removes a key.
#[tactic(auto, unfolding(crate::specs::Slots::record_bytes))]
pub fn removal_of(key: &[u8]) -> ArrayVec<u8, 51>
    requires key { length key.now ≤ 16 }
    ensures exact { result.items ≡ record_bytes (change_of key.now None) }
{
    record_of(key, REMOVED, &[])
}
