//! The two banks of a key store.

ghost use Rattle.std.specs.Prelude.{◌≡◌};
ghost use Rattle.nvs_keys.specs.Banks.{active_of, other};

/// One of the two banks.
#[derive(Clone, Copy, Debug, PartialEq, Eq)]
pub enum Bank {
    /// The lower half of the partition.
    First,
    /// The upper half.
    Second,
}

/// The active bank, by the generations of the first and the second one: the bank with the greater
/// one, the first on a tie, and none where neither has one.
pub fn active_bank(first: Option<u32>, second: Option<u32>) -> Option<Bank>
    ensures exact { result ≡ active_of first second }
{
    match (first, second) {
        (None, None) => None,
        (Some(_), None) => Some(Bank::First),
        (None, Some(_)) => Some(Bank::Second),
        (Some(first), Some(second)) => Some(if first < second {
            Bank::Second
        } else {
            Bank::First
        }),
    }
}

/// The other bank.
pub fn other_bank(bank: Bank) -> Bank
    ensures exact { result ≡ other bank }
{
    match bank {
        Bank::First => Bank::Second,
        Bank::Second => Bank::First,
    }
}
