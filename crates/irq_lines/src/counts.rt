//! The numbers of each line, a row for each core.
ghost use Rattle.std.specs.Prelude.{◌≡◌, ◌<◌, ◌≤◌, ◌+◌, ◌^◌, ℕ, ◌↔◌, IsTrue, slice_index, if◌then◌else◌};
ghost use Rattle.std.specs.Int.{bit_at};
ghost use Rattle.irq_lines.specs.Counts.{count_at, Adds, AreZero, AreSums};

/// The numbers of the 32 lines of both cores.
pub(crate) type Counts = [[u64; 32]; 2];

/// Nothing was counted yet.
pub(crate) fn no_counts() -> Counts
    ensures { AreZero result }
{
    [[0; 32]; 2]
}

/// The bit of a line.
pub(crate) fn bit_of(line: u8) -> u32
    requires { line < 32 }
    ensures exact { result ≡ 2 ^ line }
    ensures within { result < 2 ^ 32 }
{
    1 << line
}

/// Whether a line is clear in a word.
pub(crate) fn is_clear(word: u64, line: u8) -> bool
    requires { line < 32 }
    ensures { IsTrue result ↔ (bit_at word line ≡ 0) }
{
    (word >> line) & 1 == 0
}

/// These bits, or none.
pub(crate) fn only_if(wanted: bool, bits: u32) -> u32
    ensures { result ≡ (if wanted then bits else 0) }
{
    if wanted { bits } else { 0 }
}

/// One more of each of these lines.
fn add_row(row: &mut [u64; 32], bits: u32)
    requires { (l : ℕ) → l < 32 → slice_index row.old l + 1 < 2 ^ 64 }
    ensures { (l : ℕ) → l < 32 → slice_index row.new l ≡ slice_index row.old l + bit_at bits l }
{
    for line in 0..32 {
        row[line] += u64::from((bits >> line) & 1);
    }
}

/// One more of each of these lines of a core.
pub(crate) fn add(counts: &mut Counts, core: u8, bits: u32)
    requires core { core < 2 }
    requires room { (k l : ℕ) → k < 2 → l < 32 → count_at counts.old k l + 1 < 2 ^ 64 }
    ensures { Adds core bits counts.old counts.new }
{
    add_row(&mut counts[usize::from(core)], bits);
}

/// The numbers of another row are added.
fn add_numbers(row: &mut [u64; 32], more: &[u64; 32])
    requires { (l : ℕ) → l < 32 → slice_index row.old l + slice_index more.now l < 2 ^ 64 }
    ensures { (l : ℕ) → l < 32 → slice_index row.new l ≡ slice_index row.old l + slice_index more.now l }
{
    for line in 0..32 {
        row[line] += more[line];
    }
}

/// The sums of two seats' numbers.
pub(crate) fn sums(a: &Counts, b: &Counts) -> Counts
    requires { (k l : ℕ) → k < 2 → l < 32 → count_at a.now k l + count_at b.now k l < 2 ^ 64 }
    ensures { AreSums a.now b.now result }
{
    let [mut first, mut second] = *a;
    add_numbers(&mut first, &b[0]);
    add_numbers(&mut second, &b[1]);
    [first, second]
}
