ghost use Rattle.std.specs.Prelude.{◌≡◌, ◌==◌, if◌then◌else◌};
ghost use Rattle.std.specs.List.{list_any};
ghost use Rattle.outside.specs.Faults.{counted};

/// One more than `count`, up to the last value, where a count stands still.
pub(crate) fn counted(count: u64) -> u64
    ensures { result ≡ counted count }
{
    count.saturating_add(1)
}

/// The count of faults after a call, which `failed` or not.
pub(crate) fn faults_after(faults: u64, failed: bool) -> u64
    ensures { result ≡ (if failed then counted faults else faults) }
{
    if failed { counted(faults) } else { faults }
}

/// Whether `number` stands in `numbers`.
pub(crate) fn stands_in(number: u64, numbers: &[u32]) -> bool
    ensures { result ≡ list_any (λ n. n == number) numbers.now }
{
    numbers.iter().any(|n| u64::from(*n) == number)
}
