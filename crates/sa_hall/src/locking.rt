//! The order in which locks are taken.
ghost use Rattle.std.specs.Prelude.{ℕ, ◌≡◌, ◌≤◌, length};
ghost use Rattle.sa_journal.specs.Parties.{among};
ghost use Rattle.sa_hall.specs.Least.{least_from, nearer};

use sa_journal::Locks;

/// The numbers in rising order, each once. The condition is at most five numbers. It takes no memory.
pub fn plan_locks(numbers: &[u8]) -> Locks
    requires few { length numbers.now ≤ 5 }
    ensures same { (d : ℕ) → among d result ≡ among d numbers.now }
{
    let mut locks = Locks::none();
    let mut bound = 0;
    for _ in 0..numbers.len() {
        let Some(number) = least_from(numbers, bound) else {
            return locks;
        };
        locks.add(number);
        bound = u16::from(number) + 1;
    }
    locks
}

// The least of the numbers that is not below the bound; none where all are.
fn least_from(numbers: &[u8], bound: u16) -> Option<u8>
    ensures { result ≡ least_from bound numbers.now }
{
    let mut least = None;
    for number in numbers {
        least = nearer(least, *number, bound);
    }
    least
}

// The nearer to the bound of a number and the least so far.
fn nearer(least: Option<u8>, number: u8, bound: u16) -> Option<u8>
    ensures { result ≡ nearer bound least number }
{
    match least {
        _ if u16::from(number) < bound => least,
        Some(other) if other <= number => least,
        _ => Some(number),
    }
}
