//! `Steps`: a counter of steps, and the ledgers that are told of each.
ghost use Rattle.std.specs.Prelude.{◌≡◌, ℕ, ◌+◌, ◌-◌, ◌^◌, min};
ghost use Rattle.std.specs.Borrow.{ftrue};

use std::marker::Model;

/// A number that only proofs read. It takes no bytes.
#[derive(Drop)]
struct Count {
    pub ghost total: { ℕ },
}

const _: () = prove!(size_of::<Count>() == 0);

impl Model for Count {
    ghost also_owns = { λ _. ftrue };
}

impl Count {
    /// The number 0.
    fn new() -> Count
        ensures { result.total ≡ 0 }
    {
        Count {}
    }

    /// The next number.
    fn next(&self) -> Count
        ensures { result.total ≡ self.now.total + 1 }
    {
        Count {}
    }
}

/// What is told of each step.
pub trait Ledger {
    /// Notes one step.
    fn mark(&mut self);
}

/// How many steps were taken. The number takes no bytes, and only `tick` changes it.
#[derive(Drop)]
pub struct Steps<L: Ledger> {
    count: Count,
    ledger: L,
}

impl<L: Ledger> Model for Steps<L> {
    ghost use Rattle.std.specs.Prelude.{ℕ};

    ghost Value = { ℕ };

    ghost view = { λ s. s.count.total };
}

impl<L: Ledger> Steps<L> {
    /// No step yet. Each later one is told to `ledger`.
    pub fn new(ledger: L) -> Steps<L>
        ensures { result ≡ 0 }
    {
        Steps {
            count: Count::new(),
            ledger,
        }
    }

    /// One more step, which the ledger is told of.
    pub fn tick(&mut self)
        ensures { self.new ≡ self.old + 1 }
    {
        self.count = self.count.next();
        self.ledger.mark();
    }

    /// The ledger that is told of each step.
    pub fn ledger(&self) -> &L {
        &self.ledger
    }
}

/// A ledger that notes nothing.
#[derive(Clone, Copy, Debug)]
pub struct Silent;

impl Ledger for Silent {
    fn mark(&mut self) {}
}

/// A ledger that counts the steps, up to the greatest `u64`.
#[derive(Drop)]
pub struct Tally {
    count: u64,
}

impl Model for Tally {
    ghost use Rattle.std.specs.Prelude.{ℕ};

    ghost Value = { ℕ };

    ghost view = { λ t. t.count };
}

impl Tally {
    /// No step counted yet.
    pub fn new() -> Tally
        ensures { result ≡ 0 }
    {
        Tally { count: 0 }
    }

    /// How many steps were counted, or the greatest `u64` where there were more.
    pub fn read(&self) -> u64
        ensures { result ≡ self.now }
    {
        self.count
    }
}

impl Ledger for Tally {
    fn mark(&mut self)
        ensures { self.new ≡ min (self.old + 1) (2 ^ 64 - 1) }
    {
        self.count = self.count.saturating_add(1);
    }
}
