//! An order of items.
ghost use Rattle.std.specs.Prelude.{◌≡◌, ◌+◌, ◌↔◌, ◌⊎◌, ℕ, IsTrue};

use crate::Steps;
use std::sync::ledger::Ledger;

/// Which of two items precedes the other, and in which order items are listed. On the items in use the first is a
/// strict partial order, the second a strict total order. No call takes memory.
pub trait Precedes {
    /// The items in use.
    ghost has: { Self → ℕ → Type 0 };

    /// The first item precedes the second.
    ghost precedes: { Self → ℕ → ℕ → Type 0 };

    /// The first item is listed before the second.
    ghost listed: { Self → ℕ → ℕ → Type 0 };

    /// Whether the item `a` precedes the item `b`. It takes one step.
    fn before<L: Ledger>(&self, a: u32, b: u32, steps: &mut Steps<L>) -> bool
        requires a { has self.now a }
        requires b { has self.now b }
        ensures answer { IsTrue result ↔ precedes self.now a b }
        ensures cost { steps.new ≡ steps.old + 1 };

    /// Whether the item `a` is listed before the item `b`.
    fn lists_first(&self, a: u32, b: u32) -> bool
        requires a { has self.now a }
        requires b { has self.now b }
        ensures { IsTrue result ↔ listed self.now a b };

    /// No item precedes itself.
    ghost precedes_no_self: { (p : Self) (a : ℕ) → has p a → precedes p a a → ⊥ };

    /// What precedes an item precedes whatever that item precedes.
    ghost precedes_on: { (p : Self) (a b c : ℕ) → has p a → has p b → has p c → precedes p a b → precedes p b c → precedes p a c };

    /// No item is listed before itself.
    ghost lists_no_self: { (p : Self) (a : ℕ) → has p a → listed p a a → ⊥ };

    /// What is listed before an item is listed before whatever is listed after that item.
    ghost lists_on: { (p : Self) (a b c : ℕ) → has p a → has p b → has p c → listed p a b → listed p b c → listed p a c };

    /// Of two items one is listed before the other.
    ghost lists_all: { (p : Self) (a b : ℕ) → has p a → has p b → (a ≡ b) ⊎ (listed p a b ⊎ listed p b a) };
}
