// What a book is.
ghost use Rattle.std.specs.Prelude.{◌≡◌, ℕ, List};
ghost use Rattle.books.specs.Books.{held_after};

// The length of an order.
pub const ORDER: usize = 8;

// A book, the replicated state machine of a station. Its meaning is what it holds, and a step from
// that and eight order bytes to a reply and what it holds next.
pub trait Book {
    type Reply;

    // The highest order code.
    const TOP: u8;

    ghost TOP: { ℕ };

    ghost held: { Type 0 };

    ghost holds: { Self → held };

    ghost step: { held → List ℕ → Self.Reply × held };

    // Tells the highest order code.
    fn highest_code() -> u8
        ensures { result ≡ TOP }
    {
        Self::TOP
    }

    // Carries one order out, by exactly the step.
    fn post(&mut self, order: &[u8; ORDER]) -> Self::Reply
        ensures reply { result ≡ (step (holds self.old) order.now).0 }
        ensures next { holds self.new ≡ (step (holds self.old) order.now).1 };
}

// Carries orders out one after another, and lets their replies go.
pub fn post_all<B: Book>(book: &mut B, orders: &[[u8; ORDER]])
where
    B::Reply: Drop,
    ensures { B.holds book.new ≡ held_after B.step (B.holds book.old) orders.now }
{
    for order in orders {
        let _ = book.post(order);
    }
}
